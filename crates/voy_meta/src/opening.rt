ghost use Rattle.std.specs.Prelude.{◌≡◌, ◌≢◌, Some, map, IfErr, IfOk, IsTrue, OnOk};
ghost use Rattle.voy_disk.specs.Calls.{Change};
ghost use Rattle.voy_disk.specs.Faults.{HasCause};
ghost use Rattle.voy_disk.specs.Files.{IfTold, bytes_now};
ghost use Rattle.voy_disk.specs.Frames.{KeepsOtherFiles};
ghost use Rattle.voy_disk.specs.Images.{ImagesOf};
ghost use Rattle.voy_disk.specs.Steps.{Follows, StaysTold};
ghost use Rattle.voy_journal.specs.Exact.{OpensFile, ReadsAsBefore};
ghost use Rattle.voy_journal.specs.Grammar.{DamagedAt, FitAFile, HasPayloads};
ghost use Rattle.voy_journal.specs.Journal.{KeepsPayloads, StandsOn, is_live, journal_name, known_payloads};
ghost use Rattle.voy_meta.specs.Meta.{bad_gate, meta_name, state_with};
ghost use Rattle.voy_meta.specs.Opening.{AreTaken, Finds, if_taken};

use crate::error::MetaError;
use crate::reading::read_record;
use crate::state::MetaState;
use std::alloc::{AllocError, Global};
use voy_disk::{Disk, Name};
use voy_journal::{HEAD_BYTES, Journal, JournalError, Opened};

/// Opens the journal of the metadata.
#[tactic(auto, using(voy_disk::specs::ChangeLaws::others_still))]
pub(crate) fn open_journal<D: Disk>(alloc: Global, disk: &mut D) -> Result<Opened, MetaError>
    ensures payloads { IfOk result (λ opened. IfTold (D.files disk.old) (λ fs. HasPayloads opened.payloads (bytes_now (fs meta_name)))) }
    ensures known { IfOk result (λ opened. IfTold (D.files disk.new) (λ fs. known_payloads opened.journal (Some fs) ≡ Some opened.payloads)) }
    ensures stands { IfOk result (λ opened. StandsOn opened.journal (D.files disk.new)) }
    ensures live { IfOk result (λ opened. IsTrue (is_live opened.journal)) }
    ensures name { IfOk result (λ opened. journal_name opened.journal ≡ meta_name) }
    ensures fits { IfOk result (λ opened. FitAFile opened.payloads) }
    ensures exact { OnOk result (Change (OpensFile meta_name) (D.files disk.old) (D.files disk.new)) }
    ensures bytes { Change (ReadsAsBefore meta_name) (D.files disk.old) (D.files disk.new) }
    ensures images { Follows (KeepsPayloads meta_name) (ImagesOf (D.files disk.old)) (ImagesOf (D.files disk.new)) }
    ensures others { Change (KeepsOtherFiles meta_name) (D.files disk.old) (D.files disk.new) }
    ensures told { StaysTold (ImagesOf (D.files disk.old)) (ImagesOf (D.files disk.new)) }
    ensures lender { D.lender disk.new ≡ D.lender disk.old }
    ensures cause { HasCause MetaError.Fault (D.faults disk.old) (D.faults disk.new) result }
    ensures damaged { IfErr result (λ why. (offset : _) → why ≡ MetaError.Damaged offset → IfTold (D.files disk.old) (λ fs. DamagedAt offset (bytes_now (fs meta_name)))) }
{
    let name = journal_file(alloc)?;
    match Journal::open(alloc, disk, name) {
        Ok(opened) => Ok(opened),
        Err(JournalError::Fault) => Err(MetaError::Fault),
        Err(JournalError::Damaged { offset }) => Err(MetaError::Damaged { offset }),
        Err(JournalError::NoMemory) => Err(MetaError::NoMemory),
        Err(JournalError::TooLong) => unreachable!(),
    }
}

/// The name of the journal of the metadata.
#[tactic(auto, unfolding(crate::specs::Meta::meta_name))]
fn journal_file(alloc: Global) -> Result<Name, AllocError>
    ensures { IfOk result (λ name. name ≡ meta_name) }
{
    match Name::new(alloc, "meta.journal")? {
        Some(name) => Ok(name),
        None => unreachable!(),
    }
}

/// What the records of these payloads come to. `Damaged` has the gate of the first that is no record, or one that is
/// not allowed.
pub(crate) fn read_state(alloc: Global, payloads: &[Vec<u8>]) -> Result<MetaState, MetaError>
    requires fits { FitAFile (map (λ payload. payload.items) payloads.now) }
    ensures taken { IfOk result (λ state. AreTaken (map (λ payload. payload.items) payloads.now) state) }
    ensures bad { Finds result (bad_gate (map (λ payload. payload.items) payloads.now)) }
    ensures no_fault { IfErr result (λ why. why ≢ MetaError.Fault) }
{
    let mut state = MetaState::new(alloc);
    let mut offset: u64 = 0;
    for payload in payloads {
        if !take_payload(&mut state, payload)? {
            return Err(MetaError::Damaged { offset });
        }
        offset += HEAD_BYTES + payload.len() as u64;
    }
    Ok(state)
}

/// Takes the record of a payload, and answers whether it did. Where the payload is no record, or one that is not
/// allowed, nothing changed.
fn take_payload(state: &mut MetaState, payload: &[u8]) -> Result<bool, AllocError>
    ensures { IfOk result (λ taken. state_with state.old payload.now ≡ if_taken taken state.new) }
{
    let Some(entry) = read_record(payload) else {
        return Ok(false);
    };
    if !state.allows(&entry) {
        return Ok(false);
    }
    state.take(&entry)?;
    Ok(true)
}
