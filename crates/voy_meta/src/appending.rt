ghost use Rattle.std.specs.Prelude.{◌≡◌, ◌≢◌, ◌++◌, [], ◌∷◌, IfErr, IsTrue, OnOk};
ghost use Rattle.std.specs.Option.{option_map};
ghost use Rattle.voy_disk.specs.Calls.{Change};
ghost use Rattle.voy_disk.specs.Faults.{HasCause};
ghost use Rattle.voy_disk.specs.Frames.{KeepsOtherFiles};
ghost use Rattle.voy_disk.specs.Images.{ImagesOf};
ghost use Rattle.voy_disk.specs.Steps.{DoesAll, LeavesPrefix, StaysTold};
ghost use Rattle.voy_journal.specs.Exact.{AppendsEntry};
ghost use Rattle.voy_journal.specs.Journal.{StandsOn, is_live, journal_gate, journal_name, known_payloads};
ghost use Rattle.voy_meta.specs.Meta.{AddsRecords, meta_name, records_told};
ghost use Rattle.voy_meta.specs.PayloadLaws.{IsRecord};
ghost use Rattle.voy_meta.specs.Records.{payload_of};

use crate::error::MetaError;
use crate::laws::records_read_back;
use crate::record::MetaRecord;
use crate::writing::payload_of;
use std::alloc::Global;
use voy_disk::Disk;
use voy_journal::{Journal, JournalError};

/// Appends the payload of a record to the journal of the metadata.
#[tactic(auto, using(voy_disk::specs::ChangeLaws::others_still))]
pub(crate) fn append_record<D: Disk>(
    alloc: Global,
    journal: &mut Journal,
    disk: &mut D,
    entry: MetaRecord,
) -> Result<(), MetaError>
    requires live { IsTrue (is_live journal.old) }
    requires stands { StandsOn journal.old (D.files disk.old) }
    requires name { journal_name journal.old ≡ meta_name }
    ensures all { DoesAll AddsRecords (entry ∷ []) result (ImagesOf (D.files disk.old)) (ImagesOf (D.files disk.new)) }
    ensures adds { OnOk result (records_told (known_payloads journal.new (D.files disk.new)) ≡ option_map (λ entries. entries ++ entry ∷ []) (records_told (known_payloads journal.old (D.files disk.old)))) }
    ensures exact { OnOk result (Change (AppendsEntry meta_name (journal_gate journal.old) (payload_of entry)) (D.files disk.old) (D.files disk.new)) }
    ensures stands { OnOk result (StandsOn journal.new (D.files disk.new)) }
    ensures live { OnOk result (IsTrue (is_live journal.new)) }
    ensures prefix { LeavesPrefix AddsRecords (entry ∷ []) (ImagesOf (D.files disk.old)) (ImagesOf (D.files disk.new)) }
    ensures others { Change (KeepsOtherFiles meta_name) (D.files disk.old) (D.files disk.new) }
    ensures told { StaysTold (ImagesOf (D.files disk.old)) (ImagesOf (D.files disk.new)) }
    ensures name { journal_name journal.new ≡ meta_name }
    ensures lender { D.lender disk.new ≡ D.lender disk.old }
    ensures cause { HasCause MetaError.Fault (D.faults disk.old) (D.faults disk.new) result }
    ensures never_damaged { IfErr result (λ error. (offset : _) → error ≢ MetaError.Damaged offset) }
{
    // The laws that a payload reads as its record and is short; there is nothing to run.
    records_read_back();
    in_range(entry);
    let payload = payload_of(alloc, &entry)?;
    match journal.append(disk, payload.as_slice()) {
        Ok(()) => Ok(()),
        Err(JournalError::Fault) => Err(MetaError::Fault),
        Err(JournalError::NoMemory) => Err(MetaError::NoMemory),
        Err(JournalError::TooLong) => unreachable!(),
        Err(JournalError::Damaged { .. }) => unreachable!(),
    }
}

/// The numbers of a record are those of their types. There is nothing to run.
fn in_range(entry: MetaRecord)
    ensures { IsRecord entry }
{
    match entry {
        MetaRecord::Version { .. } => {}
        MetaRecord::Snapshot { .. } => {}
        MetaRecord::Queue { spot, .. } => match spot {
            Some(_) => {}
            None => {}
        },
        MetaRecord::Request { .. } => {}
        MetaRecord::Channels { .. } => {}
        MetaRecord::Finished { .. } => {}
        MetaRecord::Done { .. } => {}
        MetaRecord::Loaded => {}
    }
}
