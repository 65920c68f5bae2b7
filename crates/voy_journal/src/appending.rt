ghost use Rattle.std.specs.Prelude.{◌≡◌, ◌≢◌, ◌↔◌, ◌<◌, ◌≤◌, ◌+◌, ◌^◌, ◌++◌, [], ◌∷◌, length, IfErr, IfOk, IsErrOf, IsTrue, IsFalse, OnErr, OnOk};
ghost use Rattle.std.specs.Option.{option_map};
ghost use Rattle.voy_disk.specs.Calls.{Change};
ghost use Rattle.voy_disk.specs.Faults.{HasCause};
ghost use Rattle.voy_disk.specs.Files.{IfTold};
ghost use Rattle.voy_disk.specs.Images.{ImagesOf, SameBut};
ghost use Rattle.voy_disk.specs.Steps.{DoesAll, Follows, LeavesPrefix, StaysTold};
ghost use Rattle.voy_journal.specs.Journal.{AddsPayloads, Stands, StandsOn, is_live, journal_gate, journal_name, known_payloads};
ghost use Rattle.voy_journal.specs.Blocks.{Appends, AppendsOrNot, IsBlock};
ghost use Rattle.voy_disk.specs.Frames.{KeepsOtherFiles};
ghost use Rattle.voy_disk.specs.SafeFiles.{KeepsFrontNow, Rewrites};
ghost use Rattle.voy_journal.specs.Exact.{AppendsEntry};

use crate::error::JournalError;
use crate::limits::{BLOCK_BYTES, CLOSED_GATE, MAX_PAYLOAD_BYTES, OPEN_GATE};
use crate::state::Journal;
use crate::storing::write_safely;
use std::alloc::{AllocError, Global};
use voy_disk::{Disk, DiskError, Name};

impl Journal {
    /// Puts a payload behind the others. Once it answers Ok, no stop can lose it.
    ///
    /// `TooLong` comes exactly for a payload of more than [`MAX_PAYLOAD_BYTES`] bytes, and nothing changed.
    /// After `Fault` the journal is not live, and each image has the old payloads, or these and the new
    /// one. After `NoMemory` it is live and nothing changed, or all is as after `Fault`. `Damaged` is never
    /// answered.
    pub fn append<D: Disk>(&mut self, disk: &mut D, payload: &[u8]) -> Result<(), JournalError>
        requires live { IsTrue (is_live self.old) }
        requires stands { StandsOn self.old (D.files disk.old) }

        // after Ok
        ensures all { DoesAll (AddsPayloads (journal_name self.old)) (payload.now ∷ []) result (ImagesOf (D.files disk.old)) (ImagesOf (D.files disk.new)) }
        ensures adds { OnOk result (known_payloads self.new (D.files disk.new) ≡ option_map (λ payloads. payloads ++ payload.now ∷ []) (known_payloads self.old (D.files disk.old))) }
        ensures exact { OnOk result (Change (AppendsEntry (journal_name self.old) (journal_gate self.old) payload.now) (D.files disk.old) (D.files disk.new)) }
        ensures live { OnOk result (IsTrue (is_live self.new)) }
        // whatever it answers
        ensures prefix { LeavesPrefix (AddsPayloads (journal_name self.old)) (payload.now ∷ []) (ImagesOf (D.files disk.old)) (ImagesOf (D.files disk.new)) }
        ensures stands { IsTrue (is_live self.new) → StandsOn self.new (D.files disk.new) }
        ensures others { Change (KeepsOtherFiles (journal_name self.old)) (D.files disk.old) (D.files disk.new) }
        ensures told { StaysTold (ImagesOf (D.files disk.old)) (ImagesOf (D.files disk.new)) }
        ensures name { journal_name self.new ≡ journal_name self.old }
        ensures lender { D.lender disk.new ≡ D.lender disk.old }
        // when each error comes, and what stands after it
        ensures cause { HasCause JournalError.Fault (D.faults disk.old) (D.faults disk.new) result }
        ensures dead { IsErrOf result JournalError.Fault → IsFalse (is_live self.new) }
        ensures long { IsErrOf result JournalError.TooLong ↔ (MAX_PAYLOAD_BYTES < length payload.now) }
        ensures still { IsErrOf result JournalError.TooLong → IsTrue (is_live self.new) }
        ensures never_damaged { IfErr result (λ error. (offset : _) → error ≢ JournalError.Damaged offset) }
        ensures knows { OnErr result (known_payloads self.new (D.files disk.new) ≡ known_payloads self.old (D.files disk.old)) }
        ensures same { OnErr result (IsTrue (is_live self.new) → self.new ≡ self.old) }
        ensures unchanged { OnErr result (IsTrue (is_live self.new) → D.files disk.new ≡ D.files disk.old) }
    {
        if payload.len() > MAX_PAYLOAD_BYTES as usize {
            return Err(JournalError::TooLong);
        }
        let block = block_of(self.alloc, payload)?;
        self.live = false;
        put_behind(disk, &self.name, self.gate, &block)?;
        self.gate += block.len() as u64;
        self.live = true;
        Ok(())
    }

    /// Whether the journal may be appended to. Where not, open it again.
    pub fn live(&self) -> bool
        ensures { result ≡ is_live self.now }
    {
        self.live
    }
}

// Writes a block behind the closed gate, and then opens the gate. The block is safe before the gate is
// opened.
fn put_behind<D: Disk>(disk: &mut D, name: &Name, gate: u64, block: &[u8]) -> Result<(), DiskError>
    requires low { gate + 1 < 2 ^ 63 }
    requires stands { IfTold (D.files disk.old) (Stands name.now gate) }
    requires some { 0 < length block.now }
    ensures either { AppendsOrNot name.now gate block.now (D.files disk.old) (ImagesOf (D.files disk.new)) }
    ensures appends { OnOk result (Appends name.now gate block.now (D.files disk.old) (D.files disk.new)) }
    ensures exact { OnOk result (Change (Rewrites name.now gate (1 ∷ block.now)) (D.files disk.old) (D.files disk.new)) }
    ensures fits { OnOk result (gate + length block.now + 1 < 2 ^ 63) }
    ensures same_but { Follows (SameBut name.now) (ImagesOf (D.files disk.old)) (ImagesOf (D.files disk.new)) }
    ensures front { Change (KeepsFrontNow name.now gate) (D.files disk.old) (D.files disk.new) }
    ensures others { Change (KeepsOtherFiles name.now) (D.files disk.old) (D.files disk.new) }
    ensures cause { HasCause DiskError.Failed (D.faults disk.old) (D.faults disk.new) result }
    ensures lender { D.lender disk.new ≡ D.lender disk.old }
{
    write_safely(disk, name, gate + 1, block)?;
    write_safely(disk, name, gate, &[OPEN_GATE])
}

// The length of a payload, the payload and a closed gate.
fn block_of(alloc: Global, payload: &[u8]) -> Result<Vec<u8>, AllocError>
    requires { length payload.now ≤ MAX_PAYLOAD_BYTES }
    ensures { IfOk result (λ block. IsBlock payload.now block.items) }
{
    let length = payload.len() as u32;
    let mut block = Vec::with_capacity(alloc, payload.len() + BLOCK_BYTES)?;
    block.extend_from_slice(&length.to_be_bytes())?;
    block.extend_from_slice(payload)?;
    block.push(CLOSED_GATE)?;
    Ok(block)
}
