ghost use Rattle.std.specs.Prelude.{◌≡◌, ◌≢◌, ◌<◌, ◌+◌, ◌^◌, Some, length, IfOk, IfErr, IsTrue, OnOk};
ghost use Rattle.voy_disk.specs.Calls.{Change};
ghost use Rattle.voy_disk.specs.Faults.{HasCause};
ghost use Rattle.voy_disk.specs.Files.{IfTold, bytes_now};
ghost use Rattle.voy_disk.specs.Images.{ImagesOf};
ghost use Rattle.voy_disk.specs.Steps.{Follows, StaysTold};
ghost use Rattle.voy_journal.specs.Grammar.{DamagedAt, FitAFile, HasPayloads};
ghost use Rattle.voy_journal.specs.Journal.{HasJournal, KeepsPayloads, StandsAt, StandsOn, is_live, journal_name, known_payloads};
ghost use Rattle.voy_disk.specs.Frames.{KeepsOtherFiles};
ghost use Rattle.voy_disk.specs.SafeFiles.{KeepsBytesNow, Settles};
ghost use Rattle.voy_journal.specs.Exact.{OpensFile, ReadsAsBefore};

use crate::error::JournalError;
use crate::limits::CLOSED_GATE;
use crate::opened::Opened;
use crate::payloads::Payloads;
use crate::reading::{Found, read_payloads};
use crate::state::Journal;
use crate::storing::write_safely;
use std::alloc::Global;
use voy_disk::{Disk, DiskError, Name};

impl Journal {
    /// Opens the journal with this name, and makes it where there is no such file or one of at most one
    /// byte. The file is synced before any gate is believed.
    ///
    /// After Ok nothing of the file is touched. Whatever the answer, a file of more than one byte reads as
    /// before, and a stop leaves the payloads that it would have left before. `Damaged` has the offset of the
    /// first open gate that has no whole payload and next gate behind it. `TooLong` is never answered.
    pub fn open<D: Disk>(alloc: Global, disk: &mut D, name: Name) -> Result<Opened, JournalError>
        // the payloads are those that the file's bytes have at entry, and every image has just these
        ensures payloads { IfOk result (λ opened. IfTold (D.files disk.old) (λ fs. HasPayloads opened.payloads (bytes_now (fs name)))) }
        ensures every { IfOk result (λ opened. HasJournal name opened.payloads (ImagesOf (D.files disk.new))) }
        ensures known { IfOk result (λ opened. IfTold (D.files disk.new) (λ fs. known_payloads opened.journal (Some fs) ≡ Some opened.payloads)) }
        ensures stands { IfOk result (λ opened. StandsOn opened.journal (D.files disk.new)) }
        ensures live { IfOk result (λ opened. IsTrue (is_live opened.journal)) }
        ensures name { IfOk result (λ opened. journal_name opened.journal ≡ name) }
        // on any disk, also one that tells nothing
        ensures fits { IfOk result (λ opened. FitAFile opened.payloads) }
        // the bytes are those that were there, or one gate of 0 in place of at most one byte
        ensures exact { OnOk result (Change (OpensFile name) (D.files disk.old) (D.files disk.new)) }
        // whatever it answers
        ensures images { Follows (KeepsPayloads name) (ImagesOf (D.files disk.old)) (ImagesOf (D.files disk.new)) }
        ensures bytes { Change (ReadsAsBefore name) (D.files disk.old) (D.files disk.new) }
        ensures others { Change (KeepsOtherFiles name) (D.files disk.old) (D.files disk.new) }
        ensures told { StaysTold (ImagesOf (D.files disk.old)) (ImagesOf (D.files disk.new)) }
        ensures lender { D.lender disk.new ≡ D.lender disk.old }
        // when each error comes
        ensures cause { HasCause JournalError.Fault (D.faults disk.old) (D.faults disk.new) result }
        ensures damaged { IfErr result (λ error. (offset : _) → error ≡ JournalError.Damaged offset → IfTold (D.files disk.old) (λ fs. DamagedAt offset (bytes_now (fs name)))) }
        ensures never_long { IfErr result (λ error. error ≢ JournalError.TooLong) }
    {
        let Found { payloads, gate } = settle_and_read(alloc, disk, &name)?;
        let journal = Journal {
            alloc,
            name,
            gate,
            live: true,
        };
        Ok(Opened { journal, payloads })
    }
}

// Makes the file safe, and reads it; a file of at most one byte is made anew.
fn settle_and_read<D: Disk>(alloc: Global, disk: &mut D, name: &Name) -> Result<Found, JournalError>
    ensures payloads { IfOk result (λ found. IfTold (D.files disk.old) (λ fs. HasPayloads found.payloads (bytes_now (fs name.now)))) }
    ensures stands { IfOk result (λ found. IfTold (D.files disk.new) (StandsAt name.now found.gate found.payloads)) }
    ensures place { IfOk result (λ found. found.gate + 1 < 2 ^ 63) }
    ensures fits { IfOk result (λ found. FitAFile found.payloads) }
    ensures exact { OnOk result (Change (OpensFile name.now) (D.files disk.old) (D.files disk.new)) }
    ensures bytes { Change (ReadsAsBefore name.now) (D.files disk.old) (D.files disk.new) }
    ensures images { Follows (KeepsPayloads name.now) (ImagesOf (D.files disk.old)) (ImagesOf (D.files disk.new)) }
    ensures others { Change (KeepsOtherFiles name.now) (D.files disk.old) (D.files disk.new) }
    ensures lender { D.lender disk.new ≡ D.lender disk.old }
    ensures cause { HasCause JournalError.Fault (D.faults disk.old) (D.faults disk.new) result }
    ensures damaged { IfErr result (λ error. (offset : _) → error ≡ JournalError.Damaged offset → IfTold (D.files disk.old) (λ fs. DamagedAt offset (bytes_now (fs name.now)))) }
    ensures never_long { IfErr result (λ error. error ≢ JournalError.TooLong) }
{
    let end = settle(disk, name)?;
    if end <= 1 {
        write_safely(disk, name, 0, &[CLOSED_GATE])?;
        return Ok(Found {
            payloads: Payloads::new(alloc),
            gate: 0,
        });
    }
    read_payloads(alloc, disk, name, end)
}

// Makes the file where it is absent, and all its bytes safe. Its length.
fn settle<D: Disk>(disk: &mut D, name: &Name) -> Result<u64, DiskError>
    ensures settles { OnOk result (Change (Settles name.now) (D.files disk.old) (D.files disk.new)) }
    ensures reads { Change (KeepsBytesNow name.now) (D.files disk.old) (D.files disk.new) }
    ensures length { IfOk result (λ end. IfTold (D.files disk.old) (λ fs. end ≡ length (bytes_now (fs name.now)))) }
    ensures short { IfOk result (λ end. end < 2 ^ 63) }
    ensures images { Follows (KeepsPayloads name.now) (ImagesOf (D.files disk.old)) (ImagesOf (D.files disk.new)) }
    ensures others { Change (KeepsOtherFiles name.now) (D.files disk.old) (D.files disk.new) }
    ensures lender { D.lender disk.new ≡ D.lender disk.old }
    ensures cause { HasCause DiskError.Failed (D.faults disk.old) (D.faults disk.new) result }
{
    make_safe(disk, name)?;
    let end = disk.len(name)?;
    Ok(end.unwrap_or(0))
}

// Makes the file where it is absent, and all its bytes safe.
fn make_safe<D: Disk>(disk: &mut D, name: &Name) -> Result<(), DiskError>
    ensures settles { OnOk result (Change (Settles name.now) (D.files disk.old) (D.files disk.new)) }
    ensures reads { Change (KeepsBytesNow name.now) (D.files disk.old) (D.files disk.new) }
    ensures images { Follows (KeepsPayloads name.now) (ImagesOf (D.files disk.old)) (ImagesOf (D.files disk.new)) }
    ensures others { Change (KeepsOtherFiles name.now) (D.files disk.old) (D.files disk.new) }
    ensures lender { D.lender disk.new ≡ D.lender disk.old }
    ensures cause { HasCause DiskError.Failed (D.faults disk.old) (D.faults disk.new) result }
{
    disk.create(name)?;
    disk.sync(name)
}
