ghost use Rattle.std.specs.Prelude.{◌≡◌, ◌≤◌, ◌<◌, ◌+◌, ◌^◌, ℕ, length, vec_len, IfErr, IfOk, IfSome, MatchOption};
ghost use Rattle.voy_disk.specs.Faults.{HasCause};
ghost use Rattle.voy_files.specs.Bytes.{OfBytes, bytes_left, unread};
ghost use Rattle.voy_journal.specs.Grammar.{DamagedAt, FitAFile, IsBroken};
ghost use Rattle.voy_journal.specs.Reading.{HoldsUpTo, IsEntry, IsShort, Meets, Takes};

use crate::error::JournalError;
use crate::limits::{HEAD_BYTES, MAX_PAYLOAD_BYTES, OPEN_GATE};
use crate::payloads::Payloads;
use std::alloc::Global;
use voy_disk::{Disk, DiskError, Name};
use voy_files::ByteReader;

/// What a file of a journal has.
#[derive(Debug, Drop)]
pub(crate) struct Found {
    pub(crate) payloads: Payloads,
    /// The place of the closed gate behind them.
    pub(crate) gate: u64,
}

/// What stands at a gate.
#[derive(Debug, Drop)]
pub(crate) enum Next {
    /// The gate is open, and this payload stands behind it, with the next gate behind that.
    Payload(Vec<u8>),
    /// The gate is closed.
    Closed,
    /// The gate is open, and no whole payload and next gate stand behind it.
    Broken,
}

/// Reads the payloads of a file of `end` bytes up to its closed gate.
pub(crate) fn read_payloads<D: Disk>(
    alloc: Global,
    disk: &mut D,
    name: &Name,
    end: u64,
) -> Result<Found, JournalError>
    requires { end < 2 ^ 63 }
    ensures found { IfOk result (λ found. OfBytes (D.files disk.old) name.now (λ bytes.
        length bytes ≡ end → 1 < end → HoldsUpTo found bytes)) }
    ensures place { IfOk result (λ found. found.gate < end) }
    ensures fits { IfOk result (λ found. FitAFile found.payloads) }
    ensures damaged { IfErr result (λ error. (offset : ℕ) → error ≡ JournalError.Damaged offset → OfBytes (D.files disk.old) name.now (λ bytes.
        length bytes ≡ end → 1 < end → DamagedAt offset bytes)) }
    ensures never_long { IfErr result (λ error. error ≡ JournalError.TooLong → ⊥) }
    ensures same { D.files disk.new ≡ D.files disk.old }
    ensures cause { HasCause JournalError.Fault (D.faults disk.old) (D.faults disk.new) result }
    ensures lender { D.lender disk.new ≡ D.lender disk.old }
{
    let mut reader = ByteReader::new(alloc, end);
    let mut payloads = Payloads::new(alloc);
    let mut gate = 0;
    'gates: loop {
        match next_of(&mut reader, disk, name)? {
            Next::Payload(payload) => {
                gate += HEAD_BYTES + payload.len() as u64;
                payloads.push(payload)?;
            }
            Next::Closed => return Ok(Found { payloads, gate }),
            Next::Broken => return Err(JournalError::Damaged { offset: gate }),
        }
    }
}

// What stands at the gate in front of the reader.
fn next_of<D: Disk>(reader: &mut ByteReader, disk: &mut D, name: &Name) -> Result<Next, DiskError>
    ensures meets { IfOk result (λ next. OfBytes (D.files disk.old) name.now (λ bytes.
        0 < length (unread reader.old bytes) → Meets next (unread reader.old bytes) (unread reader.new bytes))) }
    ensures fewer { IfOk result (λ next. Takes next (bytes_left reader.old) (bytes_left reader.new)) }
    ensures short { IfOk result (λ next. IsShort next) }
    ensures same { D.files disk.new ≡ D.files disk.old }
    ensures cause { HasCause DiskError.Failed (D.faults disk.old) (D.faults disk.new) result }
    ensures lender { D.lender disk.new ≡ D.lender disk.old }
{
    match reader.take_byte(disk, name)? {
        Some(OPEN_GATE) => {}
        Some(_) => return Ok(Next::Closed),
        None => return Ok(Next::Broken),
    }
    match entry_of(reader, disk, name)? {
        Some(payload) => Ok(Next::Payload(payload)),
        None => Ok(Next::Broken),
    }
}

// The payload behind an open gate; `None` where it, its length or the next gate is not whole, or the
// length is above what a payload may have.
fn entry_of<D: Disk>(
    reader: &mut ByteReader,
    disk: &mut D,
    name: &Name,
) -> Result<Option<Vec<u8>>, DiskError>
    ensures entry { IfOk result (λ found. OfBytes (D.files disk.old) name.now (λ bytes.
        MatchOption found (IsBroken (unread reader.old bytes)) (λ payload. IsEntry payload.items (unread reader.old bytes) (unread reader.new bytes)))) }
    ensures fewer { IfOk result (λ found. IfSome found (λ payload. bytes_left reader.new + (4 + vec_len payload) ≤ bytes_left reader.old)) }
    ensures short { IfOk result (λ found. IfSome found (λ payload. vec_len payload ≤ MAX_PAYLOAD_BYTES)) }
    ensures same { D.files disk.new ≡ D.files disk.old }
    ensures cause { HasCause DiskError.Failed (D.faults disk.old) (D.faults disk.new) result }
    ensures lender { D.lender disk.new ≡ D.lender disk.old }
{
    let Some(size) = reader.take_number(disk, name)? else {
        return Ok(None);
    };
    if size > MAX_PAYLOAD_BYTES {
        return Ok(None);
    }
    let Some(payload) = reader.take(disk, name, size as usize)? else {
        return Ok(None);
    };
    if !reader.fill(disk, name)? {
        return Ok(None);
    }
    Ok(Some(payload))
}
