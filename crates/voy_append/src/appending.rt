ghost use Rattle.std.specs.Prelude.{◌≡◌, ◌≤◌, ◌<◌, ◌+◌, ◌^◌, ℕ, List, [], length, take, IfOk, OnOk};
ghost use Rattle.voy_disk.specs.Calls.{Change};
ghost use Rattle.voy_disk.specs.Faults.{HasCause};
ghost use Rattle.voy_disk.specs.Files.{IfTold};
ghost use Rattle.voy_disk.specs.Frames.{KeepsOtherFiles};
ghost use Rattle.voy_disk.specs.Fronts.{HasFront, KeepsFront};
ghost use Rattle.voy_disk.specs.Images.{ImagesOf};
ghost use Rattle.voy_disk.specs.Steps.{Follows, StaysTold};
ghost use Rattle.voy_append.specs.Appending.{IsSafeBehind, IsSafeTo, ReadsBehind};

use crate::limits::WRITE_BYTES;
use voy_disk::{Disk, DiskError, Name};

/// Writes bytes behind the first `start` ones of a file, which are all that it has, and makes them safe.
///
/// Where `start` is 0 the file is made, or made anew: whatever it had is gone, and where there are no bytes it is empty. Else it must be
/// there. The bytes are written in pieces of at most 1,048,576 bytes, and one sync makes them safe.
///
/// Whatever it answers, a stop leaves the first `start` bytes and every other file. After an error the file may have any part of
/// the bytes, or others in their place. `NoMemory` is an answer of the disk; nothing is allocated here.
pub fn append_bytes<D: Disk>(
    disk: &mut D,
    name: &Name,
    start: u64,
    bytes: &[u8],
) -> Result<(), DiskError>
    requires low { start + length bytes.now < 2 ^ 62 }
    requires stands { IfTold (D.files disk.old) (IsSafeTo name.now start) }
    ensures written { OnOk result (IfTold (D.files disk.new) (IsSafeBehind name.now start bytes.now)) }
    ensures keeps { Follows (KeepsFront name.now start) (ImagesOf (D.files disk.old)) (ImagesOf (D.files disk.new)) }
    ensures others { Change (KeepsOtherFiles name.now) (D.files disk.old) (D.files disk.new) }
    ensures cause { HasCause DiskError.Failed (D.faults disk.old) (D.faults disk.new) result }
    ensures told { StaysTold (ImagesOf (D.files disk.old)) (ImagesOf (D.files disk.new)) }
    ensures lender { D.lender disk.new ≡ D.lender disk.old }
{
    begin_file(disk, name, start)?;
    write_pieces(disk, name, start, bytes)?;
    disk.sync(name)
}

/// Makes the file empty where bytes are to stand from its beginning.
fn begin_file<D: Disk>(disk: &mut D, name: &Name, start: u64) -> Result<(), DiskError>
    requires stands { IfTold (D.files disk.old) (IsSafeTo name.now start) }
    ensures ready { OnOk result (IfTold (D.files disk.new) (ReadsBehind name.now start [])) }
    ensures keeps { Follows (KeepsFront name.now start) (ImagesOf (D.files disk.old)) (ImagesOf (D.files disk.new)) }
    ensures others { Change (KeepsOtherFiles name.now) (D.files disk.old) (D.files disk.new) }
    ensures cause { HasCause DiskError.Failed (D.faults disk.old) (D.faults disk.new) result }
    ensures lender { D.lender disk.new ≡ D.lender disk.old }
{
    if start != 0 {
        return Ok(());
    }
    disk.create(name)?;
    disk.cut(name, 0)
}

/// Writes bytes behind those that are there, piece by piece.
fn write_pieces<D: Disk>(
    disk: &mut D,
    name: &Name,
    start: u64,
    bytes: &[u8],
) -> Result<(), DiskError>
    requires low { start + length bytes.now < 2 ^ 62 }
    requires ready { IfTold (D.files disk.old) (ReadsBehind name.now start []) }
    ensures written { OnOk result (IfTold (D.files disk.new) (ReadsBehind name.now start bytes.now)) }
    ensures keeps { (front : List ℕ) → length front ≡ start → HasFront name.now front (ImagesOf (D.files disk.old))
        → Follows (KeepsFront name.now start) (ImagesOf (D.files disk.old)) (ImagesOf (D.files disk.new)) }
    ensures others { Change (KeepsOtherFiles name.now) (D.files disk.old) (D.files disk.new) }
    ensures cause { HasCause DiskError.Failed (D.faults disk.old) (D.faults disk.new) result }
    ensures lender { D.lender disk.new ≡ D.lender disk.old }
{
    let mut done = 0;
    'pieces: while done < bytes.len() {
        done = write_piece(disk, name, start, bytes, done)?;
    }
    Ok(())
}

/// Writes one piece of the bytes behind those that were written, and answers how many are written then.
fn write_piece<D: Disk>(
    disk: &mut D,
    name: &Name,
    start: u64,
    bytes: &[u8],
    done: usize,
) -> Result<usize, DiskError>
    requires low { start + length bytes.now < 2 ^ 62 }
    requires more { done < length bytes.now }
    requires ready { IfTold (D.files disk.old) (ReadsBehind name.now start (take done bytes.now)) }
    ensures rises { IfOk result (λ now. done < now) }
    ensures within { IfOk result (λ now. now ≤ length bytes.now) }
    ensures written { IfOk result (λ now. IfTold (D.files disk.new) (ReadsBehind name.now start (take now bytes.now))) }
    ensures keeps { (front : List ℕ) → length front ≡ start → HasFront name.now front (ImagesOf (D.files disk.old))
        → Follows (KeepsFront name.now start) (ImagesOf (D.files disk.old)) (ImagesOf (D.files disk.new)) }
    ensures others { Change (KeepsOtherFiles name.now) (D.files disk.old) (D.files disk.new) }
    ensures cause { HasCause DiskError.Failed (D.faults disk.old) (D.faults disk.new) result }
    ensures lender { D.lender disk.new ≡ D.lender disk.old }
{
    let now = piece_end(bytes.len(), done);
    disk.write_at(name, start + done as u64, &bytes[done..now])?;
    Ok(now)
}

/// Where a piece ends that begins at a place in front of the end.
fn piece_end(length: usize, at: usize) -> usize
    requires { at < length }
    ensures rises { at < result }
    ensures within { result ≤ length }
{
    if length - at < WRITE_BYTES {
        length
    } else {
        at + WRITE_BYTES
    }
}
