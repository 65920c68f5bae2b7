ghost use Rattle.std.specs.Prelude.{◌≡◌, ◌≢◌, ◌≤◌, ◌<◌, false, length, nat_le, IfErr, IfOk, OnOk};
ghost use Rattle.voy_append.specs.Appending.{IsSafeTo};
ghost use Rattle.voy_disk.specs.Calls.{Change, IsThereWith};
ghost use Rattle.voy_disk.specs.Faults.{HasCause};
ghost use Rattle.voy_disk.specs.Files.{IfTold, bytes_now};
ghost use Rattle.voy_disk.specs.Frames.{KeepsOtherFiles};
ghost use Rattle.voy_disk.specs.Fronts.{HasFront, KeepsFront};
ghost use Rattle.voy_disk.specs.Images.{ImagesOf};
ghost use Rattle.voy_disk.specs.Steps.{Follows};
ghost use Rattle.voy_queue.specs.Names.{segment_name};
ghost use Rattle.voy_queue.specs.Opening.{IsShort, is_short};
ghost use Rattle.voy_queue.specs.Writer.{EndIsSafe, StandsIn};

use crate::end::End;
use crate::error::QueueError;
use crate::last_line::behind_last_line;
use crate::names::segment_file;
use std::alloc::Global;
use voy_disk::{Disk, DiskError, Name};

/// Cuts the last segment to its committed bytes, and makes them safe. Where it has fewer, it is damaged, and nothing changes.
pub(crate) fn settle_end<D: Disk>(alloc: Global, disk: &mut D, end: End) -> Result<(), QueueError>
    ensures stands { OnOk result (IfTold (D.files disk.new) (StandsIn end)) }
    ensures whole { OnOk result (IfTold (D.files disk.old) (λ fs. is_short end fs ≡ false)) }
    ensures damaged { IfErr result (λ error. (segment : _) (offset : _) → error ≡ QueueError.Damaged segment offset → IfTold (D.files disk.old) (IsShort end segment offset)) }
    ensures untouched { IfErr result (λ error. (segment : _) (offset : _) → error ≡ QueueError.Damaged segment offset → D.files disk.new ≡ D.files disk.old) }
    ensures keeps { EndIsSafe end (ImagesOf (D.files disk.old)) → Follows (KeepsFront (segment_name end.number) end.bytes) (ImagesOf (D.files disk.old)) (ImagesOf (D.files disk.new)) }
    ensures others { Change (KeepsOtherFiles (segment_name end.number)) (D.files disk.old) (D.files disk.new) }
    ensures lender { D.lender disk.new ≡ D.lender disk.old }
    ensures cause { HasCause QueueError.Fault (D.faults disk.old) (D.faults disk.new) result }
{
    if end.bytes == 0 {
        return Ok(());
    }
    let name = segment_file(alloc, end.number)?;
    if !has_bytes(disk, &name, end.bytes)? {
        let offset = behind_last_line(alloc, disk, &name)?;
        return Err(QueueError::Damaged {
            segment: end.number,
            offset,
        });
    }
    cut_safely(disk, &name, end.bytes)?;
    Ok(())
}

/// Whether a file has at least so many bytes.
fn has_bytes<D: Disk>(disk: &mut D, name: &Name, bytes: u64) -> Result<bool, DiskError>
    requires { 0 < bytes }
    ensures has { IfOk result (λ has. IfTold (D.files disk.old) (λ fs. has ≡ nat_le bytes (length (bytes_now (fs name.now))))) }
    ensures same { D.files disk.new ≡ D.files disk.old }
    ensures lender { D.lender disk.new ≡ D.lender disk.old }
    ensures cause { HasCause DiskError.Failed (D.faults disk.old) (D.faults disk.new) result }
{
    match disk.len(name)? {
        None => Ok(false),
        Some(length) => Ok(bytes <= length),
    }
}

/// Cuts a file to bytes that it has, and makes them safe.
fn cut_safely<D: Disk>(disk: &mut D, name: &Name, to: u64) -> Result<(), DiskError>
    requires there { IfTold (D.files disk.old) (λ fs. IsThereWith (λ file. to ≤ length file.now) (fs name.now)) }
    ensures safe { OnOk result (IfTold (D.files disk.new) (IsSafeTo name.now to)) }
    ensures keeps { (front : _) → length front ≡ to → HasFront name.now front (ImagesOf (D.files disk.old))
        → Follows (KeepsFront name.now to) (ImagesOf (D.files disk.old)) (ImagesOf (D.files disk.new)) }
    ensures others { Change (KeepsOtherFiles name.now) (D.files disk.old) (D.files disk.new) }
    ensures lender { D.lender disk.new ≡ D.lender disk.old }
    ensures cause { HasCause DiskError.Failed (D.faults disk.old) (D.faults disk.new) result }
{
    disk.cut(name, to)?;
    disk.sync(name)
}
