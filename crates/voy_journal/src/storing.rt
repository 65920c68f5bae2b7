ghost use Rattle.std.specs.Prelude.{◌≡◌, ◌<◌, ◌+◌, ◌^◌, length, OnOk};
ghost use Rattle.voy_disk.specs.Calls.{Change, SameOutside};
ghost use Rattle.voy_disk.specs.Faults.{HasCause};
ghost use Rattle.voy_disk.specs.Files.{IfTold};
ghost use Rattle.voy_disk.specs.Images.{ImagesOf, StepAt};
ghost use Rattle.voy_disk.specs.Steps.{Follows};
ghost use Rattle.voy_disk.specs.Frames.{KeepsOtherFiles};
ghost use Rattle.voy_disk.specs.SafeFiles.{IsSafeFile, KeepsFrontNow, Rewrites};

use voy_disk::{Disk, DiskError, Name};

/// Writes bytes at a place of a file that is safe as it reads, and makes them safe.
///
/// Whatever it answers, a stop leaves the file as it was but for the bytes there.
pub(crate) fn write_safely<D: Disk>(
    disk: &mut D,
    name: &Name,
    at: u64,
    bytes: &[u8],
) -> Result<(), DiskError>
    requires low { at < 2 ^ 63 }
    requires safe { IfTold (D.files disk.old) (IsSafeFile name.now at) }
    ensures rewrites { OnOk result (Change (Rewrites name.now at bytes.now) (D.files disk.old) (D.files disk.new)) }
    ensures fits { OnOk result (at + length bytes.now < 2 ^ 63) }
    ensures images { Follows (StepAt name.now (SameOutside at (length bytes.now))) (ImagesOf (D.files disk.old)) (ImagesOf (D.files disk.new)) }
    ensures front { Change (KeepsFrontNow name.now at) (D.files disk.old) (D.files disk.new) }
    ensures others { Change (KeepsOtherFiles name.now) (D.files disk.old) (D.files disk.new) }
    ensures cause { HasCause DiskError.Failed (D.faults disk.old) (D.faults disk.new) result }
    ensures lender { D.lender disk.new ≡ D.lender disk.old }
{
    disk.write_at(name, at, bytes)?;
    disk.sync(name)
}
