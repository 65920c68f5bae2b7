ghost use Rattle.std.specs.Prelude.{◌≡◌};
ghost use Rattle.voy_disk.specs.MemFiles.{answer_of};

use crate::disk::DiskError;
use std::alloc::AllocError;

// What a call answers that was begun so and then changed the files, or had no memory for it.
pub(crate) fn answer(
    begun: Result<(), DiskError>,
    done: Result<(), AllocError>,
) -> Result<(), DiskError>
    ensures { result ≡ answer_of begun done }
{
    match done {
        Ok(()) => begun,
        Err(_) => Err(DiskError::NoMemory),
    }
}
