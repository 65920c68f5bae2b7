use crate::disk::DiskError;
use crate::sink::SinkError;
use std::alloc::AllocError;

impl From<AllocError> for DiskError {
    ghost use Rattle.std.specs.Prelude.{◌≡◌};
    ghost use Rattle.voy_disk.specs.declared.disk.DiskError.TheVariants.{NoMemory};

    ghost from_gives = { λ _ error. error ≡ NoMemory };

    fn from(_refused: AllocError) -> DiskError {
        DiskError::NoMemory
    }
}

impl From<AllocError> for SinkError {
    ghost use Rattle.std.specs.Prelude.{◌≡◌};
    ghost use Rattle.voy_disk.specs.declared.sink.SinkError.TheVariants.{NoMemory};

    ghost from_gives = { λ _ error. error ≡ NoMemory };

    fn from(_refused: AllocError) -> SinkError {
        SinkError::NoMemory
    }
}
