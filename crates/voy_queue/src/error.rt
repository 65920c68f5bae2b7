use std::alloc::AllocError;
use voy_disk::DiskError;

/// Why the queue was not read or written.
#[derive(Clone, Copy, Debug, PartialEq, Eq)]
pub enum QueueError {
    /// The disk failed. Its count of faults rose.
    Fault,
    /// The segment of this number has fewer bytes than are committed, or the line that begins at this offset, in bytes from the segment's
    /// beginning, is not the one that must stand there.
    Damaged { segment: u32, offset: u64 },
    /// Memory was refused.
    NoMemory,
}

impl From<DiskError> for QueueError {
    ghost use Rattle.std.specs.Prelude.{◌≡◌};
    ghost use Rattle.voy_queue.specs.Errors.{of_disk};

    ghost from_gives = { λ error given. given ≡ of_disk error };

    fn from(error: DiskError) -> QueueError {
        match error {
            DiskError::Failed => QueueError::Fault,
            DiskError::NoMemory => QueueError::NoMemory,
        }
    }
}

impl From<AllocError> for QueueError {
    ghost use Rattle.std.specs.Prelude.{◌≡◌};
    ghost use Rattle.voy_queue.specs.declared.error.QueueError.TheVariants.{NoMemory};

    ghost from_gives = { λ _ error. error ≡ NoMemory };

    fn from(_refused: AllocError) -> QueueError {
        QueueError::NoMemory
    }
}
