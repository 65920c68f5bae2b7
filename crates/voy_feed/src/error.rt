use std::alloc::AllocError;
use voy_disk::DiskError;
use voy_event::LineWhy;

/// Why recorded changes were not read.
#[derive(Clone, Copy, Debug, PartialEq, Eq)]
pub enum FeedError {
    /// There is no such file.
    Missing,
    /// The file is longer than [`MAX_CHANGE_FILE_BYTES`](crate::MAX_CHANGE_FILE_BYTES).
    TooLarge,
    /// The line of this number, from 1, has no reading as a recorded change, for this cause.
    Line { line: u64, why: LineWhy },
    /// The disk failed. Its count of faults rose.
    Fault,
    /// Memory was refused.
    NoMemory,
}

impl From<DiskError> for FeedError {
    ghost use Rattle.std.specs.Prelude.{◌≡◌};
    ghost use Rattle.voy_feed.specs.Errors.{of_disk};

    ghost from_gives = { λ error given. given ≡ of_disk error };

    fn from(error: DiskError) -> FeedError {
        match error {
            DiskError::Failed => FeedError::Fault,
            DiskError::NoMemory => FeedError::NoMemory,
        }
    }
}

impl From<AllocError> for FeedError {
    ghost use Rattle.std.specs.Prelude.{◌≡◌};
    ghost use Rattle.voy_feed.specs.declared.error.FeedError.TheVariants.{NoMemory};

    ghost from_gives = { λ _ error. error ≡ NoMemory };

    fn from(_refused: AllocError) -> FeedError {
        FeedError::NoMemory
    }
}
