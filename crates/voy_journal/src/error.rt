use std::alloc::AllocError;
use voy_disk::DiskError;

/// Why a call of a journal did not do its work.
#[derive(Clone, Copy, Debug, PartialEq, Eq)]
pub enum JournalError {
    /// The disk failed. Its count of faults rose.
    Fault,
    /// The open gate at this offset, in bytes from the file's beginning, has no whole length, payload and
    /// next gate behind it, or the length is above [`MAX_PAYLOAD_BYTES`](crate::MAX_PAYLOAD_BYTES).
    Damaged { offset: u64 },
    /// The payload has more than [`MAX_PAYLOAD_BYTES`](crate::MAX_PAYLOAD_BYTES) bytes.
    TooLong,
    /// Memory was refused.
    NoMemory,
}

impl From<DiskError> for JournalError {
    ghost use Rattle.std.specs.Prelude.{◌≡◌};
    ghost use Rattle.voy_journal.specs.Errors.{of_disk};

    ghost from_gives = { λ error given. given ≡ of_disk error };

    fn from(error: DiskError) -> JournalError {
        match error {
            DiskError::Failed => JournalError::Fault,
            DiskError::NoMemory => JournalError::NoMemory,
        }
    }
}

impl From<AllocError> for JournalError {
    ghost use Rattle.std.specs.Prelude.{◌≡◌};
    ghost use Rattle.voy_journal.specs.declared.error.JournalError.TheVariants.{NoMemory};

    ghost from_gives = { λ _ error. error ≡ NoMemory };

    fn from(_refused: AllocError) -> JournalError {
        JournalError::NoMemory
    }
}
