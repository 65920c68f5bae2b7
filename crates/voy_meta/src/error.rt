use crate::stage::StageWhy;
use std::alloc::AllocError;
use voy_journal::JournalError;

/// Why the metadata did not open, or a record was not put.
#[derive(Clone, Copy, Debug, PartialEq, Eq)]
pub enum MetaError {
    /// The disk failed. Its count of faults rose.
    Fault,
    /// The gate at this offset, in bytes from the beginning of `meta.journal`, is the first that has no whole payload
    /// behind it; or the payload behind it is no record, or one that is not allowed behind those in front of it.
    Damaged { offset: u64 },
    /// Memory was refused.
    NoMemory,
}

/// Why a cutover was not asked for.
#[derive(Clone, Copy, Debug, PartialEq, Eq)]
pub enum RequestError {
    /// The stage does not allow it. Nothing was done.
    Refused(StageWhy),
    /// The disk failed. Its count of faults rose.
    Fault,
    /// Memory was refused.
    NoMemory,
}

impl From<AllocError> for MetaError {
    ghost use Rattle.std.specs.Prelude.{◌≡◌};
    ghost use Rattle.voy_meta.specs.declared.error.MetaError.TheVariants.{NoMemory};

    ghost from_gives = { λ _ error. error ≡ NoMemory };

    fn from(_refused: AllocError) -> MetaError {
        MetaError::NoMemory
    }
}
