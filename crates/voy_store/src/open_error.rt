use std::alloc::AllocError;

/// Why a store did not open.
#[derive(Clone, Copy, Debug, PartialEq, Eq)]
pub enum OpenError {
    /// The disk failed. Its count of faults rose.
    Fault,
    /// The gate at this offset, in bytes from the beginning of `store.journal`, is the first that has no
    /// whole payload behind it; or the payload behind it is no transaction, or one that the store does not
    /// take after those in front of it.
    Damaged { offset: u64 },
    /// Memory was refused.
    NoMemory,
}

impl From<AllocError> for OpenError {
    ghost use Rattle.std.specs.Prelude.{◌≡◌};
    ghost use Rattle.voy_store.specs.declared.open_error.OpenError.TheVariants.{NoMemory};

    ghost from_gives = { λ _ error. error ≡ NoMemory };

    fn from(_refused: AllocError) -> OpenError {
        OpenError::NoMemory
    }
}

/// A disk over which no store was opened, and why not.
#[derive(Debug, Drop)]
pub struct NotOpened<D> {
    /// The disk, as the opening left it.
    pub disk: D,
    pub why: OpenError,
}
