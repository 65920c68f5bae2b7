use std::alloc::AllocError;
use voy_txn::StoreError;

/// Why a log did not take a transaction.
#[derive(Clone, Copy, Debug, PartialEq, Eq)]
pub enum LogError {
    /// What is below the log failed. Its count of faults rose, and the log is not live.
    Fault,
    /// Memory was refused. Nothing changed and the log is live, or it is not live.
    NoMemory,
}

impl From<LogError> for StoreError {
    ghost use Rattle.std.specs.Prelude.{◌≡◌};
    ghost use Rattle.voy_store.specs.Logs.{of_log};

    ghost from_gives = { λ error given. given ≡ of_log error };

    fn from(error: LogError) -> StoreError {
        match error {
            LogError::Fault => StoreError::Fault,
            LogError::NoMemory => StoreError::NoMemory,
        }
    }
}

impl From<AllocError> for LogError {
    ghost use Rattle.std.specs.Prelude.{◌≡◌};
    ghost use Rattle.voy_store.specs.declared.log_error.LogError.TheVariants.{NoMemory};

    ghost from_gives = { λ _ error. error ≡ NoMemory };

    fn from(_refused: AllocError) -> LogError {
        LogError::NoMemory
    }
}
