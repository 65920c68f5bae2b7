use std::alloc::AllocError;
use thiserror::Error;

/// Why words are no command.
#[derive(Clone, Copy, Debug, PartialEq, Eq, Error)]
pub enum Usage {
    /// They begin with no phrase of a command.
    #[error("no such command")]
    Phrase,
    /// The words behind the phrase of this number, from 0 in the order of [`crate::Phrase`], have no reading.
    #[error("the words after phrase {phrase} have no reading")]
    Rest { phrase: u32 },
}

/// Why there is no command.
#[derive(Clone, Copy, Debug, PartialEq, Eq, Error)]
pub enum WordsError {
    #[error("{0}")]
    Usage(Usage),
    #[error("out of memory")]
    NoMemory,
}

impl From<AllocError> for WordsError {
    ghost use Rattle.std.specs.Prelude.{◌≡◌};
    ghost use Rattle.voy_words.specs.declared.error.WordsError.TheVariants.{NoMemory};

    ghost from_gives = { λ _ e. e ≡ NoMemory };

    fn from(_refused: AllocError) -> WordsError {
        WordsError::NoMemory
    }
}
