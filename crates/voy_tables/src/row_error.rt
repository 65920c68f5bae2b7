use std::alloc::AllocError;

/// Why a record of a text of rows was refused. Where several hold for one record, the first of these.
#[derive(Clone, Copy, Debug, PartialEq, Eq)]
pub enum RowWhy {
    /// It has another number of fields than the table has columns.
    Fields,
    /// A field is not UTF-8.
    Utf8,
    /// The first record is not there or is not the table's column names, or two byte order marks stand
    /// before it.
    Header,
    /// A field stands for no lawful value of its column, or the text of a row is not as it is written.
    BadValue,
    /// A key column is NULL.
    NullKey,
    /// The text of the row has more than [`crate::MAX_ROW_TEXT_BYTES`] bytes.
    TooLong,
}

impl RowWhy {
    ghost use Rattle.std.specs.Prelude.{◌≡◌};
    ghost use Rattle.voy_tables.specs.Readings.{row_why_text};

    /// The text for a message.
    #[tactic(auto, unfolding(crate::specs::Readings::row_why_text))]
    pub fn text(self) -> &'static str
        ensures { result.now ≡ row_why_text self }
    {
        match self {
            RowWhy::Fields => "wrong number of fields",
            RowWhy::Utf8 => "not utf-8",
            RowWhy::Header => "bad header",
            RowWhy::BadValue => "bad value",
            RowWhy::NullKey => "null key",
            RowWhy::TooLong => "too long",
        }
    }
}

/// Why rows could not be read.
#[derive(Clone, Copy, Debug, PartialEq, Eq)]
pub enum RowError {
    /// The record of this number, from 1, is the first that is refused, and for this cause.
    Bad { line: u64, why: RowWhy },
    NoMemory,
}

/// Why one record was not read as a row.
#[derive(Clone, Copy, Debug, PartialEq, Eq)]
pub(crate) enum RecordError {
    Refused(RowWhy),
    NoMemory,
}

impl From<AllocError> for RecordError {
    ghost use Rattle.std.specs.Prelude.{◌≡◌};
    ghost use Rattle.voy_tables.specs.declared.row_error.RecordError.TheVariants.{NoMemory};

    ghost from_gives = { λ _ e. e ≡ NoMemory };

    fn from(_refused: AllocError) -> RecordError {
        RecordError::NoMemory
    }
}

impl From<AllocError> for RowError {
    ghost use Rattle.std.specs.Prelude.{◌≡◌};
    ghost use Rattle.voy_tables.specs.declared.row_error.RowError.TheVariants.{NoMemory};

    ghost from_gives = { λ _ e. e ≡ NoMemory };

    fn from(_refused: AllocError) -> RowError {
        RowError::NoMemory
    }
}
