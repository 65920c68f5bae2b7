use std::alloc::AllocError;
use voy_disk::Name;
use voy_event::LineWhy;
use voy_tables::RowWhy;

/// Which disk failed.
#[derive(Clone, Copy, Debug, PartialEq, Eq)]
pub enum Which {
    Recording,
    Export,
}

/// Why a recorded file was refused. A line or a row that is too long is a [`Limit`](ExportError::Limit) and none of these.
#[derive(Clone, Copy, Debug, PartialEq, Eq)]
pub enum Why {
    /// The file is absent. Its line is 0.
    Missing,
    /// The record of this number has no reading as a row, the header being record 1.
    Row(RowWhy),
    /// The line has no reading as a recorded change.
    Line(LineWhy),
}

/// Why an export did not do all that was asked for.
#[derive(Debug, Drop)]
pub enum ExportError {
    /// A recorded file is absent, or a line of it has no reading. What stands in front of it is exported.
    Refused { file: Name, line: u64, why: Why },
    /// The recorded CSV files up to this one pass their limit together (then the line is 0), a line or a row of the file does, or no vsn or
    /// segment is left for the event of this line, 0 for a cutover. What stands in front of it is exported.
    Limit { file: Name, line: u64 },
    /// A disk failed. Its count of faults rose.
    Fault(Which),
    /// Memory was refused; or the text of a table's rows has more bytes than a record may say, or the line of an event more than its limit,
    /// which a recorded file and a recorded line within their limits are not known to come to.
    NoMemory,
}

impl From<AllocError> for ExportError {
    ghost use Rattle.std.specs.Prelude.{◌≡◌};
    ghost use Rattle.voy_export.specs.declared.error.ExportError.TheVariants.{NoMemory};

    ghost from_gives = { λ _ error. error ≡ NoMemory };

    fn from(_refused: AllocError) -> ExportError {
        ExportError::NoMemory
    }
}
