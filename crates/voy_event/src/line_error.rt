ghost use Rattle.std.specs.Prelude.{◌≡◌};
ghost use Rattle.voy_event.specs.Refusal.{text_of_why};

use std::alloc::AllocError;

/// Why a line was not read.
#[derive(Clone, Copy, Debug, PartialEq, Eq)]
pub enum LineError {
    /// The line has no reading, for this cause.
    Bad(LineWhy),
    NoMemory,
}

/// Why a line has no reading, the first cause that holds. The causes are tried in the order in which
/// they stand here, but for the length of row texts, which is tried last.
#[derive(Clone, Copy, Debug, PartialEq, Eq)]
pub enum LineWhy {
    /// The line has more bytes than its kind may have, or a row's text has.
    TooLong,
    /// The bytes are no JSON object.
    NotJson,
    /// There is no `op`, or it is none of the words of its kind of line.
    BadOp,
    /// A name that the op asks for is absent.
    Missing,
    /// There is a name that the op lacks, the table names name no table, or an object of column values
    /// has a name that is no column of the table.
    Unknown,
    /// Any other rule is broken.
    BadValue,
}

impl LineWhy {
    /// The words for the cause. Those for `TooLong` are never printed: a limit has a text of its own.
    pub fn text(self) -> &'static str
        ensures { result.now ≡ text_of_why self }
    {
        match self {
            LineWhy::TooLong => "too long",
            LineWhy::NotJson => "not json",
            LineWhy::BadOp => "bad op",
            LineWhy::Missing => "missing name",
            LineWhy::Unknown => "unknown name",
            LineWhy::BadValue => "bad value",
        }
    }
}

impl From<AllocError> for LineError {
    ghost use Rattle.std.specs.Prelude.{◌≡◌};
    ghost use Rattle.voy_event.specs.declared.line_error.LineError.TheVariants.{NoMemory};

    ghost from_gives = { λ _ error. error ≡ NoMemory };

    fn from(_refused: AllocError) -> LineError {
        LineError::NoMemory
    }
}

impl From<LineWhy> for LineError {
    ghost use Rattle.std.specs.Prelude.{◌≡◌};
    ghost use Rattle.voy_event.specs.declared.line_error.LineError.TheVariants.{Bad};

    ghost from_gives = { λ why error. error ≡ Bad why };

    fn from(why: LineWhy) -> LineError {
        LineError::Bad(why)
    }
}
