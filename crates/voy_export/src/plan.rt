use crate::error::{ExportError, Why};
use voy_disk::Name;

/// What an export of changes has still to do.
#[derive(Clone, Copy, Debug, PartialEq, Eq)]
pub(crate) struct Plan {
    /// How many changes it may add; `None` for any number.
    pub left: Option<u64>,
    /// Whether the cutover is asked for.
    pub end: bool,
}

impl Plan {
    ghost use Rattle.std.specs.Prelude.{◌≡◌, not};
    ghost use Rattle.voy_export.specs.Ends.{reads_on};
    ghost use Rattle.voy_export.specs.Turns.{one_less};

    /// Whether nothing is left to do, so that no further line is to be read.
    pub fn is_over(self) -> bool
        ensures { result ≡ not (reads_on self.left self.end 0) }
    {
        match self.left {
            None => false,
            Some(left) => left == 0 && !self.end,
        }
    }

    /// What is left to do behind one change more.
    pub fn after_change(self) -> Plan
        ensures left { result.left ≡ one_less self.left }
        ensures end { result.end ≡ self.end }
    {
        match self.left {
            None => self,
            Some(left) => Plan {
                left: Some(left.saturating_sub(1)),
                end: self.end,
            },
        }
    }
}

/// What was refused.
#[derive(Debug, Drop)]
pub(crate) enum Refusal {
    /// A line has no reading.
    Line { file: Name, line: u64, why: Why },
    /// A line is too long, or no vsn or segment is left for its event.
    Limit { file: Name, line: u64 },
}

/// What a step of an export came to.
#[derive(Debug, Drop)]
pub(crate) enum Step {
    /// It put an event, and there may be more.
    Put,
    /// All is done.
    Finished,
    /// It was refused, and put nothing.
    Stopped(Refusal),
}

impl From<Refusal> for ExportError {
    ghost use Rattle.std.specs.Prelude.{◌≡◌};
    ghost use Rattle.voy_export.specs.Errors.{error_of};

    ghost from_gives = { λ refusal error. error ≡ error_of refusal };

    fn from(refusal: Refusal) -> ExportError {
        match refusal {
            Refusal::Line { file, line, why } => ExportError::Refused { file, line, why },
            Refusal::Limit { file, line } => ExportError::Limit { file, line },
        }
    }
}
