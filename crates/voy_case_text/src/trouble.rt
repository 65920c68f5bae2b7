use std::alloc::{AllocError, Global};

/// Why a case came to nothing.
#[derive(Debug, Drop)]
pub enum Trouble {
    /// It is not written as a case is.
    Case(&'static str),
    /// Two calls that have to agree do not.
    Apart(&'static str),
    NoMemory,
}

impl From<AllocError> for Trouble {
    fn from(_error: AllocError) -> Trouble {
        Trouble::NoMemory
    }
}

/// The line of a case: its name and what it came to.
pub fn line_of(
    alloc: Global,
    name: &str,
    came_to: Result<String, Trouble>,
) -> Result<String, AllocError> {
    match came_to {
        Ok(text) => format!(in alloc; "{name}: {text}\n"),
        Err(Trouble::Case(why)) => format!(in alloc; "{name}: NO CASE: {why}\n"),
        Err(Trouble::Apart(why)) => format!(in alloc; "{name}: NOT SO: {why}\n"),
        Err(Trouble::NoMemory) => format!(in alloc; "{name}: no memory\n"),
    }
}
