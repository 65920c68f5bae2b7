use std::alloc::AllocError;
use voy_schema::{Copies, Items};
use voy_tables::{Change, Role};

/// An event of the queue.
#[derive(Debug, Drop)]
pub struct Event {
    /// Its number in the whole queue, from 1.
    pub vsn: u64,
    /// The exporter that wrote it. A cutover to the target has `Source`, one to the source `Target`.
    pub role: Role,
    pub what: What,
}

/// Events, in the order of their numbers where no other is stated.
pub type Events = Items<Event>;

/// What an event says.
#[derive(Debug, Drop)]
pub enum What {
    Change(Change),
    /// The last event of the source part.
    CutoverTarget,
    /// The last event of the target part.
    CutoverSource,
}

impl Copies for Event {
    fn copy(&self) -> Result<Self, AllocError> {
        let what = self.what.copy()?;
        Ok(Event {
            vsn: self.vsn,
            role: self.role,
            what,
        })
    }
}

impl Copies for What {
    fn copy(&self) -> Result<Self, AllocError> {
        match self {
            What::Change(change) => Ok(What::Change(change.copy()?)),
            What::CutoverTarget => Ok(What::CutoverTarget),
            What::CutoverSource => Ok(What::CutoverSource),
        }
    }
}
