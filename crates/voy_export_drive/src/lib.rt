//! One whole export over its two disks, as cases, tests and the measurement of exports drive it.
//!
//! [`export`] opens the metadata, exports the snapshot where a source is exported, and then the changes of that exporter: what the
//! command does, but for its words and its texts.
#![tactic(auto)]

mod driving;
mod trouble;

pub use driving::{Order, export};
pub use trouble::Trouble;
