//! The recorded changes of a source or a target, in order, each that is not a resend once.
//!
//! A recording is a file of lines, of which each states a change with its place (`commit`, `seq`). A [`Feed`] gives the changes line by
//! line, and holds one line and one piece of the file. A recorder that was restarted may give changes again: a [`Keep`] knows the place of
//! the last kept change, and keeps those above it. [`Feed::next_kept`] gives just the kept changes: `kept` of `specs/Kept.antt`.
#![tactic(auto)]

mod error;
mod feed;
mod keep;
mod laws;
mod limits;
mod names;
mod next;
mod opening;

pub use error::FeedError;
pub use feed::Feed;
pub use keep::Keep;
pub use laws::{changes_are_kept, kept_go_on};
pub use limits::MAX_CHANGE_FILE_BYTES;
pub use names::change_file;
