//! The queue of events: segments with committed sizes, which a writer makes and a reader reads back.
//!
//! The queue of an export disk is what its committed bytes read as (`queue_reading` of `specs/Reading.antt`): the sizes stand in the
//! metadata, and bytes behind them are no part of it. A writer gathers what is put, and its commit makes the bytes safe before
//! their records.
#![tactic(auto)]

mod asking;
mod commit;
mod cutover;
mod end;
mod error;
mod last_line;
mod laws;
mod names;
mod put;
mod reader;
mod reading;
mod roles;
mod segment;
mod segment_reading;
mod settling;
mod writer;
mod writer_open;

pub use end::{Added, End, Pending};
pub use error::QueueError;
pub use laws::{
    ends_are_recorded, events_are_counted, lines_are_counted, puts_are_behind, puts_go_on,
    puts_join, shelves_are_read, written_reads_back,
};
pub use reader::Reader;
pub use writer::Writer;
