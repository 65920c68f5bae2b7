//! Event lines of the queue and recorded change lines: what they say, and the text that says it.
//!
//! [`read_line`] reads an event line by the schema and [`write_line`] writes one; [`read_canonical`] takes
//! just the lines that are written so, and [`read_change`] reads a line of a recording. A line is a JSON
//! object. Which bytes are which event, and which refusal comes
//! first where they are none, is one definition, `line_reading` of `specs/EventLine.antt`; for recorded
//! lines it is `recorded_line_reading` of `specs/RecordedLine.antt`. Both share the rules on changes of
//! `specs/ChangeLine.antt`. What was read is lawful for the schema (`IsLawful`).
//!
//! The text that is written is `line_text` of `specs/LineText.antt`: compact, with the names of every
//! object in byte order. [`events_read_back`] is the law that it reads back as the same event. Such a line
//! with a change is read at once (`at_once`): the event is guessed (`guessing`), and then its text is
//! compared with the line (`same_line`). Any other line is read by way of a JSON document (`event_line`).
#![tactic(auto)]

mod at_once;
mod behind;
mod by_name;
mod change_line;
mod event;
mod event_line;
mod fields;
mod guessing;
mod laws;
mod limits;
mod line_error;
mod line_text;
mod reading;
mod recorded;
mod recorded_line;
mod same_line;
mod words;

pub use event::{Event, Events, What};
pub use laws::{events_read_back, lines_stand_in_segments};
pub use limits::{CLOSING_LINE, MAX_EVENT_LINE_BYTES, MAX_RECORDED_LINE_BYTES, is_closing_line};
pub use line_error::{LineError, LineWhy};
pub use line_text::write_line;
pub use reading::{read_canonical, read_line};
pub use recorded::Recorded;
pub use recorded_line::read_change;
