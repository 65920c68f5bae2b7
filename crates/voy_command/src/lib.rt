//! The whole program `voyager`, as a library: its commands over any four disks and two sinks.
//!
//! `voy_words` says which command words ask for. These are built, over a recording, an export, and two stores; the others
//! answer that they are not:
//!
//! - `import data to target --dry-run` folds the exported events by the recorded schema, prints the rows
//!   that an import would leave, and says whether the cutover event was reached.
//! - `show target` and `show source` print the tables of a store.
//!
//! [`run`] is the whole program, and its clause `answered` is what is promised of it: the exit status and
//! the text on the error output are those of an [`Answer`], and the answer stands for what was done. What all commands
//! share stands in `specs/Part.antt`, and what each says of its own below `specs/Commands/`.
//! [`start`] gives `run` the folders below the one that the program's words name and the standard streams.
#![tactic(auto)]

mod answer;
mod commands;
mod host;
mod laws;
mod names;
mod print;
mod recorded;

pub use answer::{Answer, Cause, FileName, Unbuilt, Which};
pub use commands::{Task, command, run};
pub use host::{refuse, start, words_of};
pub use laws::{stores_have_one_text, valid_streams_fold};
