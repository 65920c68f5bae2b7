//! The words of a command line of `voyager`, and what they ask for.
//!
//! [`read_words`] finds the phrase with which the words begin, and reads those behind it as the options of
//! that phrase: `--name value` or `--name=value`, in any order, each at most once. What it answers is one
//! [`Command`] with each number in its range and each option that was left out at its default; or [`Usage`],
//! which says whether no phrase was there or the words behind it have no reading.
//!
//! [`export_dir`] is the folder that the words of the program itself name.
//!
//! The clauses to believe are `ok` and `err` of [`read_words`]: the answer is that of `reading` in
//! `specs/Reading.antt`, over the tables in `specs/Table.antt`, and want of memory is the one other answer.
#![tactic(auto)]

mod asked;
mod commands;
mod error;
mod folder;
mod grammar;
mod numbers;
mod phrase;
mod reading;
mod setting;

pub use asked::{Asked, Command};
pub use error::{Usage, WordsError};
pub use folder::export_dir;
pub use phrase::Phrase;
pub use reading::read_words;
