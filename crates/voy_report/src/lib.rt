//! The texts that `voyager` prints about tables and stores.
//!
//! [`table_text`] is one table's part of what the show phrases and a dry run print: its name with its
//! number of rows, and then the text of each row by ascending key. [`show_text`] is that of all tables of a
//! store, in the order of its schema.
#![tactic(auto)]

mod show;
mod stores;

pub use show::table_text;
pub use stores::show_text;
