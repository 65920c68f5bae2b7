//! Changes of rows, plain tables that take them, and the texts of rows both ways.
//!
//! A [`Change`] inserts, updates or deletes one row, and carries the whole row before and after it.
//! [`Plain`] keeps tables as lists of rows by ascending key: [`Plain::fits`] tells the first cause why a
//! change does not fit, and [`Plain::apply`] does one that fits. Their clauses speak of lists of rows; the
//! laws [`lists_are_tables`], [`folds_agree`] and [`misfit_is_none_where_it_fits`] tie these to tables as
//! functions from keys to rows, and a misfit to what it means to fit.
//!
//! [`write_row`] appends the text of a row. [`read_rows`] reads such texts, [`read_recorded`] a recorded
//! file with a header, and each refusal is exact. The clause to believe is the law [`rows_read_back`]: a
//! text reads as rows exactly where it is what they are written as, byte for byte, and each is lawful.
#![tactic(auto)]

mod ascending;
mod change;
mod escaping;
mod field_value;
mod fitting;
mod forming;
mod header;
mod keys;
mod laws;
mod placing;
mod plain;
mod reading;
mod record_reader;
mod record_row;
mod row_error;
mod row_size;
mod row_text;
mod text_record;
mod tuples;

pub use ascending::rows_ascend;
pub use change::{Change, Misfit, PlainError, Role, RowLists, Side, Spot};
pub use forming::well_formed;
pub use keys::{key_of, key_text, text_in};
pub use laws::{
    change_keeps_clean, cut_rows_are_the_next, empty_lists_have_no_rows, folds_agree,
    lists_are_tables, misfit_is_none_where_it_fits, recorded_rows_are_lawful, row_folds_agree,
    row_text_is_not_empty, row_text_reads_back, row_texts_are_no_fronts, row_texts_join,
    rows_read_back, spots_compare, tests_decide_equality,
};
pub use plain::Plain;
pub use reading::{read_recorded, read_rows};
pub use row_error::{RowError, RowWhy};
pub use row_size::{MAX_ROW_TEXT_BYTES, row_text_is_too_long};
pub use row_text::write_row;
pub use tuples::{has_counting_tuple, have_same_tuple};
