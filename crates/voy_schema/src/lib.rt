//! The tables of a move: their columns, keys and values, and the small types that every crate above shares.
//!
//! [`Schema::read`] takes the bytes of `schema.json`, and gives the tables that they state, or the first
//! table that breaks a rule and the first rule that it breaks. Every [`Schema`] has lawful tables: within
//! the limits, under names of their own, with keys that name columns.
//!
//! A value is a text or NULL. [`check_value`] says which texts a column of each [`Kind`] takes, in the
//! form in which PostgreSQL prints that type, and [`is_lawful_row`] whether a row can stand in a table.
//!
//! Contracts see a [`Text`] as its bytes, and an [`Items`] or a [`Tuple`] as the list of its items, so that
//! two values are equal exactly where they hold the same. Tuples are what maps find rows by, as a [`Key`]: most
//! comparisons of two are decided by their abbreviated keys ([`Abbreviate`]).
#![tactic(auto)]

mod abbreviating;
mod building;
mod copying;
mod items;
mod json;
mod kinds;
mod limits;
mod names;
mod numbers;
mod ordering;
mod reading;
mod rows;
mod rules;
mod schema;
mod stated;
mod table;
mod text;
mod tuple;
mod value;
mod why;

pub use abbreviating::Abbreviate;
pub use copying::Copies;
pub use items::Items;
pub use kinds::check_value;
pub use limits::{MAX_COLUMNS, MAX_NAME_BYTES, MAX_TABLES, MAX_UNIQUE_KEYS};
pub use rows::{has_no_null, has_whole_key, is_lawful_row, is_lawful_value};
pub use schema::Schema;
pub use table::{Column, Columns, Kind, Places, Table, Tables, UniqueKey, UniqueKeys};
pub use text::Text;
pub use tuple::Tuple;
pub use value::{Bytes, Key, Row, Rows, Value};
pub use why::{SchemaError, SchemaWhy};
