//! JSON documents and lines as `serde_json` reads them, and tests of an object's names.
//!
//! [`parse`] takes bytes: what is no UTF-8 is no JSON. Of a name that an object gives twice the last
//! counts, and names may come in any order, as `serde_json`'s own `Value` has it. The readers of the
//! schema and of event lines test an object's names by [`has_all`] and [`has_only`], and find a string by
//! [`text_at`].
#![tactic(auto)]

mod document;
mod names;

pub use document::{ParseError, parse};
pub use names::{has_all, has_only, text_at};
