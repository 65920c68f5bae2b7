//! Bytes that are written behind those that a file has, and made safe.
//!
//! A file that grows has committed bytes, all safe, and their number stands elsewhere. [`append_bytes`] writes behind them: once it answers
//! Ok the file has just the committed bytes and the new ones, all safe (`written`), and whatever it answers a stop leaves the
//! committed ones (`keeps`) and every other file. Behind 0 bytes it makes the file, or makes it anew: by the law [`whole_file_is_safe`] the
//! new bytes are then the whole file.
#![tactic(auto)]

mod appending;
mod laws;
mod limits;

pub use appending::append_bytes;
pub use laws::whole_file_is_safe;
