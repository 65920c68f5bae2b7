//! Files of any disk, read whole, line by line or byte by byte.
//!
//! [`read_file`] reads a small file whole. A [`ByteReader`] goes through a file of any size in pieces of
//! 65,536 bytes, and gives bytes and numbers. Its clauses `taken` say that they stand in front of what is
//! left, where the disk tells its files. A [`LineReader`] goes through a file the same way and holds one
//! line at a time, of at most the number of bytes that it was opened with. Both also go from any offset up to any
//! other (`between`), and tell the offset at which they stand, so that a reader can be made anew there.
//! Its clause `found` says that what it gives are the lines of the file, one after the other, where the
//! disk tells its files. Its clause `shrinks` says that each line leaves fewer bytes, on any disk: a loop
//! over the lines has `bytes_left` as its measure.
#![tactic(auto)]

mod byte_reader;
mod limits;
mod line_reader;
mod piece;
mod whole;

pub use limits::PIECE_BYTES;
pub use line_reader::{Found, LineReader};
pub use piece::ByteReader;
pub use whole::read_file;
