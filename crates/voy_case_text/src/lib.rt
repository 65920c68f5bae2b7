//! How the programs of cases read what they are asked, and how they answer.
//!
//! A program of cases reads paragraphs from its standard input. A case is a line `KIND NAME WORDS..` and the rows
//! below it; its answer is one line, `NAME: ANSWER`. Here stand paragraphs, the pieces of bytes that rows make, texts as
//! they are shown, and the names and plans of disks.
#![tactic(auto)]

mod case;
mod disks;
mod pieces;
mod showing;
mod trouble;

pub use case::{Case, base_of, first_line, first_word, number_of};
pub use disks::{error_text, name_of, numbers_of, planned};
pub use pieces::{hex_bytes, pieces_of, push_piece, sign_of};
pub use showing::{hexadecimal, quoted, quoted_bytes, told};
pub use trouble::{Trouble, line_of};
