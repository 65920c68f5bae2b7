//! A journal: a file of payloads, one behind the other, of which a stop loses none that was acknowledged.
//!
//! In front of each payload stand a gate byte, which is 1 for an open gate, and the payload's length. Any
//! other gate byte closes the journal, and what stands behind it means nothing (`specs/Grammar.antt`). An
//! append writes the payload and a closed gate behind the closed one and syncs; then it opens the gate, one
//! byte, and syncs again. So at each moment a stop leaves the payloads of before, or these and the new one.
//!
//! [`Journal::open`] makes the file safe, reads it in pieces and gives its payloads. [`Journal::append`] puts
//! one more behind them. Both speak of the images of the disk, which are what a stop may leave:
//!
//! - `images` of `open`: whatever it answers, each image after has the payloads of an image before.
//! - `prefix` and `all` of `append`: each image after has, beside those of an image before, none or the new
//!   one, whatever the answer, and the new one after Ok.
//!
//! `StandsOn` is what a journal asks of the disk that it is lent, and callers carry it along; `HasJournal`
//! says that the journal of a name has these payloads in every image. After a fault a journal is not live:
//! open it again.
#![tactic(auto)]

mod appending;
mod error;
mod laws;
mod limits;
mod opened;
mod opening;
mod payloads;
mod reading;
mod state;
mod storing;

pub use error::JournalError;
pub use laws::one_reading;
pub use limits::{HEAD_BYTES, MAX_PAYLOAD_BYTES};
pub use opened::Opened;
pub use payloads::Payloads;
pub use state::Journal;
