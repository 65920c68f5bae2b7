//! Transactions, the bytes that a store keeps of them, and the trait of stores.
//!
//! A [`Txn`] is one step of a store: the one load of all tables, a batch of snapshot rows with its
//! marker, a run of changes of one channel, or an epoch, from which on there is another number of channels.
//! [`write_txn`] appends its payload, and [`read_txn`] gives the transaction whose payload bytes are.
//!
//! The clause to believe is `IsPayload` of `specs/LawfulTxn.antt`: the transaction is lawful for the
//! schema, and the bytes are exactly `payload_of` it (`specs/Payload.antt`). What is read is such a
//! transaction, and where none is read there is no such transaction. The law [`payloads_read_back`] says
//! that bytes are the payload of one transaction at most, so what is written reads back as the same.
//!
//! The trait [`Store`] takes transactions. What they make of it is read off the list of them, its history
//! (`specs/History.antt`); which item is the first that does not fit says `violation_of` (`specs/Items.antt`).
//! The clauses of [`Store::commit`] say what changes at Ok, when each error comes, and what a stop may leave.
#![tactic(auto)]

mod ascending;
mod counts;
mod fields;
mod items;
mod laws;
mod limits;
mod needs;
mod next;
mod reading;
mod rows;
mod size_laws;
mod sizes;
mod store;
mod store_error;
mod txn;
mod unread;
mod writing;

pub use ascending::ascend_above;
pub use counts::Counts;
pub use laws::{payloads_have_readings, payloads_read_back};
pub use limits::{MAX_CHANNELS, MAX_PAYLOAD_BYTES, MAX_TXN_ITEMS};
pub use needs::{MAX_NEEDS, Need, Needs};
pub use next::is_next;
pub use reading::read_txn;
pub use size_laws::payloads_have_sizes;
pub use sizes::payload_bytes;
pub use store::Store;
pub use store_error::StoreError;
pub use txn::Txn;
pub use writing::write_txn;
