//! Stores: what takes transactions, each whole or not at all, and keeps the tables that they make.
//!
//! A [`LogStore`] is tables in memory (`voy_contents`) over a [`Log`], which keeps the transactions one
//! behind the other. There are two logs, and so two stores:
//!
//! - [`MemStore`] keeps its transactions in memory. It is what tests and rehearsals move into.
//! - [`JournalStore`] keeps each transaction as one payload of the journal `store.journal` of a disk.
//!   [`JournalStore::open`](LogStore::open) reads what stands there, and makes the file where there is none.
//!
//! A commit does the items in the tables, lets the log take the transaction, and then raises the mark, or
//! puts down the batch or the load; where the log does not take it, the items are done back. So a
//! transaction that does not fit is never written, and one that was written is never half done in memory.
//!
//! The clauses to believe are those of the trait `Store` of `voy_txn`, which every `LogStore` meets, and of the
//! opening: `stored` says that the history is that of all payloads which the journal has at entry (`IsStored`
//! of `specs/Stored.antt`), `damaged` that a refusal names the first gate that is bad, and `images` that
//! whatever it answers, a stop leaves the payloads that it would have left before.
#![tactic(auto)]

mod journal_log;
mod journal_store;
mod laws;
mod log;
mod log_error;
mod log_store;
mod mem_log;
mod open_error;
mod opening;
mod storing;
mod taking;

pub use journal_log::JournalLog;
pub use journal_store::JournalStore;
pub use laws::taken_histories_open;
pub use log::Log;
pub use log_error::LogError;
pub use log_store::LogStore;
pub use mem_log::{MemLog, MemStore};
pub use open_error::{NotOpened, OpenError};
