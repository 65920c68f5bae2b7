//! The cache that knows which pending events release which tuples, so that the needs of an event are found without a
//! look at all others.
//!
//! A [`Cache`] keeps an [`Entry`] for each tuple that a pending event releases. [`Cache::put`] adds those of one event,
//! [`Cache::needs`] tells what an event waits for, and [`Cache::applied`] drops a channel's entries up to a vsn.
//!
//! The clause to believe is that of [`Cache::needs`]: its answer is `needs_of` (of `voy_order`) over the plain list of the
//! events that were put and not dropped. That a cache keeps just these events says `Caches` (`specs/Cache.antt`), which
//! callers carry from call to call.
//!
//! Inside, the entries are nodes of a `voy_link::Arena`. The bucket is by a hash of table, unique key and tuple, and the
//! lane is the channel; tuples are compared whole, so that two in one bucket do no harm.
#![tactic(auto)]

mod applied;
mod cache;
mod entry;
mod events;
mod filing;
mod laws;
mod needs;
mod putting;

pub use cache::Cache;
pub use entry::Entry;
pub use laws::{
    caches_are_few, emptied_serve_anew, entries_are_few, events_may_grow, left_are_others,
    next_is_listed,
};
