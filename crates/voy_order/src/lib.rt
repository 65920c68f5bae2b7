//! Which changes may pass one another, and the laws by which stores commit them in many orders.
//!
//! A change goes by a channel ([`channel`]), so all changes of one row stay in order. Between channels only
//! one thing ties changes: a unique key. [`released`] and [`acquired`] tell what a change gives up and takes
//! of one, and [`holds`] whether a second change has to wait for a first. That suffices is what the laws say.
//!
//! The two laws to believe first are [`one_step`]: at a closed mark of a valid part of the queue the next
//! change of a channel fits the tables, where all that hold it back are applied; and [`last_releaser`]: it is
//! enough to look at the last change that releases a tuple. From these come the laws of runs, of windows and
//! of workers, and [`any_order`]: whatever the order of commits, the tables end as the plain fold.
//!
//! Good histories (`IsGood` of `specs/Histories.antt`) are what every store of a move has done. The laws say
//! which transactions keep a history good ([`events_keep_good`] and those beside it), that all stands behind
//! every first part of one ([`every_prefix_stands`]), and where it ends ([`applied_parts_are_folded`]).
#![tactic(auto)]

mod channels;
mod conflict;
mod fnv;
mod histories;
mod laws;
mod runs;

pub use channels::channel;
pub use conflict::{acquired, holds, released};
pub use fnv::{FNV1A_START, fnv1a};
pub use histories::{
    applied_parts_are_folded, batches_keep_good, counts_may_be_set, epochs_keep_good,
    events_keep_good, events_raise_marks, every_prefix_stands, files_may_be_made,
    lists_are_standing, queues_may_grow, taken_items_fit,
};
pub use laws::{
    any_order, closed_marks_are_clean, epochs_change_nothing, holding_back_is_decided, items_fit,
    last_releaser, one_step, reached_needs_suffice, worker_commits,
};
pub use runs::{
    commits_take_items, drains_end, ready_by_needs, ready_channels_run, runs_are_by_needs,
    runs_are_longest, runs_may_commit, some_channel_is_ready, windows_stay,
};
