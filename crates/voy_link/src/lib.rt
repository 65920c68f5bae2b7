//! An arena whose nodes stand in two lists at once, that of their bucket and that of their lane.
//!
//! A cache keeps its entries here: it looks for the latest of a bucket by `last_in_bucket` and `prev_in_bucket`,
//! and takes out the oldest of a lane by `first_in_lane` and `remove`. Room is made beforehand, by
//! `with_capacity` and `reserve`, so no other call takes memory or can fail.
//!
//! To contracts an `Arena` is the list of its nodes in order of insertion, each with its id, bucket, lane and
//! item, beside the numbers `spare`, `buckets` and `lanes` (`specs/Arena.antt`). `insert` and `remove` say the
//! whole list that stands afterwards, and the look-ups their exact answer. The five calls that a walk over the
//! lists is made of each raise the counter that they are handed by one: `Steps`, which takes no bytes.
//!
//! Inside, the nodes are slots in a vector, and three `Chains` link them by index: by bucket, by lane, and all
//! nodes in order of insertion.
#![tactic(auto)]

mod arena;
mod chains;
mod indices;
mod nodes;
mod slots;
mod steps;
mod widening;

pub use arena::{Arena, MAX_NODES};
pub use steps::Steps;
