//! The tests that are code of a move's metadata, queue and exports, over the public calls of the libraries.
//!
//! A case that is data (what is given, and what is wanted of it) stands in the program `voy_move_cases`. Here stand the
//! tests which can not be data: what an outage or a fault leaves at each call of a disk, many segments, and laws called
//! once. They stand in a crate of their own since a library with a test is proved twice.
#![tactic(auto)]

#[cfg(test)]
mod export_limits;
#[cfg(test)]
mod exports;
#[cfg(test)]
mod laws;
#[cfg(test)]
mod metadata;
#[cfg(test)]
mod outages;
#[cfg(test)]
mod queue_writer;
