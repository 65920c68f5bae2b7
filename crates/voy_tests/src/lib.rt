//! The tests that are code, over the public calls of the libraries.
//!
//! A case that is data (what is given, and what is wanted of it) stands in the program `voy_cases`. Here stand
//! the tests which can not be data: a disk, a host and a sink of their own, folders of the real machine, what
//! an outage leaves at each call of a disk or a journal, and laws called once; those of stores are in `voy_store_tests`. They stand in
//! crates of their own since a library with a test is proved twice.
//!
//! Tests that call disks write the calls as lines of text with their answers (`disk_calls`); the lines are
//! compared once, as a whole. That is also what makes them cheap to prove: an assertion behind each call
//! would carry all that is known of the disk.
#![tactic(auto)]

#[cfg(test)]
mod arenas;
#[cfg(test)]
mod disk_calls;
#[cfg(test)]
mod flaky_host;
#[cfg(test)]
mod journals;
#[cfg(test)]
mod laws;
#[cfg(test)]
mod memory_disks;
#[cfg(test)]
mod names_of_objects;
#[cfg(test)]
mod outages_of_disks;
#[cfg(test)]
mod real_folders;
#[cfg(test)]
mod schemas;
#[cfg(test)]
mod sinks;
