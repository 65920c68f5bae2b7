//! The tests of stores that are code, over the public calls of the libraries.
//!
//! Random streams of transactions, with an outage at each call of a disk, over a store and over plain tables: what no
//! case of `voy_cases` can say, since it is no list of things given and wanted.
#![tactic(auto)]

#[cfg(test)]
mod contents;
#[cfg(test)]
mod epochs;
#[cfg(test)]
mod laws;
#[cfg(test)]
mod made;
#[cfg(test)]
mod plain_tables;
#[cfg(test)]
mod store_texts;
#[cfg(test)]
mod stores;
