//! What a store knows, in memory: its rows, and the marks of what it took.
//!
//! [`Tables`] are the rows of each table of a schema by key, with an index of the counting tuples of each unique key
//! (`Agrees` of `specs/MemTables.antt`: it says of a tuple what a scan of the rows would say). A change takes the
//! logarithm of its table, and [`Tables::apply`] folds one (`ok`, `refused`). What they hold is `lists_in` of
//! `specs/Tables.antt`, and they are clean at each moment: `tables_are_clean` of `specs/TableLaws.antt`.
//!
//! [`MemContents`] is what a store that takes transactions keeps of them: such tables, and marks. What it says of them
//! is `known` of `specs/Known.antt`. A store takes a transaction in three steps, so that what it keeps on a disk goes
//! between them:
//!
//! 1. [`MemContents::do_items`] does the items in the tables, all of them or none. Its clause `done` says what
//!    is known then, and `reason` why a transaction was refused; after an error nothing changed (`kept`).
//! 2. [`MemContents::note`] raises the marks (`noted`). Together both are `contents_after` of `voy_txn`. Or
//!    [`MemContents::undo`] gives back exactly what was known (`back`).
//! 3. [`MemContents::sweep`] takes away places that hold nothing any more.
//!
//! Only the first takes memory. Each place that a change sets, of a row or of a tuple, leaves a trace (`traces.rt`) of
//! what it held, so that it can be set back without memory: `all_back` of `specs/Traces.antt`. A change that turns out
//! not to fit is set back in the same way.
//!
//! Where to look: `places.rt`, `row_places.rt` and `indexes.rt` have the maps, `mem_table.rt` one table and `tuples.rt`
//! the tuples of its rows; `changes.rt` and `items.rt` do one change and the items of a transaction, `traces.rt` and
//! `way_back.rt` lead back; `vsns.rt`, `table_marks.rt` and `marks.rt` have the marks.
#![tactic(auto)]

mod changes;
mod contents;
mod indexes;
mod items;
mod marks;
mod mem_table;
mod places;
mod row_places;
mod table_marks;
mod tables;
mod traces;
mod tuples;
mod vsns;
mod way_back;

pub use contents::MemContents;
pub use tables::Tables;
pub use way_back::Done;
