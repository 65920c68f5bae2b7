ghost use Rattle.std.specs.Prelude.{◌≡◌, true};
ghost use Rattle.voy_tables.specs.Standing.{are_tables};

use crate::change::{Change, Misfit, PlainError, RowLists};
use crate::fitting::find_misfit;
use crate::placing::{put_row, take_out_row};
use std::alloc::{AllocError, Global};
use voy_schema::{Copies, Items, Row, Rows, Schema};

/// The tables of a schema as plain lists of rows, by ascending key. Each call goes through all rows of
/// the table: it is made to be plain, not fast.
///
/// What `stands` says holds at each moment: a list for each table, with lawful rows by strictly
/// ascending key.
#[derive(Debug, Drop)]
pub struct Plain {
    pub schema: Schema,
    pub lists: RowLists,
    pub ghost stands: { are_tables schema.tables lists ≡ true },
}

impl Plain {
    ghost use Rattle.std.specs.Prelude.{None, Some, slice_get, IfErr, IfOk, OnErr, OnOk};
    ghost use Rattle.voy_tables.specs.Changes.{is_row_of, is_well_formed, row_change};
    ghost use Rattle.voy_tables.specs.Lists.{IsRefusal, empty_lists, lists_after, misfit_of, rows_in};

    /// The tables of `schema` with no rows.
    pub fn new(alloc: Global, schema: Schema) -> Result<Plain, AllocError>
        ensures schema { IfOk result (λ plain. plain.schema ≡ schema) }
        ensures empty { IfOk result (λ plain. plain.lists ≡ empty_lists schema.tables) }
    {
        let mut lists = Items::new(alloc);
        for _table in schema.tables.as_slice() {
            lists.push(Rows::new(alloc))?;
        }
        Ok(Plain { schema, lists })
    }

    pub fn schema(&self) -> &Schema
        ensures { result.now ≡ self.now.schema }
    {
        &self.schema
    }

    /// The rows of the table at this place of the schema, by ascending key; none where there is no such table.
    pub fn table_rows(&self, table: u32) -> &[Row]
        ensures { result.now ≡ rows_in (slice_get self.now.lists table) }
    {
        match self.lists.get(table as usize) {
            Some(rows) => rows.as_slice(),
            None => &[],
        }
    }

    /// A copy of the rows of the table at this place of the schema, by ascending key.
    pub fn rows(&self, table: u32) -> Result<Rows, AllocError>
        ensures { IfOk result (λ rows. rows ≡ rows_in (slice_get self.now.lists table)) }
    {
        match self.lists.get(table as usize) {
            Some(rows) => rows.copy(),
            None => Ok(Rows::new(self.lists.allocator())),
        }
    }

    /// Whether the change fits the tables, and else the first cause why it does not: an insert's key is
    /// there already; the key of an update or delete is not there; the row there is another one; another
    /// row has the new row's counting tuple of the least such unique key. It takes no memory.
    pub fn fits(&self, change: &Change) -> Result<(), Misfit>
        ensures ok { OnOk result (misfit_of self.now.schema.tables (row_change self.now.schema.tables change.now) self.now.lists ≡ None) }
        ensures err { IfErr result (λ misfit. misfit_of self.now.schema.tables (row_change self.now.schema.tables change.now) self.now.lists ≡ Some misfit) }
    {
        match self.misfit(change) {
            Some(misfit) => Err(misfit),
            None => Ok(()),
        }
    }

    fn misfit(&self, change: &Change) -> Option<Misfit>
        ensures { result ≡ misfit_of self.now.schema.tables (row_change self.now.schema.tables change.now) self.now.lists }
    {
        match self.schema.table(change.table() as usize) {
            Some(table) => find_misfit(table, change, self.table_rows(change.table())),
            None => None,
        }
    }

    /// Does the change where it fits. It takes the change, so that no row is copied.
    ///
    /// The misfit is that of [`Plain::fits`]. After an error the tables are as before.
    pub fn apply(&mut self, change: Change) -> Result<(), PlainError>
        requires { is_well_formed self.old.schema.tables change ≡ true }
        ensures fits { OnOk result (misfit_of self.old.schema.tables (row_change self.old.schema.tables change) self.old.lists ≡ None) }
        ensures ok { OnOk result (self.new.lists ≡ lists_after self.old.schema.tables (row_change self.old.schema.tables change) self.old.lists) }
        ensures refused { IfErr result (IsRefusal (misfit_of self.old.schema.tables (row_change self.old.schema.tables change) self.old.lists)) }
        ensures err { OnErr result (self.new.lists ≡ self.old.lists) }
        ensures schema { self.new.schema ≡ self.old.schema }
    {
        if let Err(misfit) = self.fits(&change) {
            return Err(PlainError::Misfit(misfit));
        }
        match change {
            Change::Insert { table, after } => self.put(table, after)?,
            Change::Update {
                table,
                before: _before,
                after,
            } => self.put(table, after)?,
            Change::Delete { table, before } => self.take_out(table, &before),
        }
        Ok(())
    }

    /// Puts a row at the place of its key, in place of a row of the same key.
    fn put(&mut self, table: u32, row: Row) -> Result<(), AllocError>
        requires { is_row_of (slice_get self.old.schema.tables table) row ≡ true }
        ensures ok { OnOk result (self.new.lists ≡ lists_after self.old.schema.tables (row_change self.old.schema.tables (Change.Insert table row)) self.old.lists) }
        ensures err { OnErr result (self.new.lists ≡ self.old.lists) }
        ensures schema { self.new.schema ≡ self.old.schema }
    {
        let at = table as usize;
        if let Some(table) = self.schema.table(at) {
            put_row(table, row, self.lists.item_mut(at))?;
        }
        Ok(())
    }

    /// Takes out the row with the key of `like`.
    fn take_out(&mut self, table: u32, like: &Row)
        ensures lists { self.new.lists ≡ lists_after self.old.schema.tables (row_change self.old.schema.tables (Change.Delete table like.now)) self.old.lists }
        ensures schema { self.new.schema ≡ self.old.schema }
    {
        let at = table as usize;
        if let Some(table) = self.schema.table(at) {
            take_out_row(table, like, self.lists.item_mut(at));
        }
    }
}
