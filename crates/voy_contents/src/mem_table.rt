ghost use Rattle.std.specs.Prelude.{◌≡◌, ◌^◌, ◌<◌, [], None, Some, true, IfErr, IfOk, OnOk, length, slice_get};
ghost use Rattle.std.specs.Option.{option_copied};
ghost use Rattle.voy_contents.specs.MemTables.{AllMove, IsFirstTaken, IsMemTable, IsRowSet, Lists, Moves, SweepsRows, TupleSlots, are_listed, is_in_place, is_taken_by, row_at, rows_of};
ghost use Rattle.voy_contents.specs.Places.{index_places};
ghost use Rattle.voy_contents.specs.Refusals.{IsRefused};
ghost use Rattle.voy_contents.specs.Traces.{GoesBack, table_back};
ghost use Rattle.voy_schema.specs.Rows.{counting_tuple};
ghost use Rattle.voy_schema.specs.declared.table.Table.{Table};
ghost use Rattle.voy_tables.specs.Lists.{misfit_by, row_with_key, rows_after, unique_misfit};
ghost use Rattle.voy_txn.specs.History.{counted};

use crate::indexes::{Index, is_taken, put_tuple, sweep_tuple};
use crate::places::Places;
use crate::row_places::{RowPlaces, copied, misfit_beside, push_row, put_row, standing};
use crate::traces::{Place, Trace};
use crate::tuples::{keeps_tuple, tuple_of};
use std::alloc::{AllocError, Global};
use voy_schema::{Items, Key, Row, Rows, Table, Tuple, UniqueKey, Value};
use voy_tables::{Misfit, PlainError};

/// The rows of one table by key, and for each of its unique keys an index of the tuples that count.
#[derive(Drop)]
pub(crate) struct MemTable {
    pub(crate) rows: RowPlaces,
    pub(crate) indexes: Items<Index>,
}

/// For each table of a schema, its rows and indexes.
pub(crate) type MemTables = Items<MemTable>;

impl MemTable {
    /// A table with no rows.
    pub(crate) fn new(alloc: Global, table: &Table) -> Result<MemTable, AllocError>
        ensures stands { IfOk result (λ made. IsMemTable table.now made.rows made.indexes) }
        ensures empty { IfOk result (λ made. made.rows ≡ []) }
    {
        let mut indexes = Items::new(alloc);
        for _unique in table.unique_keys.as_slice() {
            indexes.push(Places::new(alloc))?;
        }
        Ok(MemTable {
            rows: Places::new(alloc),
            indexes,
        })
    }

    /// The row of this key.
    pub(crate) fn row(&self, key: &Key) -> Option<&Row>
        ensures { (t : Table) → IsMemTable t self.now.rows self.now.indexes → option_copied result ≡ row_with_key t key.now (rows_of self.now.rows) }
    {
        self.standing(key)
    }

    fn standing(&self, key: &Key) -> Option<&Row>
        ensures { option_copied result ≡ row_at key.now self.now.rows }
    {
        match self.rows.get(key) {
            Some(Some(row)) => Some(row),
            _ => None,
        }
    }

    /// A copy of the rows, by ascending key.
    pub(crate) fn copied_rows(&self, alloc: Global) -> Result<Rows, AllocError>
        ensures { IfOk result (λ rows. rows ≡ rows_of self.now.rows) }
    {
        let mut rows = Items::new(alloc);
        for row in self.rows.values() {
            push_row(&mut rows, row)?;
        }
        Ok(rows)
    }

    /// How many rows there are.
    pub(crate) fn count(&self) -> u64
        ensures { result ≡ counted (length (rows_of self.now.rows)) }
    {
        let mut count: u64 = 0;
        for row in self.rows.values() {
            if row.is_some() {
                count = count.saturating_add(1);
            }
        }
        count
    }

    /// How many places the unique key at this place of the table has for tuples; 0 where there is no such key.
    pub(crate) fn tuple_places(&self, key: u32) -> usize
        ensures { result ≡ index_places (slice_get self.now.indexes key) }
    {
        match self.indexes.get(key as usize) {
            Some(index) => index.count(),
            None => 0,
        }
    }

    /// Why a change of the row at this key does not fit the table `of`; nothing where it fits.
    pub(crate) fn misfit(
        &self,
        alloc: Global,
        of: &Table,
        key: &Key,
        before: Option<&Row>,
        after: Option<&Row>,
    ) -> Result<Option<Misfit>, AllocError>
        requires stands { IsMemTable of.now self.now.rows self.now.indexes }
        requires few { length of.now.unique_keys < 2 ^ 32 }
        ensures { IfOk result (λ found. found ≡ misfit_by (option_copied before.entry) (row_with_key of.now key.now (rows_of self.now.rows)) (unique_misfit of.now key.now (option_copied after.entry) (rows_of self.now.rows))) }
    {
        let misfit = misfit_beside(before, self.standing(key));
        if misfit.is_some() {
            return Ok(misfit);
        }
        self.taken_tuple(alloc, of.unique_keys.as_slice(), before, after)
    }

    /// The first unique key whose tuple of the row after a change another row has.
    fn taken_tuple(
        &self,
        alloc: Global,
        unique_keys: &[UniqueKey],
        before: Option<&Row>,
        after: Option<&Row>,
    ) -> Result<Option<Misfit>, AllocError>
        requires as_many { length self.now.indexes ≡ length unique_keys.now }
        requires few { length unique_keys.now < 2 ^ 32 }
        ensures { IfOk result (IsFirstTaken unique_keys.now (option_copied before.entry) (option_copied after.entry) self.now.indexes) }
    {
        for at in 0..unique_keys.len() {
            if is_taken(
                alloc,
                &self.indexes.as_slice()[at],
                &unique_keys[at],
                before,
                after,
            )? {
                return Ok(Some(Misfit::Unique { key: at as u32 }));
            }
        }
        Ok(None)
    }

    /// Does a change of the row at this key, and puts its traces behind the others; or it answers why it does not
    /// fit the table `of`. Whatever it answers, the traces lead back to what stood before.
    pub(crate) fn change(
        &mut self,
        alloc: Global,
        table: u32,
        of: &Table,
        key: Key,
        before: Option<&Row>,
        after: Option<&Row>,
        traces: &mut Vec<Trace>,
    ) -> Result<(), PlainError>
        requires stands { IsMemTable of.now self.old.rows self.old.indexes }
        requires in_place { is_in_place of.now key (option_copied after) ≡ true }
        requires few { length of.now.unique_keys < 2 ^ 32 }
        ensures back { GoesBack table self.old self.new traces.old.items traces.new.items }
        ensures fits { OnOk result (misfit_by (option_copied before.entry) (row_with_key of.now key (rows_of self.old.rows)) (unique_misfit of.now key (option_copied after.entry) (rows_of self.old.rows)) ≡ None) }
        ensures refused { IfErr result (IsRefused (misfit_by (option_copied before.entry) (row_with_key of.now key (rows_of self.old.rows)) (unique_misfit of.now key (option_copied after.entry) (rows_of self.old.rows)))) }
        ensures stands { OnOk result (IsMemTable of.now self.new.rows self.new.indexes) }
        ensures rows { OnOk result (rows_of self.new.rows ≡ rows_after of.now key (option_copied after.entry) (rows_of self.old.rows)) }
    {
        if let Some(misfit) = self.set_row(table, key, before, after, traces)? {
            return Err(PlainError::Misfit(misfit));
        }
        let unique_keys = of.unique_keys.as_slice();
        match self.move_tuples(alloc, table, unique_keys, before, after, traces)? {
            Some(misfit) => Err(PlainError::Misfit(misfit)),
            None => Ok(()),
        }
    }

    /// Sets the row after a change at its key. It answers why the row that stood there is not the one before.
    fn set_row(
        &mut self,
        table: u32,
        key: Key,
        before: Option<&Row>,
        after: Option<&Row>,
        traces: &mut Vec<Trace>,
    ) -> Result<Option<Misfit>, AllocError>
        ensures back { GoesBack table self.old self.new traces.old.items traces.new.items }
        ensures indexes { self.new.indexes ≡ self.old.indexes }
        ensures misfit { IfOk result (λ found. found ≡ misfit_by (option_copied before.entry) (row_at key self.old.rows) None) }
        ensures set { IfOk result (λ found. found ≡ None → IsRowSet key (option_copied after.entry) self.old.rows self.new.rows) }
    {
        let row = copied(after)?;
        let emptied = row.is_none();
        traces.reserve(1)?;
        let held = put_row(&mut self.rows, &key, before, row)?;
        let misfit = misfit_beside(before, standing(&held));
        let place = Place::Row { key, held, emptied };
        traces.push_reserved(Trace { table, place });
        Ok(misfit)
    }

    /// In each index, lists the tuple of the row before a change no longer, and that of the row after it. It answers
    /// the first unique key whose tuple another row has, and stops there.
    fn move_tuples(
        &mut self,
        alloc: Global,
        table: u32,
        unique_keys: &[UniqueKey],
        before: Option<&Row>,
        after: Option<&Row>,
        traces: &mut Vec<Trace>,
    ) -> Result<Option<Misfit>, AllocError>
        requires as_many { length self.old.indexes ≡ length unique_keys.now }
        requires few { length unique_keys.now < 2 ^ 32 }
        ensures back { GoesBack table self.old self.new traces.old.items traces.new.items }
        ensures rows { self.new.rows ≡ self.old.rows }
        ensures misfit { IfOk result (IsFirstTaken unique_keys.now (option_copied before.entry) (option_copied after.entry) self.old.indexes) }
        ensures moved { IfOk result (λ found. found ≡ None → AllMove unique_keys.now (option_copied before.entry) (option_copied after.entry) (length unique_keys.now) self.old.indexes self.new.indexes) }
    {
        for at in 0..unique_keys.len() {
            let place = at as u32;
            if self.move_tuple(alloc, table, place, &unique_keys[at], before, after, traces)? {
                return Ok(Some(Misfit::Unique { key: place }));
            }
        }
        Ok(None)
    }

    /// The same in the index of one unique key. Whether another row has the tuple.
    fn move_tuple(
        &mut self,
        alloc: Global,
        table: u32,
        at: u32,
        unique: &UniqueKey,
        before: Option<&Row>,
        after: Option<&Row>,
        traces: &mut Vec<Trace>,
    ) -> Result<bool, AllocError>
        requires { at < length self.old.indexes }
        ensures back { GoesBack table self.old self.new traces.old.items traces.new.items }
        ensures rows { self.new.rows ≡ self.old.rows }
        ensures as_many { length self.new.indexes ≡ length self.old.indexes }
        ensures taken { IfOk result (λ taken. (index : TupleSlots) → slice_get self.old.indexes at ≡ Some index → is_taken_by (counting_tuple unique.now (option_copied before.entry)) (counting_tuple unique.now (option_copied after.entry)) index ≡ taken) }
        ensures moves { OnOk result (Moves at (counting_tuple unique.now (option_copied before.entry)) (counting_tuple unique.now (option_copied after.entry)) self.old.indexes self.new.indexes) }
    {
        if keeps_tuple(unique, before, after) {
            return Ok(false);
        }
        let to = tuple_of(alloc, unique, after)?;
        let taken = self.list(table, at, to, true, traces)?;
        let from = tuple_of(alloc, unique, before)?;
        let _listed = self.list(table, at, from, false, traces)?;
        Ok(taken)
    }

    /// Lists the tuple, if there is one, in the index of this unique key, or lists it no longer. Whether it was listed.
    fn list(
        &mut self,
        table: u32,
        unique: u32,
        tuple: Option<Tuple<Value>>,
        listed: bool,
        traces: &mut Vec<Trace>,
    ) -> Result<bool, AllocError>
        requires { unique < length self.old.indexes }
        ensures back { GoesBack table self.old self.new traces.old.items traces.new.items }
        ensures rows { self.new.rows ≡ self.old.rows }
        ensures as_many { length self.new.indexes ≡ length self.old.indexes }
        ensures was { IfOk result (λ was. (index : TupleSlots) → slice_get self.old.indexes unique ≡ Some index → are_listed tuple index ≡ was) }
        ensures lists { OnOk result (Lists unique tuple listed self.old.indexes self.new.indexes) }
    {
        match tuple {
            None => Ok(false),
            Some(tuple) => {
                traces.reserve(1)?;
                let held = put_tuple(self.indexes.item_mut(unique as usize), &tuple, listed)?;
                let was = held.unwrap_or(false);
                let place = Place::Tuple {
                    unique,
                    tuple,
                    held,
                    emptied: !listed,
                };
                traces.push_reserved(Trace { table, place });
                Ok(was)
            }
        }
    }

    /// Sets a place back to what it held. It takes no memory.
    pub(crate) fn set_back(&mut self, place: Place)
        ensures { self.new ≡ table_back place self.old }
    {
        match place {
            Place::Row { key, held, .. } => self.rows.set_back(&key, held),
            Place::Tuple {
                unique,
                tuple,
                held,
                ..
            } => {
                let at = unique as usize;
                if at < self.indexes.len() {
                    self.indexes.item_mut(at).set_back(&tuple, held);
                }
            }
        }
    }

    /// Takes the place away where it was emptied and holds nothing still. The rows stay as they are. It takes no
    /// memory.
    pub(crate) fn sweep(&mut self, place: &Place)
        ensures { SweepsRows self.old.rows self.old.indexes self.new.rows self.new.indexes }
    {
        match place {
            Place::Row { key, emptied, .. } => {
                if *emptied {
                    self.sweep_row(key);
                }
            }
            Place::Tuple {
                unique,
                tuple,
                emptied,
                ..
            } => {
                if *emptied {
                    self.sweep_tuple(*unique, tuple);
                }
            }
        }
    }

    fn sweep_row(&mut self, key: &Key)
        ensures { SweepsRows self.old.rows self.old.indexes self.new.rows self.new.indexes }
    {
        if self.standing(key).is_none() {
            self.rows.take_away(key);
        }
    }

    fn sweep_tuple(&mut self, unique: u32, tuple: &Tuple<Value>)
        ensures { SweepsRows self.old.rows self.old.indexes self.new.rows self.new.indexes }
    {
        let at = unique as usize;
        if at < self.indexes.len() {
            sweep_tuple(self.indexes.item_mut(at), tuple);
        }
    }
}
