ghost use Rattle.std.specs.Prelude.{◌≡◌, ◌<◌, ℕ, [], List, true, length, slice_get, IfOk, OnOk};
ghost use Rattle.std.specs.List.{cons_option, filter_map};
ghost use Rattle.voy_schema.specs.declared.value.Value.{Value};
ghost use Rattle.voy_contents.specs.Known.{with_marks};
ghost use Rattle.voy_contents.specs.Marks.{AddsChanges, HasMarkRoom, batch_rows_in, changes_in, says};
ghost use Rattle.voy_txn.specs.TableNames.{IsInChannels, NamesTables, are_below};
ghost use Rattle.voy_contents.specs.Vsns.{vsns_in};
ghost use Rattle.voy_event.specs.declared.event.Event.{Event};
ghost use Rattle.voy_tables.specs.Lists.{empty_lists};
ghost use Rattle.voy_txn.specs.Commits.{is_next};
ghost use Rattle.voy_txn.specs.Contents.{contents_of};
ghost use Rattle.voy_txn.specs.History.{vsns_after};
ghost use Rattle.voy_txn.specs.LawfulTxn.{max_channels};
ghost use Rattle.voy_event.specs.Events.{change_in};
ghost use Rattle.voy_txn.specs.declared.txn.Txn.{Txn};

use crate::table_marks::TableMarks;
use crate::vsns::Vsns;
use std::alloc::{AllocError, Global};
use voy_event::{Event, What};
use voy_schema::{Items, Schema};
use voy_txn::{MAX_CHANNELS, Txn, ascend_above};

/// What a store knows beside its rows: for each channel its vsn, what the last epoch said, whether the load is there,
/// and for each table its batches and what they and its changes came to.
#[derive(Drop)]
pub(crate) struct Marks {
    pub(crate) vsns: Vsns,
    /// How many channels the last epoch said.
    pub(crate) channels: Option<u32>,
    pub(crate) loaded: bool,
    pub(crate) tables: Items<TableMarks>,
}

impl Marks {
    /// The marks of a store with no transactions.
    pub(crate) fn new(alloc: Global, schema: &Schema) -> Result<Marks, AllocError>
        ensures sized { IfOk result (λ marks. length marks.tables ≡ length schema.now.tables) }
        ensures empty { IfOk result (λ marks. says (empty_lists schema.now.tables) marks ≡ contents_of schema.now.tables []) }
    {
        let vsns = Vsns::new(alloc)?;
        let mut tables = Items::new(alloc);
        for _table in schema.tables.as_slice() {
            tables.push(TableMarks::new(alloc))?;
        }
        Ok(Marks {
            vsns,
            channels: None,
            loaded: false,
            tables,
        })
    }

    /// The vsn up to which the channel is done: that of its last item since the last epoch, or else that of the epoch, or 0.
    pub(crate) fn last(&self, channel: u32) -> u64
        ensures { result ≡ vsns_in self.now.vsns channel }
    {
        self.vsns.last(channel)
    }

    /// Whether the batch of this number of the table was taken.
    pub(crate) fn has_batch(&self, table: u32, number: u32) -> bool
        ensures { (lists : List (List (List Value))) → result ≡ (says lists self.now).has_batch table number }
    {
        match self.tables.get(table as usize) {
            Some(marks) => marks.has_batch(number),
            None => false,
        }
    }

    /// How many rows the batches of the table had.
    pub(crate) fn batch_rows(&self, table: u32) -> u64
        ensures { result ≡ batch_rows_in (slice_get self.now.tables table) }
    {
        match self.tables.get(table as usize) {
            Some(marks) => marks.batch_rows,
            None => 0,
        }
    }

    /// How many changes of the table there were.
    pub(crate) fn changes(&self, table: u32) -> u64
        ensures { result ≡ changes_in (slice_get self.now.tables table) }
    {
        match self.tables.get(table as usize) {
            Some(marks) => marks.changes,
            None => 0,
        }
    }

    /// Whether a store with these marks may take `txn`.
    pub(crate) fn is_next(&self, txn: &Txn) -> bool
        ensures { (lists : List (List (List Value))) → result ≡ is_next (says lists self.now) txn.now }
    {
        match txn {
            Txn::Load { .. } => !self.loaded,
            Txn::Batch { table, number, .. } => !self.has_batch(*table, *number),
            Txn::Events { channel, items } => ascend_above(self.last(*channel), items.as_slice()),
            Txn::Epoch { vsn, .. } => self.vsns.is_none_above(MAX_CHANNELS, *vsn),
        }
    }

    /// Makes the room that `txn` needs to be noted. What the marks say stays as it is.
    pub(crate) fn make_room(&mut self, txn: &Txn) -> Result<(), AllocError>
        requires names { NamesTables (length self.old.tables) txn.now }
        requires channel { IsInChannels txn.now }
        ensures sized { length self.new.tables ≡ length self.old.tables }
        ensures same { (lists : List (List (List Value))) → says lists self.new ≡ says lists self.old }
        ensures room { OnOk result (HasMarkRoom txn.now self.new.tables) }
    {
        match txn {
            Txn::Batch { table, .. } => self.tables.item_mut(*table as usize).make_room(),
            _ => Ok(()),
        }
    }

    /// Raises the vsn of the channel, or sets all to that of an epoch, or puts down the batch or the load, and counts. It takes
    /// no memory.
    pub(crate) fn note(&mut self, txn: &Txn)
        requires names { NamesTables (length self.old.tables) txn.now }
        requires room { HasMarkRoom txn.now self.old.tables }
        ensures sized { length self.new.tables ≡ length self.old.tables }
        ensures noted { (lists : List (List (List Value))) → says lists self.new ≡ with_marks (says lists self.old) txn.now }
    {
        match txn {
            Txn::Load { .. } => self.loaded = true,
            Txn::Batch {
                table,
                number,
                rows,
            } => {
                let rows = rows.len() as u64;
                self.tables
                    .item_mut(*table as usize)
                    .add_batch(*number, rows);
            }
            Txn::Events { channel, items } => {
                raise(&mut self.vsns, *channel, items.as_slice());
                count_changes(&mut self.tables, items.as_slice());
            }
            Txn::Epoch { vsn, channels } => {
                self.vsns.set_all(*vsn);
                self.channels = Some(*channels);
            }
        }
    }
}

/// Raises the vsn of the channel to that of the last of these events.
fn raise(vsns: &mut Vsns, channel: u32, items: &[Event])
    requires { channel < max_channels }
    ensures { (c : ℕ) → vsns_in vsns.new c ≡ vsns_after (vsns_in vsns.old) (Txn.Events channel items.now) c }
{
    if let Some(item) = items.last() {
        vsns.set(channel, item.vsn);
    }
}

/// Counts the changes of these events, each for its table.
fn count_changes(tables: &mut Items<TableMarks>, items: &[Event])
    requires { are_below (length tables.old) (filter_map (λ (item : Event). change_in item.what) items.now) ≡ true }
    ensures { AddsChanges (filter_map (λ (item : Event). change_in item.what) items.now) tables.old tables.new }
{
    for item in items {
        count_change(tables, &item.what);
    }
}

fn count_change(tables: &mut Items<TableMarks>, what: &What)
    requires { are_below (length tables.old) (cons_option (change_in what.now) []) ≡ true }
    ensures { AddsChanges (cons_option (change_in what.now) []) tables.old tables.new }
{
    if let What::Change(change) = what {
        tables.item_mut(change.table() as usize).add_change();
    }
}
