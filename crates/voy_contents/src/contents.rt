ghost use Rattle.std.specs.Prelude.{◌≡◌, length};

use crate::marks::Marks;
use crate::tables::Tables;
use crate::way_back::Done;
use std::alloc::{AllocError, Global};
use voy_schema::{Key, Row, Rows, Schema};
use voy_txn::{Counts, StoreError, Txn};

/// What a store knows of its history, kept in memory: the rows of its tables, and its marks, which are for
/// each channel its vsn, what the last epoch said, which batches are there, whether the load is, and what it counts.
#[derive(Drop)]
pub struct MemContents {
    pub(crate) tables: Tables,
    pub(crate) marks: Marks,
    ghost sized: { length marks.tables ≡ length tables.schema.tables },
}

impl MemContents {
    ghost use Rattle.std.specs.Prelude.{◌≡◌, ◌≢◌, ◌≤◌, [], None, length, IfErr, IfOk, OnErr, OnOk, slice_get};
    ghost use Rattle.voy_contents.specs.Known.{CanUndo, HasRoomFor, LeadsBack, known, schema_of, with_items, with_marks, key_places_of, tuple_places_of};
    ghost use Rattle.voy_contents.specs.Tables.{lists_in};
    ghost use Rattle.voy_txn.specs.Commits.{HasReason, is_next, max_payload_bytes};
    ghost use Rattle.voy_txn.specs.Contents.{Contents, contents_of, counts_of};
    ghost use Rattle.voy_txn.specs.Items.{violation_of};
    ghost use Rattle.voy_txn.specs.LawfulTxn.{IsLawfulTxn};
    ghost use Rattle.voy_txn.specs.Payload.{payload_of};
    ghost use Rattle.voy_txn.specs.declared.store_error.StoreError.TheVariants.{Fault};
    ghost use Rattle.std.specs.Option.{option_copied};
    ghost use Rattle.voy_tables.specs.Lists.{look, rows_in};

    /// What a store with no transactions knows.
    #[tactic(auto, unfolding(crate::specs::Known::known, crate::specs::Known::schema_of, crate::specs::Tables::schema_in))]
    pub fn new(alloc: Global, schema: Schema) -> Result<MemContents, AllocError>
        ensures schema { IfOk result (λ made. schema_of made ≡ schema.tables) }
        ensures empty { IfOk result (λ made. known made ≡ contents_of schema.tables []) }
    {
        let marks = Marks::new(alloc, &schema)?;
        let tables = Tables::new(alloc, schema)?;
        Ok(MemContents { tables, marks })
    }

    /// The schema that it was made with.
    #[tactic(auto, unfolding(crate::specs::Known::schema_of))]
    pub fn schema(&self) -> &Schema
        ensures { result.now.tables ≡ schema_of self.now }
    {
        self.tables.schema()
    }

    /// Whether a store that knows this may take `txn`: the one load, a batch that has no marker, events whose vsns
    /// ascend from above that of their channel, or an epoch whose vsn is not below that of any channel.
    #[tactic(auto, unfolding(crate::specs::Known::known))]
    pub fn is_next(&self, txn: &Txn) -> bool
        ensures { result ≡ is_next (known self.now) txn.now }
    {
        self.marks.is_next(txn)
    }

    /// Does the items of `txn` in the tables, all of them, or none: `Violation` has the first that does
    /// not fit. What it answers can do them back; [`note`](MemContents::note) then does the rest.
    ///
    /// It takes the logarithm of the table for each item. `Fault` is never answered.
    #[tactic(auto, unfolding(crate::specs::Known::known, crate::specs::Known::schema_of, crate::specs::Tables::schema_in))]
    pub fn do_items(&mut self, txn: &Txn) -> Result<Done, StoreError>
        requires lawful { IsLawfulTxn (schema_of self.old) txn.now }
        requires short { length (payload_of (schema_of self.old) txn.now) ≤ max_payload_bytes }
        ensures schema { schema_of self.new ≡ schema_of self.old }
        ensures fits { OnOk result (violation_of (schema_of self.old) (known self.old).tables txn.now ≡ None) }
        ensures done { OnOk result (known self.new ≡ with_items (schema_of self.old) (known self.old) txn.now) }
        ensures back { IfOk result (λ done. LeadsBack done self.new (known self.old)) }
        ensures room { OnOk result (HasRoomFor txn.now self.new) }
        ensures reason { IfErr result (HasReason (violation_of (schema_of self.old) (known self.old).tables txn.now)) }
        ensures never { IfErr result (λ error. error ≢ Fault) }
        ensures kept { OnErr result (known self.new ≡ known self.old) }
    {
        if self.make_room(txn).is_err() {
            return Err(StoreError::NoMemory);
        }
        let way = self.tables.do_items(txn)?;
        Ok(Done { way })
    }

    /// Does back what [`do_items`](MemContents::do_items) did. It takes no memory.
    #[tactic(auto, unfolding(crate::specs::Known::known, crate::specs::Known::schema_of, crate::specs::Tables::schema_in))]
    pub fn undo(&mut self, done: Done)
        requires { CanUndo done self.old }
        ensures schema { schema_of self.new ≡ schema_of self.old }
        ensures back { (before : Contents) → LeadsBack done self.old before → known self.new ≡ before }
    {
        self.tables.go_back(done.way);
    }

    /// Raises the vsn of the channel, puts down the batch or the load, and counts, or begins the epoch. It takes no
    /// memory.
    #[tactic(auto, unfolding(crate::specs::Known::known, crate::specs::Known::schema_of))]
    pub fn note(&mut self, txn: &Txn)
        requires { HasRoomFor txn.now self.old }
        ensures schema { schema_of self.new ≡ schema_of self.old }
        ensures noted { known self.new ≡ with_marks (known self.old) txn.now }
    {
        self.marks.note(txn);
    }

    /// Takes away the places that were left with nothing, as those of rows that were taken away. What is known stays
    /// as it is. It takes no memory.
    ///
    /// No clause says which places those are: a test looks at the numbers of [`MemContents::key_places`] and
    /// [`MemContents::tuple_places`].
    #[tactic(auto, unfolding(crate::specs::Known::known, crate::specs::Known::schema_of, crate::specs::Tables::schema_in))]
    pub fn sweep(&mut self, done: Done)
        ensures schema { schema_of self.new ≡ schema_of self.old }
        ensures same { known self.new ≡ known self.old }
    {
        self.tables.sweep(&done.way);
    }

    /// Makes the room that `txn` needs to be noted. What is known stays as it is.
    #[tactic(auto, unfolding(crate::specs::Known::known, crate::specs::Known::schema_of))]
    fn make_room(&mut self, txn: &Txn) -> Result<(), AllocError>
        requires { IsLawfulTxn (schema_of self.old) txn.now }
        ensures tables { self.new.tables ≡ self.old.tables }
        ensures same { known self.new ≡ known self.old }
        ensures room { OnOk result (HasRoomFor txn.now self.new) }
    {
        self.marks.make_room(txn)
    }

    /// The vsn up to which the channel is done: that of its last item since the last epoch, or else that of the
    /// epoch, 0 where there is neither.
    #[tactic(auto, unfolding(crate::specs::Known::known))]
    pub fn last(&self, channel: u32) -> u64
        ensures { result ≡ (known self.now).vsns channel }
    {
        self.marks.last(channel)
    }

    /// How many channels the last epoch said. `None` where there is no epoch.
    #[tactic(auto, unfolding(crate::specs::Known::known))]
    pub fn channels(&self) -> Option<u32>
        ensures { result ≡ (known self.now).channels }
    {
        self.marks.channels
    }

    /// Whether the batch of this number of the table was taken.
    #[tactic(auto, unfolding(crate::specs::Known::known))]
    pub fn has_batch(&self, table: u32, number: u32) -> bool
        ensures { result ≡ (known self.now).has_batch table number }
    {
        self.marks.has_batch(table, number)
    }

    /// Whether the load was taken.
    #[tactic(auto, unfolding(crate::specs::Known::known))]
    pub fn loaded(&self) -> bool
        ensures { result ≡ (known self.now).loaded }
    {
        self.marks.loaded
    }

    /// The row of this key of the table. `None` where there is none, or no such table.
    #[tactic(auto, unfolding(crate::specs::Known::known, crate::specs::Known::schema_of))]
    pub fn row(&self, table: u32, key: &Key) -> Option<&Row>
        ensures { option_copied result ≡ look (schema_of self.now) (known self.now).tables (record { table = table; key = key.now }) }
    {
        self.tables.row(table, key)
    }

    /// A copy of the rows of the table, by ascending key; none where there is no such table.
    #[tactic(auto, unfolding(crate::specs::Known::known))]
    pub fn rows(&self, table: u32) -> Result<Rows, AllocError>
        ensures { IfOk result (λ rows. rows ≡ rows_in (slice_get (known self.now).tables table)) }
    {
        self.tables.rows(table)
    }

    /// How many rows and changes there are of the table.
    #[tactic(auto, unfolding(crate::specs::Known::known))]
    pub fn counts(&self, table: u32) -> Counts
        ensures { result ≡ counts_of (known self.now) table }
    {
        Counts {
            rows: self.tables.count(table),
            batch_rows: self.marks.batch_rows(table),
            changes: self.marks.changes(table),
        }
    }

    /// How many places there are for keys of the table; 0 where there is no such table. Places that hold nothing
    /// are among them, up to a [`MemContents::sweep`].
    #[tactic(auto, unfolding(crate::specs::Known::key_places_of))]
    pub fn key_places(&self, table: u32) -> usize
        ensures { result ≡ key_places_of self.now table }
    {
        match self.tables.tables.get(table as usize) {
            Some(table) => table.rows.count(),
            None => 0,
        }
    }

    /// How many places there are for tuples of the table's unique key at the place `key`; 0 where there is no
    /// such table or key.
    #[tactic(auto, unfolding(crate::specs::Known::tuple_places_of))]
    pub fn tuple_places(&self, table: u32, key: u32) -> usize
        ensures { result ≡ tuple_places_of self.now table key }
    {
        match self.tables.tables.get(table as usize) {
            Some(table) => table.tuple_places(key),
            None => 0,
        }
    }
}
