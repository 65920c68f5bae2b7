ghost use Rattle.std.proofs.Props.{props};
ghost use Rattle.voy_contents.specs.TableLists.{AreMemTables, lists_of};
ghost use Rattle.voy_txn.specs.Commits.{AreCleanTables};

use crate::changes::{do_change, empty_tables, find_misfit};
use crate::mem_table::MemTables;
use crate::traces::{sweep, undo};
use crate::way_back::{WayBack, go, go_back, sweep_behind};
use std::alloc::{AllocError, Global};
use voy_schema::{Items, Key, Row, Rows, Schema};
use voy_tables::{
    Change, PlainError, empty_lists_have_no_rows, lists_are_tables, misfit_is_none_where_it_fits,
};
use voy_txn::{StoreError, Txn};

/// The rows of each table of a schema by key, with an index for each unique key, so that a change takes the
/// logarithm of its table.
///
/// What they hold is `lists_in` of `specs/Tables.antt`: for each table its rows, by ascending key. They are clean
/// at each moment: `tables_are_clean` of `specs/TableLaws.antt`.
#[derive(Drop)]
pub struct Tables {
    pub(crate) alloc: Global,
    pub(crate) schema: Schema,
    pub(crate) tables: MemTables,
    ghost stand: { AreMemTables schema.tables tables } by { Prim.hlevel props },
    ghost clean: { AreCleanTables schema.tables (lists_of tables) },
}

impl Tables {
    ghost use Rattle.std.specs.Prelude.{◌≡◌, true, None, Some, length, slice_get, IfErr, IfOk, OnErr, OnOk, ◌≢◌, ◌≤◌};
    ghost use Rattle.std.specs.Option.{option_copied};
    ghost use Rattle.voy_contents.specs.Tables.{lists_in, schema_in, CanGoBack, LeadsTo};
    ghost use Rattle.voy_contents.specs.Refusals.{IsRefused};
    ghost use Rattle.voy_tables.specs.Changes.{is_well_formed, row_change};
    ghost use Rattle.voy_tables.specs.Lists.{empty_lists, lists_after, look, misfit_of, rows_in};
    ghost use Rattle.voy_txn.specs.History.{counted, tables_after};
    ghost use Rattle.voy_contents.specs.TableLists.{lists_of};
    ghost use Rattle.voy_contents.specs.WayBack.{goes_back};
    ghost use Rattle.voy_txn.specs.Commits.{HasReason, max_payload_bytes};
    ghost use Rattle.voy_txn.specs.Items.{violation_of};
    ghost use Rattle.voy_txn.specs.LawfulTxn.{IsLawfulTxn};
    ghost use Rattle.voy_txn.specs.Payload.{payload_of};
    ghost use Rattle.voy_txn.specs.declared.store_error.StoreError.TheVariants.{Fault};

    /// The tables of `schema` with no rows.
    #[tactic(auto, unfolding(crate::specs::Tables::schema_in, crate::specs::Tables::lists_in))]
    pub fn new(alloc: Global, schema: Schema) -> Result<Tables, AllocError>
        ensures schema { IfOk result (λ made. schema_in made ≡ schema.tables) }
        ensures empty { IfOk result (λ made. lists_in made ≡ empty_lists schema.tables) }
    {
        empty_lists_have_no_rows();
        let tables = empty_tables(alloc, &schema)?;
        Ok(Tables {
            alloc,
            schema,
            tables,
        })
    }

    /// The schema that they were made with.
    #[tactic(auto, unfolding(crate::specs::Tables::schema_in))]
    pub fn schema(&self) -> &Schema
        ensures { result.now.tables ≡ schema_in self.now }
    {
        &self.schema
    }

    /// The row of this key of the table. `None` where there is none, or no such table.
    #[tactic(auto, unfolding(crate::specs::Tables::schema_in, crate::specs::Tables::lists_in))]
    pub fn row(&self, table: u32, key: &Key) -> Option<&Row>
        ensures { option_copied result ≡ look (schema_in self.now) (lists_in self.now) (record { table = table; key = key.now }) }
    {
        match self.tables.get(table as usize) {
            Some(table) => table.row(key),
            None => None,
        }
    }

    /// A copy of the rows of the table, by ascending key; none where there is no such table.
    #[tactic(auto, unfolding(crate::specs::Tables::lists_in))]
    pub fn rows(&self, table: u32) -> Result<Rows, AllocError>
        ensures { IfOk result (λ rows. rows ≡ rows_in (slice_get (lists_in self.now) table)) }
    {
        match self.tables.get(table as usize) {
            Some(table) => table.copied_rows(self.alloc),
            None => Ok(Items::new(self.alloc)),
        }
    }

    /// How many rows of the table there are. It goes through them.
    #[tactic(auto, unfolding(crate::specs::Tables::lists_in))]
    pub fn count(&self, table: u32) -> u64
        ensures { result ≡ counted (length (rows_in (slice_get (lists_in self.now) table))) }
    {
        match self.tables.get(table as usize) {
            Some(table) => table.count(),
            None => 0,
        }
    }

    /// Whether the change fits the tables, and else the first cause why it does not: an insert's key is there
    /// already; the key of an update or delete is not there; the row there is another one; another row has
    /// the new row's counting tuple of the least such unique key. `NoMemory` says nothing of the change.
    #[tactic(auto, unfolding(crate::specs::Tables::schema_in, crate::specs::Tables::lists_in))]
    pub fn fits(&self, change: &Change) -> Result<(), PlainError>
        ensures ok { OnOk result (misfit_of (schema_in self.now) (row_change (schema_in self.now) change.now) (lists_in self.now) ≡ None) }
        ensures err { IfErr result (IsRefused (misfit_of (schema_in self.now) (row_change (schema_in self.now) change.now) (lists_in self.now))) }
    {
        match find_misfit(self.alloc, &self.schema, &self.tables, change)? {
            Some(misfit) => Err(PlainError::Misfit(misfit)),
            None => Ok(()),
        }
    }

    /// Does the change where it fits, in the logarithm of its table. The misfit is that of [`Tables::fits`].
    /// After an error the tables are as before.
    #[tactic(auto, unfolding(crate::specs::Tables::schema_in, crate::specs::Tables::lists_in))]
    pub fn apply(&mut self, change: &Change) -> Result<(), PlainError>
        requires { is_well_formed (schema_in self.old) change.now ≡ true }
        ensures schema { schema_in self.new ≡ schema_in self.old }
        ensures fits { OnOk result (misfit_of (schema_in self.old) (row_change (schema_in self.old) change.now) (lists_in self.old) ≡ None) }
        ensures ok { OnOk result (lists_in self.new ≡ lists_after (schema_in self.old) (row_change (schema_in self.old) change.now) (lists_in self.old)) }
        ensures refused { IfErr result (IsRefused (misfit_of (schema_in self.old) (row_change (schema_in self.old) change.now) (lists_in self.old))) }
        ensures err { OnErr result (lists_in self.new ≡ lists_in self.old) }
    {
        lists_are_tables();
        misfit_is_none_where_it_fits();
        let mut traces = Vec::new(self.alloc);
        match do_change(
            self.alloc,
            &self.schema,
            &mut self.tables,
            change,
            &mut traces,
        ) {
            Ok(()) => {
                sweep(&mut self.tables, traces.as_slice());
                Ok(())
            }
            Err(refused) => {
                undo(&mut self.tables, &mut traces);
                Err(refused)
            }
        }
    }

    /// Does the items of `txn`, all of them or none, and gives the way back.
    #[tactic(auto, unfolding(crate::specs::Tables::schema_in, crate::specs::Tables::lists_in))]
    pub(crate) fn do_items(&mut self, txn: &Txn) -> Result<WayBack, StoreError>
        requires lawful { IsLawfulTxn (schema_in self.old) txn.now }
        requires short { length (payload_of (schema_in self.old) txn.now) ≤ max_payload_bytes }
        ensures schema { schema_in self.new ≡ schema_in self.old }
        ensures fits { OnOk result (violation_of (schema_in self.old) (lists_in self.old) txn.now ≡ None) }
        ensures done { OnOk result (lists_in self.new ≡ tables_after (schema_in self.old) (lists_in self.old) txn.now) }
        ensures back { IfOk result (λ way. LeadsTo way self.new (lists_in self.old)) }
        ensures reason { IfErr result (HasReason (violation_of (schema_in self.old) (lists_in self.old) txn.now)) }
        ensures never { IfErr result (λ error. error ≢ Fault) }
        ensures kept { OnErr result (lists_in self.new ≡ lists_in self.old) }
    {
        lists_are_tables();
        misfit_is_none_where_it_fits();
        empty_lists_have_no_rows();
        go(self.alloc, &self.schema, &mut self.tables, txn)
    }

    /// Goes the way back. It takes no memory.
    #[tactic(auto, unfolding(crate::specs::Tables::schema_in, crate::specs::Tables::lists_in))]
    pub(crate) fn go_back(&mut self, way: WayBack)
        requires { CanGoBack way self.old }
        ensures schema { schema_in self.new ≡ schema_in self.old }
        ensures back { lists_in self.new ≡ lists_of (goes_back way self.old.tables) }
    {
        go_back(&mut self.tables, way);
    }

    /// Takes away the places that were left with nothing on the way. The rows stay as they are. It takes no memory.
    #[tactic(auto, unfolding(crate::specs::Tables::schema_in, crate::specs::Tables::lists_in))]
    pub(crate) fn sweep(&mut self, way: &WayBack)
        ensures schema { schema_in self.new ≡ schema_in self.old }
        ensures same { lists_in self.new ≡ lists_in self.old }
    {
        sweep_behind(&mut self.tables, way);
    }
}
