ghost use Rattle.std.specs.Prelude.{◌≡◌, ◌≢◌, ◌<◌, ◌^◌, None, length, IfErr, IfOk, OnErr, OnOk};
ghost use Rattle.voy_contents.specs.TableLists.{AreMemTables, SweepsLists, lists_of};
ghost use Rattle.voy_contents.specs.WayBack.{goes_back};
ghost use Rattle.voy_txn.specs.TableNames.{width_of};
ghost use Rattle.voy_txn.specs.Commits.{HasReason};
ghost use Rattle.voy_txn.specs.History.{tables_after};
ghost use Rattle.voy_txn.specs.Items.{items_of, violation_of};
ghost use Rattle.voy_txn.specs.LawfulTxn.{IsLawfulTxn};
ghost use Rattle.voy_txn.specs.declared.store_error.StoreError.TheVariants.{Fault};

use crate::items::{do_events, insert_rows, load};
use crate::mem_table::MemTables;
use crate::traces::{Trace, sweep, undo};
use std::alloc::Global;
use std::mem::replace;
use voy_schema::Schema;
use voy_txn::{StoreError, Txn};

/// What leads back from tables to those that stood before: the traces of the changes, or the tables that a load
/// took the place of.
#[derive(Drop)]
pub(crate) enum WayBack {
    Traces(Vec<Trace>),
    Tables(MemTables),
}

/// What was done for a transaction, so that it can be done back.
#[derive(Drop)]
pub struct Done {
    pub(crate) way: WayBack,
}

/// Does the items of `txn` in the tables, and gives the way back; or it answers the first that does not fit.
/// After an error nothing changed.
pub(crate) fn go(
    alloc: Global,
    schema: &Schema,
    tables: &mut MemTables,
    txn: &Txn,
) -> Result<WayBack, StoreError>
    requires stand { AreMemTables schema.now.tables tables.old }
    requires lawful { IsLawfulTxn schema.now.tables txn.now }
    requires narrow { width_of txn.now < 2 ^ 32 }
    requires few { length (items_of txn.now) < 2 ^ 32 }
    ensures stand { AreMemTables schema.now.tables tables.new }
    ensures fits { OnOk result (violation_of schema.now.tables (lists_of tables.old) txn.now ≡ None) }
    ensures done { OnOk result (lists_of tables.new ≡ tables_after schema.now.tables (lists_of tables.old) txn.now) }
    ensures back { IfOk result (λ way. goes_back way tables.new ≡ tables.old) }
    ensures reason { IfErr result (HasReason (violation_of schema.now.tables (lists_of tables.old) txn.now)) }
    ensures never { IfErr result (λ error. error ≢ Fault) }
    ensures kept { OnErr result (tables.new ≡ tables.old) }
{
    match txn {
        Txn::Load { tables: lists } => {
            let made = load(alloc, schema, lists)?;
            Ok(WayBack::Tables(replace(tables, made)))
        }
        Txn::Batch { table, rows, .. } => {
            let mut traces = Vec::new(alloc);
            let rows = rows.as_slice();
            match insert_rows(alloc, schema, tables, *table, rows, 0, &mut traces) {
                Ok(()) => Ok(WayBack::Traces(traces)),
                Err(refused) => {
                    undo(tables, &mut traces);
                    Err(refused)
                }
            }
        }
        Txn::Events { items, .. } => {
            let mut traces = Vec::new(alloc);
            match do_events(alloc, schema, tables, items.as_slice(), &mut traces) {
                Ok(()) => Ok(WayBack::Traces(traces)),
                Err(refused) => {
                    undo(tables, &mut traces);
                    Err(refused)
                }
            }
        }
        Txn::Epoch { .. } => Ok(WayBack::Traces(Vec::new(alloc))),
    }
}

/// Goes the way back. It takes no memory.
pub(crate) fn go_back(tables: &mut MemTables, way: WayBack)
    ensures { tables.new ≡ goes_back way tables.old }
{
    match way {
        WayBack::Traces(mut traces) => undo(tables, &mut traces),
        WayBack::Tables(before) => *tables = before,
    }
}

/// Takes away the places that were left with nothing on the way. The rows stay as they are. It takes no memory.
pub(crate) fn sweep_behind(tables: &mut MemTables, way: &WayBack)
    ensures { SweepsLists tables.old tables.new }
{
    match way {
        WayBack::Traces(traces) => sweep(tables, traces.as_slice()),
        WayBack::Tables(_before) => {}
    }
}
