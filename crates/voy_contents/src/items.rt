ghost use Rattle.std.specs.Prelude.{◌≡◌, ◌≢◌, ◌+◌, ◌<◌, ◌≤◌, ◌^◌, [], true, length, map, IfErr, IfOk, OnOk};
ghost use Rattle.std.specs.List.{cons_option, list_all};
ghost use Rattle.voy_contents.specs.Done.{AreDone, IsDone, IsLoaded, IsStopped, item_error};
ghost use Rattle.voy_contents.specs.TableLists.{AreMemTables};
ghost use Rattle.voy_contents.specs.Traces.{all_back};
ghost use Rattle.voy_event.specs.Events.{change_in, changes_in};
ghost use Rattle.voy_tables.specs.Changes.{is_well_formed};
ghost use Rattle.voy_tables.specs.Folds.{first_misfit};
ghost use Rattle.voy_tables.specs.Lists.{empty_lists};
ghost use Rattle.voy_tables.specs.declared.change.Change.{Change};
ghost use Rattle.voy_txn.specs.Commits.{HasReason};
ghost use Rattle.voy_txn.specs.Items.{inserts_from};
ghost use Rattle.voy_txn.specs.declared.store_error.StoreError.TheVariants.{Fault};

use crate::changes::{do_change, do_insert, empty_tables};
use crate::mem_table::MemTables;
use crate::traces::Trace;
use std::alloc::Global;
use voy_event::{Event, What};
use voy_schema::{Row, Schema};
use voy_tables::{PlainError, RowLists};
use voy_txn::StoreError;

/// Inserts the rows into the table at this place, as the items from this number on; or it answers the first that
/// does not fit.
pub(crate) fn insert_rows(
    alloc: Global,
    schema: &Schema,
    tables: &mut MemTables,
    table: u32,
    rows: &[Row],
    first: u32,
    traces: &mut Vec<Trace>,
) -> Result<(), StoreError>
    requires stand { AreMemTables schema.now.tables tables.old }
    requires well { list_all (is_well_formed schema.now.tables) (map (Change.Insert table) rows.now) ≡ true }
    requires few { first + length rows.now < 2 ^ 32 }
    ensures back { all_back traces.new.items tables.new ≡ all_back traces.old.items tables.old }
    ensures done { OnOk result (AreDone schema.now.tables (map (Change.Insert table) rows.now) first [] (first + length rows.now) tables.old tables.new) }
    ensures stopped { IfErr result (IsStopped schema.now.tables (map (Change.Insert table) rows.now) first tables.old) }
{
    let mut item = first;
    for row in rows {
        if let Err(refused) = do_insert(alloc, schema, tables, table, row, traces) {
            return Err(item_error(item, refused));
        }
        item += 1;
    }
    Ok(())
}

/// Does the changes of these events, as the items from 0 on, or it answers the first that does not fit.
pub(crate) fn do_events(
    alloc: Global,
    schema: &Schema,
    tables: &mut MemTables,
    events: &[Event],
    traces: &mut Vec<Trace>,
) -> Result<(), StoreError>
    requires stand { AreMemTables schema.now.tables tables.old }
    requires well { list_all (is_well_formed schema.now.tables) (changes_in events.now) ≡ true }
    requires few { length events.now < 2 ^ 32 }
    ensures back { all_back traces.new.items tables.new ≡ all_back traces.old.items tables.old }
    ensures done { OnOk result (IsDone schema.now.tables (changes_in events.now) tables.old tables.new) }
    ensures stopped { IfErr result (IsStopped schema.now.tables (changes_in events.now) 0 tables.old) }
{
    let mut item: u32 = 0;
    for event in events {
        item = do_event(alloc, schema, tables, &event.what, item, traces)?;
    }
    Ok(())
}

/// Does the change of one event as the item of this number, if it has one, and gives the number behind it.
fn do_event(
    alloc: Global,
    schema: &Schema,
    tables: &mut MemTables,
    what: &What,
    item: u32,
    traces: &mut Vec<Trace>,
) -> Result<u32, StoreError>
    requires stand { AreMemTables schema.now.tables tables.old }
    requires well { list_all (is_well_formed schema.now.tables) (cons_option (change_in what.now) []) ≡ true }
    requires few { item + 1 < 2 ^ 32 }
    ensures back { all_back traces.new.items tables.new ≡ all_back traces.old.items tables.old }
    ensures done { IfOk result (λ next. AreDone schema.now.tables (cons_option (change_in what.now) []) item [] next tables.old tables.new) }
    ensures next { IfOk result (λ next. next ≤ item + 1) }
    ensures stopped { IfErr result (IsStopped schema.now.tables (cons_option (change_in what.now) []) item tables.old) }
{
    match what {
        What::Change(change) => match do_change(alloc, schema, tables, change, traces) {
            Ok(()) => Ok(item + 1),
            Err(refused) => Err(item_error(item, refused)),
        },
        _ => Ok(item),
    }
}

/// Tables with these rows, table by table and each as an insert; or the first that does not fit.
pub(crate) fn load(
    alloc: Global,
    schema: &Schema,
    lists: &RowLists,
) -> Result<MemTables, StoreError>
    requires well { list_all (is_well_formed schema.now.tables) (inserts_from 0 lists.now) ≡ true }
    requires narrow { length lists.now < 2 ^ 32 }
    requires few { length (inserts_from 0 lists.now) < 2 ^ 32 }
    ensures done { IfOk result (IsLoaded schema.now.tables (inserts_from 0 lists.now)) }
    ensures reason { IfErr result (HasReason (first_misfit schema.now.tables (empty_lists schema.now.tables) 0 (inserts_from 0 lists.now))) }
    ensures never { IfErr result (λ error. error ≢ Fault) }
{
    match empty_tables(alloc, schema) {
        Ok(mut made) => {
            fill(alloc, schema, &mut made, lists)?;
            Ok(made)
        }
        Err(_refused) => Err(StoreError::NoMemory),
    }
}

/// Inserts the rows, table by table. After an error a part of them.
fn fill(
    alloc: Global,
    schema: &Schema,
    tables: &mut MemTables,
    lists: &RowLists,
) -> Result<(), StoreError>
    requires stand { AreMemTables schema.now.tables tables.old }
    requires well { list_all (is_well_formed schema.now.tables) (inserts_from 0 lists.now) ≡ true }
    requires narrow { length lists.now < 2 ^ 32 }
    requires few { length (inserts_from 0 lists.now) < 2 ^ 32 }
    ensures done { OnOk result (IsDone schema.now.tables (inserts_from 0 lists.now) tables.old tables.new) }
    ensures stopped { IfErr result (IsStopped schema.now.tables (inserts_from 0 lists.now) 0 tables.old) }
{
    let mut traces = Vec::new(alloc);
    let mut first: u32 = 0;
    for place in 0..lists.len() {
        let table = place as u32;
        let rows = lists.as_slice()[place].as_slice();
        insert_rows(alloc, schema, tables, table, rows, first, &mut traces)?;
        traces.clear();
        first += rows.len() as u32;
    }
    Ok(())
}

/// Why the item of this number was refused.
fn item_error(item: u32, refused: PlainError) -> StoreError
    ensures { result ≡ item_error item refused }
{
    match refused {
        PlainError::Misfit(why) => StoreError::Violation { item, why },
        PlainError::NoMemory => StoreError::NoMemory,
    }
}
