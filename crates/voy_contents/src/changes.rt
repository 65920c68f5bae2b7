ghost use Rattle.std.specs.Prelude.{◌≡◌, ◌<◌, ◌^◌, List, Some, true, length, slice_get, IfErr, IfOk, OnOk};
ghost use Rattle.std.specs.Option.{option_copied};
ghost use Rattle.voy_contents.specs.MemTables.{IsMemTable, is_in_place};
ghost use Rattle.voy_contents.specs.TableLists.{AreMemTables, DoesChange, lists_of};
ghost use Rattle.voy_contents.specs.Refusals.{IsRefused};
ghost use Rattle.voy_contents.specs.Traces.{all_back};
ghost use Rattle.voy_tables.specs.Changes.{is_well_formed, row_change};
ghost use Rattle.voy_tables.specs.Lists.{empty_lists, misfit_of};
ghost use Rattle.voy_schema.specs.declared.table.Table.{Table};
ghost use Rattle.voy_contents.specs.declared.mem_table.MemTable.{MemTable};
ghost use Rattle.voy_tables.specs.declared.change.Change.{Change};

use crate::mem_table::{MemTable, MemTables};
use crate::traces::Trace;
use std::alloc::{AllocError, Global};
use voy_schema::{Items, Key, Row, Schema, Table};
use voy_tables::{Change, Misfit, PlainError, key_of};

/// The tables of `schema` with no rows.
pub(crate) fn empty_tables(alloc: Global, schema: &Schema) -> Result<MemTables, AllocError>
    ensures stand { IfOk result (AreMemTables schema.now.tables) }
    ensures empty { IfOk result (λ tables. lists_of tables ≡ empty_lists schema.now.tables) }
{
    let mut tables = Items::new(alloc);
    for table in schema.tables.as_slice() {
        let made = MemTable::new(alloc, table)?;
        tables.push(made)?;
    }
    Ok(tables)
}

/// Does the change, and puts its traces behind the others; or it answers why it does not fit. Whatever it answers,
/// the traces lead back to what stood before. It takes the logarithm of the table.
pub(crate) fn do_change(
    alloc: Global,
    schema: &Schema,
    tables: &mut MemTables,
    change: &Change,
    traces: &mut Vec<Trace>,
) -> Result<(), PlainError>
    requires stand { AreMemTables schema.now.tables tables.old }
    requires well { is_well_formed schema.now.tables change.now ≡ true }
    ensures back { all_back traces.new.items tables.new ≡ all_back traces.old.items tables.old }
    ensures done { OnOk result (DoesChange schema.now.tables (row_change schema.now.tables change.now) tables.old tables.new) }
    ensures refused { IfErr result (IsRefused (misfit_of schema.now.tables (row_change schema.now.tables change.now) (lists_of tables.old))) }
{
    let table = change.table();
    let of = schema.table(table as usize).unwrap();
    let key = change.key(alloc, of)?;
    let (before, after) = (change.before(), change.after());
    change_at(alloc, of, tables, table, key, before, after, traces)
}

/// The same for the insert of this row.
pub(crate) fn do_insert(
    alloc: Global,
    schema: &Schema,
    tables: &mut MemTables,
    table: u32,
    row: &Row,
    traces: &mut Vec<Trace>,
) -> Result<(), PlainError>
    requires stand { AreMemTables schema.now.tables tables.old }
    requires well { is_well_formed schema.now.tables (Change.Insert table row.now) ≡ true }
    ensures back { all_back traces.new.items tables.new ≡ all_back traces.old.items tables.old }
    ensures done { OnOk result (DoesChange schema.now.tables (row_change schema.now.tables (Change.Insert table row.now)) tables.old tables.new) }
    ensures refused { IfErr result (IsRefused (misfit_of schema.now.tables (row_change schema.now.tables (Change.Insert table row.now)) (lists_of tables.old))) }
{
    let of = schema.table(table as usize).unwrap();
    let key = key_of(alloc, of, row)?;
    change_at(alloc, of, tables, table, key, None, Some(row), traces)
}

/// Does a change of the row at this key of the table `of`, which stands at the place `table`.
fn change_at(
    alloc: Global,
    of: &Table,
    tables: &mut MemTables,
    table: u32,
    key: Key,
    before: Option<&Row>,
    after: Option<&Row>,
    traces: &mut Vec<Trace>,
) -> Result<(), PlainError>
    requires there { table < length tables.old }
    requires few { length of.now.unique_keys < 2 ^ 32 }
    requires in_place { is_in_place of.now key (option_copied after) ≡ true }
    requires stands { (m : MemTable) → slice_get tables.old table ≡ Some m → IsMemTable of.now m.rows m.indexes }
    ensures back { all_back traces.new.items tables.new ≡ all_back traces.old.items tables.old }
    ensures done { (schema : List Table) → AreMemTables schema tables.old → slice_get schema table ≡ Some of.now → OnOk result (DoesChange schema (record { row = record { table = table; key = key }; before = option_copied before.entry; after = option_copied after.entry }) tables.old tables.new) }
    ensures refused { (schema : List Table) → slice_get schema table ≡ Some of.now → IfErr result (IsRefused (misfit_of schema (record { row = record { table = table; key = key }; before = option_copied before.entry; after = option_copied after.entry }) (lists_of tables.old))) }
{
    let at = table as usize;
    tables
        .item_mut(at)
        .change(alloc, table, of, key, before, after, traces)
}

/// Why a change does not fit the tables; nothing where it fits.
pub(crate) fn find_misfit(
    alloc: Global,
    schema: &Schema,
    tables: &MemTables,
    change: &Change,
) -> Result<Option<Misfit>, AllocError>
    requires { AreMemTables schema.now.tables tables.now }
    ensures { IfOk result (λ found. found ≡ misfit_of schema.now.tables (row_change schema.now.tables change.now) (lists_of tables.now)) }
{
    let at = change.table() as usize;
    match schema.table(at) {
        Some(of) => {
            let key = change.key(alloc, of)?;
            let table = &tables.as_slice()[at];
            table.misfit(alloc, of, &key, change.before(), change.after())
        }
        None => Ok(None),
    }
}
