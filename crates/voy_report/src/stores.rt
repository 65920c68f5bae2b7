ghost use Rattle.std.specs.Prelude.{◌≡◌, ◌++◌, slice_get, OnOk, OnErr};
ghost use Rattle.voy_report.specs.Show.{Appends, table_text, tables_text};
ghost use Rattle.voy_tables.specs.Lists.{rows_in};

use crate::show::append_table;
use std::alloc::{AllocError, Global};
use voy_schema::{Bytes, Schema, Table};
use voy_txn::Store;

/// Appends the show text of a store: for each table of its schema the name with the number of rows, and
/// then the text of each row by ascending key. One table's rows are copied at a time.
///
/// It fails only for want of memory, and then `to` is as before.
pub fn show_text<S: Store>(
    alloc: Global,
    schema: &Schema,
    store: &S,
    to: &mut Bytes,
) -> Result<(), AllocError>
    requires { schema.now.tables ≡ S.schema store.now }
    ensures ok { OnOk result (to.new ≡ to.old ++ tables_text schema.now.tables (S.contents store.now).tables) }
    ensures err { OnErr result (to.new ≡ to.old) }
{
    let length = to.len();
    match append_store(alloc, schema, store, to) {
        Ok(()) => Ok(()),
        Err(error) => {
            to.truncate(length);
            Err(error)
        }
    }
}

/// Appends the parts of all tables.
fn append_store<S: Store>(
    alloc: Global,
    schema: &Schema,
    store: &S,
    to: &mut Bytes,
) -> Result<(), AllocError>
    requires { schema.now.tables ≡ S.schema store.now }
    ensures ok { OnOk result (to.new ≡ to.old ++ tables_text schema.now.tables (S.contents store.now).tables) }
    ensures more { Appends to.old to.new }
{
    for (place, table) in schema.tables.as_slice().iter().enumerate() {
        append_stored(alloc, table, store, place as u32, to)?;
    }
    Ok(())
}

/// Appends the part of the table at this place of the schema.
fn append_stored<S: Store>(
    alloc: Global,
    table: &Table,
    store: &S,
    place: u32,
    to: &mut Bytes,
) -> Result<(), AllocError>
    ensures ok { OnOk result (to.new ≡ to.old ++ table_text table.now (rows_in (slice_get (S.contents store.now).tables place))) }
    ensures more { Appends to.old to.new }
{
    let rows = store.rows(place)?;
    append_table(alloc, table, rows.as_slice(), to)
}
