ghost use Rattle.std.specs.Prelude.{◌≡◌, OnOk, OnErr};
ghost use Rattle.voy_schema.specs.Rows.{key_of};
ghost use Rattle.voy_tables.specs.Lists.{with_row, without_key};

use crate::keys::{compare_keys, has_same_key};
use std::alloc::AllocError;
use std::cmp::Ordering;
use voy_schema::{Row, Rows, Table};

/// Puts `row` at the place of its key, in place of a row of the same key. A row whose key is above all
/// others moves none of them. After an error nothing changed.
pub(crate) fn put_row(table: &Table, row: Row, rows: &mut Rows) -> Result<(), AllocError>
    ensures ok { OnOk result (rows.new ≡ with_row table.now row rows.old) }
    ensures err { OnErr result (rows.new ≡ rows.old) }
{
    for at in 0..rows.len() {
        match compare_keys(table, &row, &rows.as_slice()[at]) {
            Ordering::Greater => {}
            Ordering::Equal => {
                rows.replace(at, row);
                return Ok(());
            }
            Ordering::Less => return rows.insert(at, row),
        }
    }
    rows.push(row)
}

/// Takes out the row with the key of `like`, if there is one.
pub(crate) fn take_out_row(table: &Table, like: &Row, rows: &mut Rows)
    ensures { rows.new ≡ without_key table.now (key_of table.now like.now) rows.old }
{
    for at in 0..rows.len() {
        if has_same_key(table, &rows.as_slice()[at], like) {
            rows.remove(at);
            return;
        }
    }
}
