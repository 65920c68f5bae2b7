ghost use Rattle.std.specs.Prelude.{◌≡◌};
ghost use Rattle.voy_tables.specs.Standing.{ascends};

use crate::keys::compare_keys;
use std::cmp::Ordering;
use voy_schema::{Row, Table};

/// Whether the key of each row of `table` comes before those of all later ones. It takes no memory.
pub fn rows_ascend(table: &Table, rows: &[Row]) -> bool
    ensures { result ≡ ascends table.now rows.now }
{
    for i in 1..rows.len() {
        if compare_keys(table, &rows[i - 1], &rows[i]) != Ordering::Less {
            return false;
        }
    }
    true
}
