ghost use Rattle.std.specs.Prelude.{◌≡◌, ◌^◌, ◌<◌, Some, None, length, option_map};
ghost use Rattle.std.specs.Option.{option_copied};
ghost use Rattle.voy_schema.specs.Rows.{counting_tuple, key_of};
ghost use Rattle.voy_tables.specs.Lists.{is_taken, misfit_by, misfit_in, row_with_key, stands_elsewhere, unique_misfit};

use crate::change::{Change, Misfit};
use crate::keys::has_same_key;
use crate::tuples::{has_counting_tuple, have_same_tuple};
use voy_schema::{Row, Table, UniqueKey};

/// Why a change of `table`, whose rows these are, does not fit; nothing where it fits.
pub(crate) fn find_misfit(table: &Table, change: &Change, rows: &[Row]) -> Option<Misfit>
    requires { length table.now.unique_keys < 2 ^ 32 }
    ensures { result ≡ misfit_in table.now change.now rows.now }
{
    match change {
        Change::Insert { after, .. } => {
            if find_row(table, after, rows).is_some() {
                return Some(Misfit::KeyTaken);
            }
            find_unique_misfit(table, after, after, rows)
        }
        Change::Update { before, after, .. } => {
            let misfit = find_standing_misfit(table, before, rows);
            if misfit.is_some() {
                return misfit;
            }
            find_unique_misfit(table, before, after, rows)
        }
        Change::Delete { before, .. } => find_standing_misfit(table, before, rows),
    }
}

/// Why the row of this key does not stand as `before` says.
fn find_standing_misfit(table: &Table, before: &Row, rows: &[Row]) -> Option<Misfit>
    ensures { result ≡ misfit_by (Some before.now) (row_with_key table.now (key_of table.now before.now) rows.now) None }
{
    match find_row(table, before, rows) {
        None => Some(Misfit::NoRow),
        Some(there) => {
            if *there == *before {
                None
            } else {
                Some(Misfit::OtherRow)
            }
        }
    }
}

/// The row with the key of `like`.
fn find_row<'a>(table: &Table, like: &Row, rows: &'a [Row]) -> Option<&'a Row>
    ensures { option_copied result ≡ row_with_key table.now (key_of table.now like.now) rows.now }
{
    for row in rows {
        if has_same_key(table, row, like) {
            return Some(row);
        }
    }
    None
}

/// The least unique key whose tuple of `after` a row of another key than that of `like` has.
fn find_unique_misfit(table: &Table, like: &Row, after: &Row, rows: &[Row]) -> Option<Misfit>
    requires { length table.now.unique_keys < 2 ^ 32 }
    ensures { result ≡ unique_misfit table.now (key_of table.now like.now) (Some after.now) rows.now }
{
    for (at, unique) in table.unique_keys.as_slice().iter().enumerate() {
        if is_tuple_taken(table, unique, like, after, rows) {
            return Some(Misfit::Unique { key: at as u32 });
        }
    }
    None
}

/// Whether the tuple of `after` counts, and a row of another key than that of `like` has the same.
fn is_tuple_taken(table: &Table, unique: &UniqueKey, like: &Row, after: &Row, rows: &[Row]) -> bool
    ensures { result ≡ is_taken table.now (key_of table.now like.now) (Some after.now) rows.now unique.now }
{
    has_counting_tuple(unique, after) && stands_elsewhere(table, unique, like, after, rows)
}

/// Whether a row of another key than that of `like` has the tuple of `after`, or no tuple as it has none.
fn stands_elsewhere(
    table: &Table,
    unique: &UniqueKey,
    like: &Row,
    after: &Row,
    rows: &[Row],
) -> bool
    ensures { result ≡ stands_elsewhere table.now (key_of table.now like.now) (counting_tuple unique.now (Some after.now)) rows.now unique.now }
{
    for row in rows {
        if !has_same_key(table, row, like) && have_same_tuple(unique, after, row) {
            return true;
        }
    }
    false
}
