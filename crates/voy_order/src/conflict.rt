ghost use Rattle.std.specs.Prelude.{◌≡◌, Some, slice_get};
ghost use Rattle.std.specs.Bool.{Decides};
ghost use Rattle.std.specs.List.{list_any};
ghost use Rattle.std.specs.Option.{option_copied};
ghost use Rattle.voy_schema.specs.Rows.{counting_tuple};
ghost use Rattle.voy_tables.specs.Changes.{row_change};
ghost use Rattle.voy_tables.specs.Keys.{same_tuple};
ghost use Rattle.voy_order.specs.Conflicts.{HandsOver, acquiring_row, hands_over, releasing_row};
ghost use Rattle.voy_order.specs.RowsLost.{is_handed_for, row_lost, unique_key_at};

use voy_schema::{Row, Schema, UniqueKey};
use voy_tables::{Change, has_counting_tuple, have_same_tuple};

/// The row before a change that releases a counting tuple of the table's unique key at place `unique`: the
/// row after has another tuple there, or none that counts, or there is no row after. `None` for all other
/// changes, and where the table has no such key.
pub fn released<'a>(schema: &Schema, change: &'a Change, unique: u32) -> Option<&'a Row>
    ensures { option_copied result ≡ releasing_row schema.now.tables unique (row_change schema.now.tables change.now) }
{
    match unique_key(schema, change.table(), unique) {
        Some(key) => lost(key, change.before(), change.after()),
        None => None,
    }
}

/// The row after a change that acquires a counting tuple of the table's unique key at place `unique`, by the
/// same rule the other way round.
pub fn acquired<'a>(schema: &Schema, change: &'a Change, unique: u32) -> Option<&'a Row>
    ensures { option_copied result ≡ acquiring_row schema.now.tables unique (row_change schema.now.tables change.now) }
{
    match unique_key(schema, change.table(), unique) {
        Some(key) => lost(key, change.after(), change.before()),
        None => None,
    }
}

/// Whether `second` acquires a tuple that `first` releases, for one unique key of the table that both change.
pub fn holds(schema: &Schema, first: &Change, second: &Change) -> bool
    ensures value { result ≡ hands_over schema.now.tables (row_change schema.now.tables first.now) (row_change schema.now.tables second.now) }
    ensures meaning { Decides result (HandsOver schema.now.tables (row_change schema.now.tables first.now) (row_change schema.now.tables second.now)) }
{
    hands_over(schema, first, second)
}

fn hands_over(schema: &Schema, first: &Change, second: &Change) -> bool
    ensures { result ≡ hands_over schema.now.tables (row_change schema.now.tables first.now) (row_change schema.now.tables second.now) }
{
    if first.table() != second.table() {
        return false;
    }
    match schema.table(first.table() as usize) {
        Some(table) => is_handed_for_some(table.unique_keys.as_slice(), first, second),
        None => false,
    }
}

/// Whether `second` acquires, for one of these unique keys, the tuple that `first` releases.
fn is_handed_for_some(unique_keys: &[UniqueKey], first: &Change, second: &Change) -> bool
    ensures { result ≡ list_any (λ unique. is_handed_for unique first.now second.now) unique_keys.now }
{
    for unique in unique_keys {
        if is_handed(unique, first, second) {
            return true;
        }
    }
    false
}

/// The table's unique key at place `unique`, of the table at place `table`.
fn unique_key(schema: &Schema, table: u32, unique: u32) -> Option<&UniqueKey>
    ensures { option_copied result ≡ unique_key_at (slice_get schema.now.tables table) unique }
{
    let table = schema.table(table as usize)?;
    table.unique_keys.get(unique as usize)
}

/// `row` where its tuple counts and `other`, the row at the other end of the change, has another one or is
/// none.
fn lost<'a>(unique: &UniqueKey, row: Option<&'a Row>, other: Option<&Row>) -> Option<&'a Row>
    ensures { option_copied result ≡ row_lost unique.now (option_copied row.entry) (option_copied other.entry) }
{
    let row = row?;
    if has_counting_tuple(unique, row) && !is_kept(unique, row, other) {
        Some(row)
    } else {
        None
    }
}

/// Whether `other` is a row with the same counting tuple as `row`, or neither has one.
#[tactic(auto, using(crate::proofs::LostLemmas::kept_by_none))]
fn is_kept(unique: &UniqueKey, row: &Row, other: Option<&Row>) -> bool
    ensures { result ≡ same_tuple (counting_tuple unique.now (Some row.now)) (counting_tuple unique.now (option_copied other.entry)) }
{
    match other {
        Some(other) => have_same_tuple(unique, row, other),
        None => !has_counting_tuple(unique, row),
    }
}

/// Whether `second` acquires the tuple of this unique key that `first` releases.
fn is_handed(unique: &UniqueKey, first: &Change, second: &Change) -> bool
    ensures { result ≡ is_handed_for unique.now first.now second.now }
{
    let Some(released) = lost(unique, first.before(), first.after()) else {
        return false;
    };
    let Some(acquired) = lost(unique, second.after(), second.before()) else {
        return false;
    };
    have_same_tuple(unique, released, acquired)
}
