ghost use Rattle.std.specs.Prelude.{◌≡◌, IfOk};
ghost use Rattle.std.specs.Option.{option_copied};
ghost use Rattle.voy_schema.specs.Rows.{key_of, text_of, value_at};
ghost use Rattle.voy_tables.specs.Keys.{key_cmp, known_text, same_key};

use std::alloc::{AllocError, Global};
use std::cmp::Ordering;
use voy_schema::{Items, Key, Row, Table, Text, Value};

/// The key of a row of `table`: the texts of its key columns, in the order of the key. A column that
/// is NULL, as no key column of a lawful row is, gives the empty text.
pub fn key_of(alloc: Global, table: &Table, row: &Row) -> Result<Key, AllocError>
    ensures { IfOk result (λ key. key ≡ key_of table.now row.now) }
{
    let mut texts = Items::with_capacity(alloc, table.primary_key.len())?;
    for place in table.primary_key.as_slice() {
        let text = Text::from_str(alloc, key_text(row, *place))?;
        texts.push(text)?;
    }
    Ok(Key::new(texts))
}

/// How the keys of two rows of `table` compare: text by text, and byte by byte.
pub(crate) fn compare_keys(table: &Table, a: &Row, b: &Row) -> Ordering
    ensures { result ≡ key_cmp (key_of table.now a.now) (key_of table.now b.now) }
{
    for place in table.primary_key.as_slice() {
        let order = key_text(a, *place).cmp(key_text(b, *place));
        if order != Ordering::Equal {
            return order;
        }
    }
    Ordering::Equal
}

/// Whether two rows of `table` have the same key.
#[tactic(auto, unfolding(crate::specs::Keys::same_key))]
pub(crate) fn has_same_key(table: &Table, a: &Row, b: &Row) -> bool
    ensures { result ≡ same_key (key_of table.now a.now) (key_of table.now b.now) }
{
    for place in table.primary_key.as_slice() {
        if key_text(a, *place) != key_text(b, *place) {
            return false;
        }
    }
    true
}

/// The text of a row in the column at `place`, empty where it is NULL.
pub fn key_text(row: &Row, place: u32) -> &str
    ensures { result.now ≡ text_of (value_at row.now place) }
{
    text_in(row, place).unwrap_or("")
}

/// The text of a row in the column at `place`, or nothing where it is NULL.
pub fn text_in(row: &Row, place: u32) -> Option<&str>
    ensures { option_copied result ≡ known_text (value_at row.now place) }
{
    match row.get(place as usize) {
        Some(Value::Text(text)) => Some(text.as_str()),
        _ => None,
    }
}
