ghost use Rattle.std.specs.Prelude.{◌≡◌, ◌%◌, ◌<◌, [], ◌∷◌, Some, slice_get};
ghost use Rattle.std.specs.Option.{option_copied};
ghost use Rattle.voy_schema.specs.Rows.{values_at};
ghost use Rattle.voy_order.specs.Channels.{fnv1a};
ghost use Rattle.voy_order.specs.RowsLost.{unique_key_at};
ghost use Rattle.voy_conflict.specs.Filing.{columns_of, tuple_bytes, tuple_hash};

use voy_order::fnv1a;
use voy_schema::{Row, Schema, UniqueKey};
use voy_tables::key_text;

/// The bucket, of so many, of the row's tuple for a unique key.
pub(crate) fn bucket_of(schema: &Schema, table: u32, unique: u32, row: &Row, buckets: u32) -> u32
    requires { 0 < buckets }
    ensures bucket { result ≡ tuple_hash table unique (values_at row.now (columns_of (unique_key_at (slice_get schema.now.tables table) unique))) % buckets }
    ensures within { result < buckets }
{
    (tuple_hash(schema, table, unique, row) % u64::from(buckets)) as u32
}

/// The hash of the row's tuple for a unique key.
fn tuple_hash(schema: &Schema, table: u32, unique: u32, row: &Row) -> u64
    ensures { result ≡ tuple_hash table unique (values_at row.now (columns_of (unique_key_at (slice_get schema.now.tables table) unique))) }
{
    let start = u64::from(table) * 256 + u64::from(unique);
    match unique_key(schema, table, unique) {
        Some(key) => hash_values(start, row, key.columns.as_slice()),
        None => start,
    }
}

/// The unique key at place `unique`, of the table at place `table`.
pub(crate) fn unique_key(schema: &Schema, table: u32, unique: u32) -> Option<&UniqueKey>
    ensures { option_copied result ≡ unique_key_at (slice_get schema.now.tables table) unique }
{
    let table = schema.table(table as usize)?;
    table.unique_keys.get(unique as usize)
}

/// The hash from `start` on of the texts in these columns, each behind a zero byte.
fn hash_values(start: u64, row: &Row, columns: &[u32]) -> u64
    ensures { result ≡ fnv1a start (tuple_bytes (values_at row.now columns.now)) }
{
    let mut hash = start;
    for column in columns {
        hash = hash_behind_zero(hash, key_text(row, *column));
    }
    hash
}

/// The hash from `start` on of a zero byte and `text`.
#[tactic(auto, unfolding(voy_order::specs::Channels::fnv1a))]
fn hash_behind_zero(start: u64, text: &str) -> u64
    ensures { result ≡ fnv1a start (0 ∷ text.now) }
{
    fnv1a(fnv1a(start, &[0]), text.as_bytes())
}
