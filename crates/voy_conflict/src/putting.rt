ghost use Rattle.std.specs.Prelude.{◌≡◌, ◌<◌, ◌≤◌, true, is_some, length};
ghost use Rattle.voy_tables.specs.Changes.{row_change};
ghost use Rattle.voy_order.specs.Conflicts.{released};
ghost use Rattle.voy_conflict.specs.Filing.{Puts, are_apart, key_if, keys_released};

use crate::entry::Entry;
use crate::events::unique_keys_of;
use crate::filing::bucket_of;
use voy_link::Arena;
use voy_order::released;
use voy_schema::Schema;
use voy_tables::Change;

/// Puts an entry for each tuple that the change of the event at place `at` releases.
pub(crate) fn put_tuples(
    entries: &mut Arena<Entry>,
    schema: &Schema,
    change: &Change,
    at: u32,
    lane: u32,
    buckets: u32,
)
    requires buckets { entries.old.buckets ≡ buckets }
    requires some { 0 < buckets }
    requires lane { lane < entries.old.lanes }
    requires spare { length (keys_released schema.now.tables (row_change schema.now.tables change.now)) ≤ entries.old.spare }
    ensures { Puts schema.now.tables (row_change schema.now.tables change.now) at lane (keys_released schema.now.tables (row_change schema.now.tables change.now)) entries.old entries.new }
{
    for unique in 0..unique_keys_of(schema, change.table()) {
        put_tuple(entries, schema, change, at, unique, lane, buckets);
    }
}

/// Puts an entry for the tuple of this unique key, where the change releases one.
fn put_tuple(
    entries: &mut Arena<Entry>,
    schema: &Schema,
    change: &Change,
    at: u32,
    unique: u32,
    lane: u32,
    buckets: u32,
)
    requires buckets { entries.old.buckets ≡ buckets }
    requires some { 0 < buckets }
    requires lane { lane < entries.old.lanes }
    requires spare { is_some (released schema.now.tables unique (row_change schema.now.tables change.now)) ≡ true → 0 < entries.old.spare }
    ensures { Puts schema.now.tables (row_change schema.now.tables change.now) at lane (key_if schema.now.tables (row_change schema.now.tables change.now) unique) entries.old entries.new }
{
    if let Some(row) = released(schema, change, unique) {
        let bucket = bucket_of(schema, change.table(), unique, row, buckets);
        entries.insert(bucket, lane, Entry { at, unique });
    }
}
