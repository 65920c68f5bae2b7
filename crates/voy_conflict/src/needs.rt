ghost use Rattle.std.specs.Prelude.{◌≡◌, ◌<◌, ◌≤◌, ◌%◌, ◌++◌, ◌&&◌, ◌==◌, ℕ, List, [], Some, None, true, length, nat_lt, slice_get};
ghost use Rattle.std.specs.List.{cons_option, filter};
ghost use Rattle.std.specs.Option.{option_map};
ghost use Rattle.voy_schema.specs.Rows.{values_at};
ghost use Rattle.voy_schema.specs.declared.value.Value.{Value as ValueOf};
ghost use Rattle.voy_tables.specs.Changes.{row_change, table_of};
ghost use Rattle.voy_tables.specs.Tables.{tuple_in};
ghost use Rattle.voy_link.specs.Arena.{Node, in_bucket};
ghost use Rattle.voy_order.specs.ChangeEvents.{ChangeEvent as EventOf};
ghost use Rattle.voy_order.specs.Conflicts.{acquired, is_handed, last_releaser, need_at, need_for, needs_of, released};
ghost use Rattle.voy_order.specs.RowsLost.{unique_key_at};
ghost use Rattle.voy_conflict.specs.Cache.{Caches, events_at};
ghost use Rattle.voy_conflict.specs.Filing.{are_apart, as_row_change, columns_of, does_answer, last_passing, tuple_hash, vsn_and_change};
ghost use Rattle.voy_conflict.specs.declared.entry.Entry.{Entry as EntryOf};

use crate::cache::Cache;
use crate::entry::Entry;
use crate::events::{Pending, change_at, unique_keys_of};
use crate::filing::{bucket_of, unique_key};
use voy_event::Events;
use voy_link::{Arena, Steps};
use voy_order::{acquired, channel, released};
use voy_schema::{Row, Schema};
use voy_tables::{Change, have_same_tuple};
use voy_txn::{Need, Needs};

/// What the event waits for, in the order of the unique keys.
pub(crate) fn needs_of<L>(
    cache: &Cache,
    schema: &Schema,
    events: &Events,
    event: &Pending<'_>,
    steps: &mut Steps<L>,
) -> Needs
    ensures needs { (places : List ℕ) (f : EventOf) → Caches cache.now schema.now.tables events.now places → f.vsn ≡ event.now.vsn → f.change ≡ row_change schema.now.tables event.now.change.now → result ≡ needs_of schema.now.tables cache.now.lanes (events_at schema.now.tables events.now places) f }
    ensures steps { steps.old.count ≤ steps.new.count }
{
    let mut needs = Needs::new();
    for unique in 0..unique_keys_of(schema, event.change.table()) {
        let need = need_for(cache, schema, events, event, unique, steps);
        push_need(&mut needs, need);
    }
    needs
}

/// Puts a need behind the others, where there is one.
fn push_need(needs: &mut Needs, need: Option<Need>)
    requires { length needs.old < 8 }
    ensures { needs.new ≡ needs.old ++ cons_option need [] }
{
    if let Some(need) = need {
        needs.push(need);
    }
}

/// What the event waits for where it acquires a tuple of this unique key.
fn need_for<L>(
    cache: &Cache,
    schema: &Schema,
    events: &Events,
    event: &Pending<'_>,
    unique: u32,
    steps: &mut Steps<L>,
) -> Option<Need>
    ensures need { (places : List ℕ) (f : EventOf) → Caches cache.now schema.now.tables events.now places → f.vsn ≡ event.now.vsn → f.change ≡ row_change schema.now.tables event.now.change.now → result ≡ need_for schema.now.tables cache.now.lanes (events_at schema.now.tables events.now places) f unique (acquired schema.now.tables unique f.change) }
    ensures steps { steps.old.count ≤ steps.new.count }
{
    let row = acquired(schema, event.change, unique)?;
    let releaser = last_releaser(cache, schema, events, event, unique, row, steps)?;
    need_at(
        schema,
        &releaser,
        channel(schema, event.change, cache.channels),
        cache.channels,
    )
}

/// What is waited for on `channel` where this is the last event that releases the tuple.
fn need_at(schema: &Schema, releaser: &Pending<'_>, own: u32, channels: u32) -> Option<Need>
    requires { 1 ≤ channels }
    ensures { (g : EventOf) → g.vsn ≡ releaser.now.vsn → g.change ≡ row_change schema.now.tables releaser.now.change.now → result ≡ need_at schema.now.tables channels own (Some g) }
{
    let other = channel(schema, releaser.change, channels);
    if other == own {
        None
    } else {
        Some(Need {
            channel: other,
            vsn: releaser.vsn,
        })
    }
}

/// The last event in front of `event` of which the cache keeps the tuple that `row` has for this unique key.
fn last_releaser<'a, L>(
    cache: &Cache,
    schema: &Schema,
    events: &'a Events,
    event: &Pending<'_>,
    unique: u32,
    row: &Row,
    steps: &mut Steps<L>,
) -> Option<Pending<'a>>
    ensures last { (places : List ℕ) (values : List ValueOf) → Caches cache.now schema.now.tables events.now places → tuple_in schema.now.tables (table_of event.now.change.now) unique (Some row.now) ≡ Some values → option_map (as_row_change schema.now.tables) (option_map (λ p. (p.vsn, p.change.now)) result) ≡ option_map vsn_and_change (last_releaser schema.now.tables (table_of event.now.change.now) unique values None (filter (λ (g : EventOf). nat_lt g.vsn event.now.vsn) (events_at schema.now.tables events.now places))) }
    ensures steps { steps.old.count ≤ steps.new.count }
{
    let place = last_answer(cache, schema, events, event, unique, row, steps)?;
    change_at(events, place)
}

/// The place of the last event in front of `event` of which the cache keeps the tuple that `row` has for this
/// unique key.
fn last_answer<L>(
    cache: &Cache,
    schema: &Schema,
    events: &Events,
    event: &Pending<'_>,
    unique: u32,
    row: &Row,
    steps: &mut Steps<L>,
) -> Option<u32>
    ensures last { result ≡ option_map (λ (n : Node EntryOf). n.item.at) (last_passing (λ (n : Node EntryOf). does_answer schema.now.tables events.now (table_of event.now.change.now) unique (tuple_in schema.now.tables (table_of event.now.change.now) unique (Some row.now)) event.now.vsn n.item) None (in_bucket cache.now.nodes (tuple_hash (table_of event.now.change.now) unique (values_at row.now (columns_of (unique_key_at (slice_get schema.now.tables (table_of event.now.change.now)) unique))) % cache.now.buckets))) }
    ensures steps { steps.old.count ≤ steps.new.count }
{
    let bucket = bucket_of(schema, event.change.table(), unique, row, cache.buckets);
    last_in_bucket(
        &cache.entries,
        schema,
        events,
        event,
        unique,
        row,
        bucket,
        steps,
    )
}

/// The place of the last event of this bucket that releases the tuple that `row` has for this unique key, and
/// stands in front of `event`.
fn last_in_bucket<L>(
    entries: &Arena<Entry>,
    schema: &Schema,
    events: &Events,
    event: &Pending<'_>,
    unique: u32,
    row: &Row,
    bucket: u32,
    steps: &mut Steps<L>,
) -> Option<u32>
    requires { are_apart entries.now.nodes ≡ true }
    ensures last { result ≡ option_map (λ (n : Node EntryOf). n.item.at) (last_passing (λ (n : Node EntryOf). does_answer schema.now.tables events.now (table_of event.now.change.now) unique (tuple_in schema.now.tables (table_of event.now.change.now) unique (Some row.now)) event.now.vsn n.item) None (in_bucket entries.now.nodes bucket)) }
    ensures steps { steps.old.count ≤ steps.new.count }
{
    let mut found = entries.last_in_bucket(bucket, steps);
    while let Some(id) = found {
        let entry = entries.item(id, steps);
        if answers(schema, events, event, unique, row, entry) {
            return Some(entry.at);
        }
        found = entries.prev_in_bucket(id, steps);
    }
    None
}

/// Whether the entry's event releases the tuple that `row` has for this unique key, and stands in front of `event`.
fn answers(
    schema: &Schema,
    events: &Events,
    event: &Pending<'_>,
    unique: u32,
    row: &Row,
    entry: Entry,
) -> bool
    ensures { result ≡ does_answer schema.now.tables events.now (table_of event.now.change.now) unique (tuple_in schema.now.tables (table_of event.now.change.now) unique (Some row.now)) event.now.vsn entry }
{
    if entry.unique != unique {
        return false;
    }
    match change_at(events, entry.at) {
        Some(earlier) => is_in_front(schema, &earlier, event, unique, row),
        None => false,
    }
}

/// Whether `earlier` releases the tuple that `row` has for this unique key, and stands in front of `event`.
fn is_in_front(
    schema: &Schema,
    earlier: &Pending<'_>,
    event: &Pending<'_>,
    unique: u32,
    row: &Row,
) -> bool
    ensures { result ≡ ((table_of earlier.now.change.now == table_of event.now.change.now) && is_handed (released schema.now.tables unique (row_change schema.now.tables earlier.now.change.now)) (tuple_in schema.now.tables (table_of event.now.change.now) unique (Some row.now)) && nat_lt earlier.now.vsn event.now.vsn) }
{
    if earlier.change.table() != event.change.table() {
        return false;
    }
    does_release(schema, earlier.change, unique, row) && earlier.vsn < event.vsn
}

/// Whether the change releases the tuple that `row` has for this unique key of its table.
fn does_release(schema: &Schema, change: &Change, unique: u32, row: &Row) -> bool
    ensures { result ≡ is_handed (released schema.now.tables unique (row_change schema.now.tables change.now)) (tuple_in schema.now.tables (table_of change.now) unique (Some row.now)) }
{
    let Some(lost) = released(schema, change, unique) else {
        return false;
    };
    match unique_key(schema, change.table(), unique) {
        Some(key) => have_same_tuple(key, lost, row),
        None => false,
    }
}
