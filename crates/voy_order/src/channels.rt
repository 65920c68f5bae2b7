ghost use Rattle.std.specs.Prelude.{◌≡◌, ◌<◌, ◌≤◌, [], ◌∷◌, true, Some};
ghost use Rattle.voy_schema.specs.Lawful.{is_lawful_table};
ghost use Rattle.voy_schema.specs.Rows.{key_of};
ghost use Rattle.voy_tables.specs.Changes.{keyed_row, row_change};
ghost use Rattle.voy_event.specs.ByName.{name_at};
ghost use Rattle.voy_order.specs.Channels.{channel_of, fnv1a, fnv1a_start, hash_of, hashed, hashed_key};
ghost use Rattle.voy_order.specs.KeyOrder.{is_behind, lesser, next_of};

use crate::fnv::{FNV1A_START, fnv1a};
use voy_schema::{Column, Row, Schema, Table};
use voy_tables::{Change, key_text};

/// The channel of a change among `channels`, from 0: the hash of its table's names and its key, in the order
/// of column names, modulo their number. So all changes of one row go by one channel.
#[tactic(auto, unfolding(crate::specs::Channels::channel_of))]
pub fn channel(schema: &Schema, change: &Change, channels: u32) -> u32
    requires { 1 ≤ channels }
    ensures value { result ≡ channel_of schema.now.tables channels (row_change schema.now.tables change.now).row }
    ensures within { result < channels }
{
    (hash_of_change(schema, change) % u64::from(channels)) as u32
}

/// The hash of the row that a change names.
fn hash_of_change(schema: &Schema, change: &Change) -> u64
    ensures { result ≡ hash_of schema.now.tables (row_change schema.now.tables change.now).row }
{
    match schema.table(change.table() as usize) {
        Some(table) => hash_of_row(table, keyed_row(change)),
        None => FNV1A_START,
    }
}

/// The row whose key the change names.
fn keyed_row(change: &Change) -> &Row
    ensures { result.now ≡ keyed_row change.now }
{
    match change {
        Change::Insert { after, .. } => after,
        Change::Update { before, .. } => before,
        Change::Delete { before, .. } => before,
    }
}

/// The hash of a row of `table`: of its names, and of the row's key.
fn hash_of_row(table: &Table, row: &Row) -> u64
    requires { is_lawful_table table.now ≡ true }
    ensures { result ≡ fnv1a fnv1a_start (hashed (Some table.now) (key_of table.now row.now)) }
{
    let schema_name = fnv1a(FNV1A_START, table.schema_name.as_str().as_bytes());
    let names = hash_behind_zero(schema_name, table.table_name.as_str());
    hash_key(table, row, names)
}

/// The hash from `start` on of the key's texts, each behind a zero byte, by ascending name of their columns.
fn hash_key(table: &Table, row: &Row, start: u64) -> u64
    requires { is_lawful_table table.now ≡ true }
    ensures { result ≡ fnv1a start (hashed_key table.now (key_of table.now row.now)) }
{
    let mut hash = start;
    let mut last = None;
    for _ in 0..table.primary_key.len() {
        let Some(place) = next_column(table, last) else {
            return hash;
        };
        hash = hash_behind_zero(hash, key_text(row, place));
        last = Some(place);
    }
    hash
}

/// The hash from `start` on of a zero byte and `text`.
#[tactic(auto, unfolding(crate::specs::Channels::fnv1a))]
fn hash_behind_zero(start: u64, text: &str) -> u64
    ensures { result ≡ fnv1a start (0 ∷ text.now) }
{
    fnv1a(fnv1a(start, &[0]), text.as_bytes())
}

/// The place of the key column whose name comes next behind that of the column at `last`, or first of all
/// where there is no last. `None` where no name comes behind it.
fn next_column(table: &Table, last: Option<u32>) -> Option<u32>
    ensures { result ≡ next_of table.now.columns last table.now.primary_key }
{
    let columns = table.columns.as_slice();
    let mut next = None;
    for place in table.primary_key.as_slice() {
        next = nearer(columns, last, next, *place);
    }
    next
}

/// `next`, or `place` where its name comes behind that of the column at `last` and before that of `next`.
fn nearer(columns: &[Column], last: Option<u32>, next: Option<u32>, place: u32) -> Option<u32>
    ensures { result ≡ lesser columns.now next (next_of columns.now last (place ∷ [])) }
{
    if is_behind(columns, last, place) {
        Some(lesser(columns, next, place))
    } else {
        next
    }
}

/// Of `next` and `place` the one with the lesser name; `place` where there is no next.
fn lesser(columns: &[Column], next: Option<u32>, place: u32) -> u32
    ensures { Some result ≡ lesser columns.now next (Some place) }
{
    match next {
        Some(next) if !is_behind(columns, Some(place), next) => next,
        _ => place,
    }
}

/// Whether the name of the column at `place` comes behind that of the column at `last`, or there is no last.
fn is_behind(columns: &[Column], last: Option<u32>, place: u32) -> bool
    ensures { result ≡ is_behind columns.now last place }
{
    match last {
        None => true,
        Some(last) => name_at(columns, last) < name_at(columns, place),
    }
}

/// The name of the column at this place.
fn name_at(columns: &[Column], place: u32) -> &str
    ensures { result.now ≡ name_at columns.now place }
{
    match columns.get(place as usize) {
        Some(column) => column.name.as_str(),
        None => "",
    }
}
