ghost use Rattle.std.specs.Prelude.{◌≡◌, ◌≤◌, slice_get};
ghost use Rattle.std.specs.Option.{option_map};
ghost use Rattle.voy_conflict.specs.Filing.{change_there};
ghost use Rattle.voy_order.specs.Conflicts.{unique_keys_in};

use voy_event::{Event, Events, What};
use voy_schema::Schema;
use voy_tables::Change;

/// An event that changes a row.
#[derive(Clone, Copy)]
pub(crate) struct Pending<'a> {
    pub(crate) vsn: u64,
    pub(crate) change: &'a Change,
}

/// The event at place `at`, where one stands there and it changes a row.
pub(crate) fn change_at(events: &Events, at: u32) -> Option<Pending<'_>>
    ensures { option_map (λ p. (p.vsn, p.change.now)) result ≡ change_there events.now at }
{
    let event = events.get(at as usize)?;
    match &event.what {
        What::Change(change) => Some(Pending {
            vsn: event.vsn,
            change,
        }),
        What::CutoverTarget | What::CutoverSource => None,
    }
}

/// How many unique keys the table has; none where it is not there.
pub(crate) fn unique_keys_of(schema: &Schema, table: u32) -> u32
    ensures count { result ≡ unique_keys_in (slice_get schema.now.tables table) }
    ensures few { result ≤ 8 }
{
    match schema.table(table as usize) {
        Some(table) => table.unique_keys.len() as u32,
        None => 0,
    }
}
