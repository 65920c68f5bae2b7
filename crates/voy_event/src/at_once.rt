ghost use Rattle.std.specs.Prelude.{◌≡◌, ◌≤◌, Some, length, slice_get, true, IfOk, IfSome};
ghost use Rattle.voy_schema.specs.Lawful.{is_lawful_table};
ghost use Rattle.voy_event.specs.EventLine.{max_event_line_bytes};
ghost use Rattle.voy_event.specs.LawfulEvent.{IsLawful};
ghost use Rattle.voy_event.specs.LineText.{line_text};

use crate::by_name::Order;
use crate::change_line::has_long_row;
use crate::event::{Event, What};
use crate::guessing::{Guess, guess_change, guess_end};
use crate::limits::MAX_EVENT_LINE_BYTES;
use crate::same_line::is_line_of;
use std::alloc::{AllocError, Global};
use voy_schema::{Schema, Table};
use voy_tables::well_formed;

/// The event with a change whose canonical line this is. Its parts are guessed by their places, and what comes of
/// them is compared with the whole line. `None` where that fails, which says nothing of the line.
pub(crate) fn read_at_once(
    alloc: Global,
    schema: &Schema,
    line: &[u8],
) -> Result<Option<Event>, AllocError>
    ensures same { IfOk result (λ found. IfSome found (λ e. line_text schema.now.tables e ≡ line.now)) }
    ensures lawful { IfOk result (λ found. IfSome found (IsLawful schema.now.tables)) }
    ensures short { IfOk result (λ found. IfSome found (λ _. length line.now ≤ max_event_line_bytes)) }
{
    if line.len() > MAX_EVENT_LINE_BYTES {
        return Ok(None);
    }
    let Some(end) = guess_end(line) else {
        return Ok(None);
    };
    let Some(place) = schema.find(end.schema_name, end.table_name) else {
        return Ok(None);
    };
    match schema.table(place as usize) {
        Some(table) => read_of_table(alloc, schema, place, table, end.vsn, line),
        None => Ok(None),
    }
}

/// The same where the line's end names this table, at this place, and the vsn.
fn read_of_table(
    alloc: Global,
    schema: &Schema,
    place: u32,
    table: &Table,
    vsn: u64,
    line: &[u8],
) -> Result<Option<Event>, AllocError>
    requires there { slice_get schema.now.tables place ≡ Some table.now }
    requires lawful { is_lawful_table table.now ≡ true }
    ensures same { IfOk result (λ found. IfSome found (λ e. line_text schema.now.tables e ≡ line.now)) }
    ensures lawful { IfOk result (λ found. IfSome found (IsLawful schema.now.tables)) }
{
    let order = Order::of(alloc, table)?;
    let Some(guess) = guess_change(alloc, place, order.row.as_slice(), line)? else {
        return Ok(None);
    };
    let Guess { role, change } = guess;
    if vsn == 0 || has_long_row(&change) || !well_formed(schema, &change) {
        return Ok(None);
    }
    if !is_line_of(table, &order, vsn, role, &change, line) {
        return Ok(None);
    }
    Ok(Some(Event {
        vsn,
        role,
        what: What::Change(change),
    }))
}
