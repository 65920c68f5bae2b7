ghost use Rattle.std.specs.Prelude.{◌≡◌, IfErr, IfOk};
ghost use Rattle.std.specs.Str.{bytes_eq};
ghost use Rattle.voy_schema.specs.Refusal.{Refuses};
ghost use Rattle.voy_event.specs.CanonicalLine.{canonical_reading};
ghost use Rattle.voy_event.specs.EventLine.{line_reading};
ghost use Rattle.voy_event.specs.LawfulEvent.{IsLawful, IsWritable};
ghost use Rattle.voy_event.specs.LineText.{line_text};
ghost use Rattle.voy_event.specs.Refusal.{cause_of};

use crate::at_once::read_at_once;
use crate::event::Event;
use crate::event_line::read_by_rules;
use crate::line_error::LineError;
use crate::line_text::write_line;
use std::alloc::{AllocError, Global};
use voy_schema::{Bytes, Schema};

/// The event that a line states, given without its LF. Of a name that an object gives twice the last
/// counts, and names may come in any order.
///
/// A line without a reading is `Bad` with the first cause that holds, in the order of [`LineWhy`].
pub fn read_line(alloc: Global, schema: &Schema, bytes: &[u8]) -> Result<Event, LineError>
    ensures ok { IfOk result (λ event. line_reading schema.now.tables bytes.now ≡ Ok event) }
    ensures err { IfErr result (Refuses cause_of (line_reading schema.now.tables bytes.now)) }
    ensures lawful { IfOk result (IsLawful schema.now.tables) }
{
    match read_at_once(alloc, schema, bytes)? {
        Some(event) => Ok(event),
        None => read_by_rules(alloc, schema, bytes),
    }
}

/// The event whose canonical line this is, given without its LF. `None` where it is no canonical line.
pub fn read_canonical(
    alloc: Global,
    schema: &Schema,
    line: &[u8],
) -> Result<Option<Event>, AllocError>
    ensures { IfOk result (λ found. found ≡ canonical_reading schema.now.tables line.now) }
{
    match read_at_once(alloc, schema, line)? {
        Some(event) => Ok(Some(event)),
        None => read_and_compare(alloc, schema, line),
    }
}

fn read_and_compare(
    alloc: Global,
    schema: &Schema,
    line: &[u8],
) -> Result<Option<Event>, AllocError>
    ensures { IfOk result (λ found. found ≡ canonical_reading schema.now.tables line.now) }
{
    match read_by_rules(alloc, schema, line) {
        Ok(event) => {
            if is_written_as(alloc, schema, &event, line)? {
                Ok(Some(event))
            } else {
                Ok(None)
            }
        }
        Err(LineError::Bad(_)) => Ok(None),
        Err(LineError::NoMemory) => Err(AllocError),
    }
}

/// Whether `line` is the canonical line of the event.
fn is_written_as(
    alloc: Global,
    schema: &Schema,
    event: &Event,
    line: &[u8],
) -> Result<bool, AllocError>
    requires { IsWritable schema.now.tables event.now }
    ensures { IfOk result (λ b. b ≡ bytes_eq (line_text schema.now.tables event.now) line.now) }
{
    let mut canonical = Bytes::new(alloc);
    write_line(alloc, schema, event, &mut canonical)?;
    Ok(canonical.as_slice() == line)
}
