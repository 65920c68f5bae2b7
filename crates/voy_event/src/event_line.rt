ghost use Rattle.std.specs.Prelude.{◌≡◌, Some, IfOk, IfErr};
ghost use Rattle.serde_json.specs.View.{view};
ghost use Rattle.voy_event.specs.EventLine.{has_exporter, line_reading, vsn_at};
ghost use Rattle.voy_event.specs.InTurn.{cutover_vsn, document_in_turn, kind_in_turn, line_in_turn};
ghost use Rattle.voy_event.specs.LawfulEvent.{IsLawful};
ghost use Rattle.voy_schema.specs.Refusal.{Refuses};
ghost use Rattle.voy_event.specs.Refusal.{cause_of};

use crate::change_line::{read_row_change, table_of_line};
use crate::event::{Event, What};
use crate::limits::MAX_EVENT_LINE_BYTES;
use crate::line_error::{LineError, LineWhy};
use crate::words::{EventKind, Op, event_kind, number_at, role_at, text_of_role};
use serde_json::Value as Json;
use std::alloc::Global;
use voy_json::{ParseError, has_all, has_only, parse, text_at};
use voy_schema::Schema;
use voy_tables::Role;

/// The names of an event line with a change.
const CHANGE_EVENT_NAMES: [&str; 8] = [
    "before_fields",
    "exporter_role",
    "fields",
    "key",
    "op",
    "schema_name",
    "table_name",
    "vsn",
];

/// The names of a cutover's line.
const CUTOVER_NAMES: [&str; 3] = ["exporter_role", "op", "vsn"];

/// The same as [`read_line`](crate::read_line), by the rules of a line, one after the other.
pub(crate) fn read_by_rules(
    alloc: Global,
    schema: &Schema,
    bytes: &[u8],
) -> Result<Event, LineError>
    ensures ok { IfOk result (λ event. line_reading schema.now.tables bytes.now ≡ Ok event) }
    ensures err { IfErr result (Refuses cause_of (line_reading schema.now.tables bytes.now)) }
    ensures lawful { IfOk result (IsLawful schema.now.tables) }
{
    read_in_turn(alloc, schema, bytes)
}

fn read_in_turn(alloc: Global, schema: &Schema, bytes: &[u8]) -> Result<Event, LineError>
    ensures ok { IfOk result (λ event. line_in_turn schema.now.tables bytes.now ≡ Ok event) }
    ensures err { IfErr result (Refuses cause_of (line_in_turn schema.now.tables bytes.now)) }
{
    if bytes.len() > MAX_EVENT_LINE_BYTES {
        return Err(LineError::Bad(LineWhy::TooLong));
    }
    match parse(alloc, bytes) {
        Ok(line) => read_document(alloc, schema, &line),
        Err(ParseError::NotJson) => Err(LineError::Bad(LineWhy::NotJson)),
        Err(ParseError::NoMemory) => Err(LineError::NoMemory),
    }
}

fn read_document(alloc: Global, schema: &Schema, line: &Json) -> Result<Event, LineError>
    ensures ok { IfOk result (λ event.
        document_in_turn schema.now.tables (Some (view line.now)) ≡ Ok event) }
    ensures err { IfErr result (Refuses cause_of (document_in_turn schema.now.tables (Some (view line.now)))) }
{
    if !line.is_object() {
        return Err(LineError::Bad(LineWhy::NotJson));
    }
    match event_kind(line) {
        Some(EventKind::Change(op)) => read_change_event(alloc, schema, op, line),
        Some(EventKind::CutoverTarget) => Ok(Event {
            vsn: cutover_vsn(Role::Source, line)?,
            role: Role::Source,
            what: What::CutoverTarget,
        }),
        Some(EventKind::CutoverSource) => Ok(Event {
            vsn: cutover_vsn(Role::Target, line)?,
            role: Role::Target,
            what: What::CutoverSource,
        }),
        None => Err(LineError::Bad(LineWhy::BadOp)),
    }
}

#[tactic(auto, unfolding(crate::specs::EventLine::change_event_names))]
fn read_change_event(
    alloc: Global,
    schema: &Schema,
    op: Op,
    line: &Json,
) -> Result<Event, LineError>
    ensures ok { IfOk result (λ event.
        kind_in_turn schema.now.tables (view line.now) (Some (EventKind.Change op)) ≡ Ok event) }
    ensures err { IfErr result
        (Refuses cause_of (kind_in_turn schema.now.tables (view line.now) (Some (EventKind.Change op)))) }
{
    let placed = match table_of_line(schema, &CHANGE_EVENT_NAMES, line) {
        Ok(placed) => placed,
        Err(cause) => return Err(LineError::Bad(cause)),
    };
    let Some(vsn) = vsn_at(line) else {
        return Err(LineError::Bad(LineWhy::BadValue));
    };
    let Some(role) = role_at(line) else {
        return Err(LineError::Bad(LineWhy::BadValue));
    };
    let change = read_row_change(alloc, op, &placed, line)?;
    Ok(Event {
        vsn,
        role,
        what: What::Change(change),
    })
}

/// The vsn of a cutover that this exporter must have written.
#[tactic(auto, unfolding(crate::specs::EventLine::cutover_names))]
fn cutover_vsn(role: Role, line: &Json) -> Result<u64, LineWhy>
    ensures { result ≡ cutover_vsn role (view line.now) }
{
    if !has_all(line, &CUTOVER_NAMES) {
        return Err(LineWhy::Missing);
    }
    if !has_only(line, &CUTOVER_NAMES) {
        return Err(LineWhy::Unknown);
    }
    if !has_exporter(line, role) {
        return Err(LineWhy::BadValue);
    }
    vsn_at(line).ok_or(LineWhy::BadValue)
}

/// Whether the line names this exporter.
fn has_exporter(line: &Json, role: Role) -> bool
    ensures { result ≡ has_exporter role (view line.now) }
{
    match text_at(line, "exporter_role") {
        Some(text) => text_of_role(role) == text,
        None => false,
    }
}

/// The line's vsn, from 1.
fn vsn_at(line: &Json) -> Option<u64>
    ensures { result ≡ vsn_at (view line.now) }
{
    match number_at(line, "vsn") {
        Some(0) | None => None,
        Some(vsn) => Some(vsn),
    }
}
