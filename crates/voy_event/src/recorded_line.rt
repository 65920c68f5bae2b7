ghost use Rattle.std.specs.Prelude.{◌≡◌, Some, IfOk, IfErr};
ghost use Rattle.serde_json.specs.View.{view};
ghost use Rattle.voy_event.specs.LawfulEvent.{IsLawfulChange};
ghost use Rattle.voy_event.specs.InTurn.{recorded_document_in_turn, recorded_in_turn, recorded_op_in_turn};
ghost use Rattle.voy_event.specs.RecordedLine.{recorded_line_reading};
ghost use Rattle.voy_schema.specs.Refusal.{Refuses};
ghost use Rattle.voy_event.specs.Refusal.{cause_of};

use crate::change_line::{read_row_change, table_of_line};
use crate::limits::MAX_RECORDED_LINE_BYTES;
use crate::line_error::{LineError, LineWhy};
use crate::recorded::Recorded;
use crate::words::{Op, change_op, number_at};
use serde_json::Value as Json;
use std::alloc::Global;
use voy_json::{ParseError, parse};
use voy_schema::Schema;
use voy_tables::Spot;

/// The names of a recorded change line.
const RECORDED_NAMES: [&str; 8] = [
    "before_fields",
    "commit",
    "fields",
    "key",
    "op",
    "schema_name",
    "seq",
    "table_name",
];

/// The change that a line of a recording states, given without its LF. Of a name that an object gives
/// twice the last counts, and names may come in any order.
///
/// A line without a reading is `Bad` with the first cause that holds, in the order of [`LineWhy`].
pub fn read_change(alloc: Global, schema: &Schema, bytes: &[u8]) -> Result<Recorded, LineError>
    ensures ok { IfOk result (λ recorded.
        recorded_line_reading schema.now.tables bytes.now ≡ Ok recorded) }
    ensures err { IfErr result (Refuses cause_of (recorded_line_reading schema.now.tables bytes.now)) }
    ensures lawful { IfOk result (λ recorded. IsLawfulChange schema.now.tables recorded.change) }
{
    read_in_turn(alloc, schema, bytes)
}

fn read_in_turn(alloc: Global, schema: &Schema, bytes: &[u8]) -> Result<Recorded, LineError>
    ensures ok { IfOk result (λ recorded. recorded_in_turn schema.now.tables bytes.now ≡ Ok recorded) }
    ensures err { IfErr result (Refuses cause_of (recorded_in_turn schema.now.tables bytes.now)) }
{
    if bytes.len() > MAX_RECORDED_LINE_BYTES {
        return Err(LineError::Bad(LineWhy::TooLong));
    }
    match parse(alloc, bytes) {
        Ok(line) => read_document(alloc, schema, &line),
        Err(ParseError::NotJson) => Err(LineError::Bad(LineWhy::NotJson)),
        Err(ParseError::NoMemory) => Err(LineError::NoMemory),
    }
}

fn read_document(alloc: Global, schema: &Schema, line: &Json) -> Result<Recorded, LineError>
    ensures ok { IfOk result (λ recorded.
        recorded_document_in_turn schema.now.tables (Some (view line.now)) ≡ Ok recorded) }
    ensures err { IfErr result
        (Refuses cause_of (recorded_document_in_turn schema.now.tables (Some (view line.now)))) }
{
    if !line.is_object() {
        return Err(LineError::Bad(LineWhy::NotJson));
    }
    match change_op(line) {
        Some(op) => read_recorded(alloc, schema, op, line),
        None => Err(LineError::Bad(LineWhy::BadOp)),
    }
}

#[tactic(auto, unfolding(crate::specs::RecordedLine::recorded_names))]
fn read_recorded(alloc: Global, schema: &Schema, op: Op, line: &Json) -> Result<Recorded, LineError>
    ensures ok { IfOk result (λ recorded.
        recorded_op_in_turn schema.now.tables (view line.now) (Some op) ≡ Ok recorded) }
    ensures err { IfErr result
        (Refuses cause_of (recorded_op_in_turn schema.now.tables (view line.now) (Some op))) }
{
    let placed = match table_of_line(schema, &RECORDED_NAMES, line) {
        Ok(placed) => placed,
        Err(cause) => return Err(LineError::Bad(cause)),
    };
    let Some(commit) = number_at(line, "commit") else {
        return Err(LineError::Bad(LineWhy::BadValue));
    };
    let Some(seq) = number_at(line, "seq") else {
        return Err(LineError::Bad(LineWhy::BadValue));
    };
    let change = read_row_change(alloc, op, &placed, line)?;
    Ok(Recorded {
        spot: Spot { commit, seq },
        change,
    })
}
