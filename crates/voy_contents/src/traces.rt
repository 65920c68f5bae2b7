ghost use Rattle.std.specs.Prelude.{◌≡◌, ◌-◌, length, take};
ghost use Rattle.voy_contents.specs.TableLists.{SweepsLists};
ghost use Rattle.voy_contents.specs.Traces.{all_back, back};

use crate::mem_table::{MemTable, MemTables};
use voy_schema::{Key, Row, Tuple, Value};

/// A place of one table that was set, with what it held before: a row or none, or whether a tuple was listed,
/// and `None` where there was no place.
///
/// `emptied` is whether it was left with nothing, so that it is to be swept once it is not needed for the way back.
#[derive(Drop)]
pub(crate) enum Place {
    Row {
        key: Key,
        held: Option<Option<Row>>,
        emptied: bool,
    },
    Tuple {
        unique: u32,
        tuple: Tuple<Value>,
        held: Option<bool>,
        emptied: bool,
    },
}

/// A place that was set, of the table at this place of the schema.
#[derive(Drop)]
pub(crate) struct Trace {
    pub(crate) table: u32,
    pub(crate) place: Place,
}

/// Sets all places back to what they held, the last one first. It takes no memory.
pub(crate) fn undo(tables: &mut MemTables, traces: &mut Vec<Trace>)
    ensures { tables.new ≡ all_back traces.old.items tables.old }
{
    for _count in 0..traces.len() {
        undo_last(tables, traces);
    }
}

fn undo_last(tables: &mut MemTables, traces: &mut Vec<Trace>)
    ensures back { all_back traces.new.items tables.new ≡ all_back traces.old.items tables.old }
    ensures fewer { traces.new.items ≡ take (length traces.old.items - 1) traces.old.items }
{
    if let Some(trace) = traces.pop() {
        set_back(tables, trace);
    }
}

fn set_back(tables: &mut MemTables, trace: Trace)
    ensures { tables.new ≡ back trace tables.old }
{
    let Trace { table, place } = trace;
    let at = table as usize;
    if at < tables.len() {
        tables.item_mut(at).set_back(place);
    }
}

/// Takes away the places that were left with nothing. The rows stay as they are. It takes no memory.
pub(crate) fn sweep(tables: &mut MemTables, traces: &[Trace])
    ensures { SweepsLists tables.old tables.new }
{
    for trace in traces {
        sweep_one(tables, trace);
    }
}

fn sweep_one(tables: &mut MemTables, trace: &Trace)
    ensures { SweepsLists tables.old tables.new }
{
    let at = trace.table as usize;
    if at < tables.len() {
        tables.item_mut(at).sweep(&trace.place);
    }
}
