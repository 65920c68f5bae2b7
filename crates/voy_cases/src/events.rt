use crate::schemas::{push_table_name, schema_of};
use crate::values::push_row;
use std::alloc::Global;
use voy_case_text::{Case, Trouble};
use voy_event::{Event, LineError, Recorded, What, read_change, read_line, write_line};
use voy_schema::{Bytes, Copies, Schema};
use voy_tables::{Change, Role};

/// The event that an event line states, or why it states none.
pub fn event(alloc: Global, case: &Case) -> Result<String, Trouble> {
    let schema = schema_of(alloc, case)?;
    let line = case.bytes(alloc)?;
    match read_line(alloc, &schema, line.as_slice()) {
        Ok(event) => shown_event(alloc, &schema, &event),
        Err(error) => refused(alloc, error),
    }
}

/// The change that a recorded line states with its place in the stream, or why it states none.
pub fn recorded(alloc: Global, case: &Case) -> Result<String, Trouble> {
    let schema = schema_of(alloc, case)?;
    let line = case.bytes(alloc)?;
    match read_change(alloc, &schema, line.as_slice()) {
        Ok(recorded) => shown_recorded(alloc, &schema, &recorded),
        Err(error) => refused(alloc, error),
    }
}

/// The canonical line of the event that a line states, and its number of bytes.
pub fn written(alloc: Global, case: &Case) -> Result<String, Trouble> {
    let schema = schema_of(alloc, case)?;
    let line = case.bytes(alloc)?;
    let written = written_again(alloc, &schema, line.as_slice())?;
    let again = written_again(alloc, &schema, written.as_slice())?;
    if again.as_slice() != written.as_slice() {
        return Err(Trouble::Apart("the canonical line is written otherwise"));
    }
    shown_line(alloc, written.as_slice())
}

/// The line that is written of a copy of the event that was read.
#[tactic(auto, using(voy_event::specs::EventLaws::lawful_is_writable))]
fn written_again(alloc: Global, schema: &Schema, line: &[u8]) -> Result<Bytes, Trouble> {
    let Ok(event) = read_line(alloc, schema, line) else {
        return Err(Trouble::Case("no event"));
    };
    let copied = event.copy()?;
    let mut written = Bytes::new(alloc);
    write_line(alloc, schema, &copied, &mut written)?;
    Ok(written)
}

/// The event line with the vsn 1 that the source's exporter writes of a recorded line.
pub fn exported(alloc: Global, case: &Case) -> Result<String, Trouble> {
    let schema = schema_of(alloc, case)?;
    let line = case.bytes(alloc)?;
    let Ok(recorded) = read_change(alloc, &schema, line.as_slice()) else {
        return Err(Trouble::Case("no change"));
    };
    let event = Event {
        vsn: 1,
        role: Role::Source,
        what: What::Change(recorded.change),
    };
    let mut written = Bytes::new(alloc);
    write_line(alloc, &schema, &event, &mut written)?;
    shown_line(alloc, written.as_slice())
}

/// The line as it stands, behind its number of bytes.
fn shown_line(alloc: Global, line: &[u8]) -> Result<String, Trouble> {
    let Ok(text) = str::from_utf8(line) else {
        return Err(Trouble::Apart("the written line is no text"));
    };
    let count = line.len();
    let shown = format!(in alloc; "{count} bytes {text}")?;
    Ok(shown)
}

fn refused(alloc: Global, error: LineError) -> Result<String, Trouble> {
    match error {
        LineError::Bad(why) => {
            let why = why.text();
            let shown = format!(in alloc; "refused, {why}")?;
            Ok(shown)
        }
        LineError::NoMemory => Err(Trouble::NoMemory),
    }
}

fn shown_event(alloc: Global, schema: &Schema, event: &Event) -> Result<String, Trouble> {
    let vsn = event.vsn;
    let role = match event.role {
        Role::Source => "source",
        Role::Target => "target",
    };
    let mut shown = format!(in alloc; "vsn {vsn} of the {role}, ")?;
    match &event.what {
        What::Change(change) => push_change(alloc, schema, change, &mut shown)?,
        What::CutoverTarget => shown.push_str("cutover to the target")?,
        What::CutoverSource => shown.push_str("cutover to the source")?,
    }
    Ok(shown)
}

fn shown_recorded(alloc: Global, schema: &Schema, recorded: &Recorded) -> Result<String, Trouble> {
    let commit = recorded.spot.commit;
    let seq = recorded.spot.seq;
    let mut shown = format!(in alloc; "commit {commit}, place {seq}, ")?;
    push_change(alloc, schema, &recorded.change, &mut shown)?;
    Ok(shown)
}

/// Appends what the change does, its table, and its rows.
fn push_change(
    alloc: Global,
    schema: &Schema,
    change: &Change,
    to: &mut String,
) -> Result<(), Trouble> {
    let verb = match change {
        Change::Insert { .. } => "insert into ",
        Change::Update { .. } => "update in ",
        Change::Delete { .. } => "delete from ",
    };
    to.push_str(verb)?;
    push_table_name(schema, change.table(), to)?;
    to.push(' ')?;
    match change {
        Change::Insert { after, .. } => push_row(alloc, after, to),
        Change::Update { before, after, .. } => {
            push_row(alloc, before, to)?;
            to.push_str(" to ")?;
            push_row(alloc, after, to)
        }
        Change::Delete { before, .. } => push_row(alloc, before, to),
    }
}
