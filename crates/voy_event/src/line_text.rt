ghost use Rattle.std.specs.Prelude.{◌≡◌, ◌++◌, slice_get, IfOk, OnOk, OnErr};
ghost use Rattle.serde_json.specs.View.{members_view, view};
ghost use Rattle.voy_schema.specs.Rows.{text_of, value_at};
ghost use Rattle.voy_event.specs.LawfulEvent.{IsWritable, IsWritableChange};
ghost use Rattle.voy_event.specs.LineText.{after_data, before_data, change_data, cutover_data, event_data, key_data, line_text, op_text, row_data, value_data, with_text};
ghost use Rattle.voy_tables.specs.Changes.{keyed_row};
ghost use Rattle.voy_tables.specs.Changes.{table_of};

use crate::event::{Event, What};
use crate::words::text_of_role;
use serde_json::{Map, Value as Json, json};
use std::alloc::{AllocError, Global};
use voy_schema::{Bytes, Column, Row, Schema, Table, Value};
use voy_tables::{Change, Role, key_text};

/// Appends the canonical text of the event's line to `to`, without LF. It asks an event that belongs to
/// the schema, with a vsn from 1. After an error `to` is as before.
pub fn write_line(
    alloc: Global,
    schema: &Schema,
    event: &Event,
    to: &mut Bytes,
) -> Result<(), AllocError>
    requires { IsWritable schema.now.tables event.now }
    ensures ok { OnOk result (to.new ≡ to.old ++ line_text schema.now.tables event.now) }
    ensures err { OnErr result (to.new ≡ to.old) }
{
    let line = event_value(alloc, schema, event)?;
    let text = line.to_vec(alloc)?;
    to.append_slice(text.as_slice())
}

fn event_value(alloc: Global, schema: &Schema, event: &Event) -> Result<Json, AllocError>
    requires { IsWritable schema.now.tables event.now }
    ensures { IfOk result (λ v. view v ≡ event_data schema.now.tables event.now) }
{
    match &event.what {
        What::Change(change) => {
            let table = changed_table(schema, change);
            change_value(alloc, table, event.vsn, event.role, change)
        }
        What::CutoverTarget => cutover_value(alloc, "cutover.target", event.vsn, event.role),
        What::CutoverSource => cutover_value(alloc, "cutover.source", event.vsn, event.role),
    }
}

fn changed_table<'a>(schema: &'a Schema, change: &Change) -> &'a Table
    requires { IsWritableChange schema.now.tables change.now }
    ensures { slice_get schema.now.tables (table_of change.now) ≡ Some result.now }
{
    match schema.tables.get(change.table() as usize) {
        Some(table) => table,
        None => unreachable!(),
    }
}

#[tactic(auto, unfolding(crate::specs::LineText::change_data))]
fn change_value(
    alloc: Global,
    table: &Table,
    vsn: u64,
    role: Role,
    change: &Change,
) -> Result<Json, AllocError>
    ensures { IfOk result (λ v. view v ≡ change_data table.now vsn role change.now) }
{
    let before_fields = before_value(alloc, table, change)?;
    let fields = after_value(alloc, table, change)?;
    let key = key_value(alloc, table, keyed_row(change))?;
    let role_text = text_of_role(role);
    let op = op_text(change);
    let schema_name = table.schema_name.as_str();
    let table_name = table.table_name.as_str();
    json!(in alloc; {
        "before_fields": before_fields,
        "exporter_role": role_text,
        "fields": fields,
        "key": key,
        "op": op,
        "schema_name": schema_name,
        "table_name": table_name,
        "vsn": vsn,
    })
}

#[tactic(auto, unfolding(crate::specs::LineText::cutover_data))]
fn cutover_value(alloc: Global, op: &str, vsn: u64, role: Role) -> Result<Json, AllocError>
    ensures { IfOk result (λ v. view v ≡ cutover_data op.now vsn role) }
{
    let role_text = text_of_role(role);
    json!(in alloc; {"exporter_role": role_text, "op": op, "vsn": vsn})
}

pub(crate) fn op_text(change: &Change) -> &'static str
    ensures { result.now ≡ op_text change.now }
{
    match change {
        Change::Insert { .. } => "c",
        Change::Update { .. } => "u",
        Change::Delete { .. } => "d",
    }
}

/// A row of the change, whose key is the key of each.
pub(crate) fn keyed_row(change: &Change) -> &Row
    ensures { result.now ≡ keyed_row change.now }
{
    match change {
        Change::Insert { after, .. } => after,
        Change::Update { before, .. } => before,
        Change::Delete { before, .. } => before,
    }
}

fn before_value(alloc: Global, table: &Table, change: &Change) -> Result<Json, AllocError>
    ensures { IfOk result (λ v. view v ≡ before_data table.now change.now) }
{
    match change {
        Change::Insert { .. } => Ok(Json::Null),
        Change::Update { before, .. } => row_value(alloc, table.columns.as_slice(), before),
        Change::Delete { before, .. } => row_value(alloc, table.columns.as_slice(), before),
    }
}

fn after_value(alloc: Global, table: &Table, change: &Change) -> Result<Json, AllocError>
    ensures { IfOk result (λ v. view v ≡ after_data table.now change.now) }
{
    match change {
        Change::Insert { after, .. } => row_value(alloc, table.columns.as_slice(), after),
        Change::Update { after, .. } => row_value(alloc, table.columns.as_slice(), after),
        Change::Delete { .. } => Ok(Json::Null),
    }
}

/// The row as an object of column values.
fn row_value(alloc: Global, columns: &[Column], row: &Row) -> Result<Json, AllocError>
    ensures { IfOk result (λ v. view v ≡ row_data columns.now row.now) }
{
    let mut found = Map::new(alloc);
    for (column, value) in columns.iter().zip(row.as_slice()) {
        let value = value_of(alloc, value)?;
        serde_json::put(&mut found, alloc, column.name.as_str(), value)?;
    }
    Ok(Json::Object(found))
}

fn value_of(alloc: Global, value: &Value) -> Result<Json, AllocError>
    ensures { IfOk result (λ v. view v ≡ value_data value.now) }
{
    match value {
        Value::Null => Ok(Json::Null),
        Value::Text(text) => Ok(Json::String(String::from_str(alloc, text.as_str())?)),
    }
}

/// The key of the row as an object.
fn key_value(alloc: Global, table: &Table, row: &Row) -> Result<Json, AllocError>
    ensures { IfOk result (λ v. view v ≡ key_data table.now row.now) }
{
    let mut found = Map::new(alloc);
    for place in table.primary_key.as_slice() {
        put_text(alloc, &mut found, table, row, *place)?;
    }
    Ok(Json::Object(found))
}

/// Puts in the column at this place with the row's text there. After an error `found` is as before.
fn put_text(
    alloc: Global,
    found: &mut Map<String, Json>,
    table: &Table,
    row: &Row,
    place: u32,
) -> Result<(), AllocError>
    ensures { OnOk result (members_view found.new.entries
        ≡ with_text (slice_get table.now.columns place) (text_of (value_at row.now place))
        (members_view found.old.entries)) }
{
    let Some(column) = table.columns.get(place as usize) else {
        return Ok(());
    };
    let text = String::from_str(alloc, key_text(row, place))?;
    serde_json::put(found, alloc, column.name.as_str(), Json::String(text))
}
