ghost use Rattle.std.specs.Prelude.{◌≡◌, IfOk, option_map};
ghost use Rattle.std.specs.List.{list_all};
ghost use Rattle.serde_json.specs.View.{view};
ghost use Rattle.voy_json.specs.Document.{names_of};
ghost use Rattle.voy_event.specs.Fields.{agrees_at, is_column, is_key_column, is_key_of_row, is_name_at, is_null, names_in, row_at, row_of, value_of};

use serde_json::Value as Json;
use std::alloc::{AllocError, Global};
use voy_json::text_at;
use voy_schema::{Column, Items, Row, Table, Text, Value, is_lawful_row};
use voy_tables::key_text;

/// Whether the object that may stand there has no name but those of the table's columns. Of what is no
/// object nothing is asked.
pub(crate) fn has_only_columns(table: &Table, value: Option<&Json>) -> bool
    ensures { result ≡ list_all (is_column table.now) (names_in (option_map (λ v. view v.now) value.entry)) }
{
    match value {
        Some(value) => names_are_columns(table, value),
        None => true,
    }
}

fn names_are_columns(table: &Table, value: &Json) -> bool
    ensures { result ≡ list_all (is_column table.now) (names_of (view value.now)) }
{
    match value.as_object() {
        Some(members) => members.keys().all(|name| is_column(table, name.as_str())),
        None => true,
    }
}

fn is_column(table: &Table, name: &str) -> bool
    ensures { result ≡ is_column table.now name.now }
{
    table
        .columns
        .as_slice()
        .iter()
        .any(|column| name == column.name.as_str())
}

pub(crate) fn is_null(value: Option<&Json>) -> bool
    ensures { result ≡ is_null (option_map (λ v. view v.now) value.entry) }
{
    matches!(value, Some(Json::Null))
}

/// The row at this name of a line, where it is lawful for the table and the line's key agrees with it.
pub(crate) fn row_at(
    alloc: Global,
    table: &Table,
    name: &str,
    line: &Json,
) -> Result<Option<Row>, AllocError>
    ensures { IfOk result (λ found. found ≡ row_at table.now name.now (view line.now)) }
{
    let Some(key) = line.get("key") else {
        return Ok(None);
    };
    let Some(fields) = line.get(name) else {
        return Ok(None);
    };
    let Some(row) = row_of(alloc, table.columns.as_slice(), fields)? else {
        return Ok(None);
    };
    if is_lawful_row(table, &row) && is_key_of_row(table, key, &row) {
        Ok(Some(row))
    } else {
        Ok(None)
    }
}

/// The values that the object has in these columns, in their order.
fn row_of(alloc: Global, columns: &[Column], fields: &Json) -> Result<Option<Row>, AllocError>
    ensures { IfOk result (λ found. found ≡ row_of columns.now (view fields.now)) }
{
    let mut row = Items::with_capacity(alloc, columns.len())?;
    for column in columns {
        let Some(field) = fields.get(column.name.as_str()) else {
            return Ok(None);
        };
        let Some(value) = value_of(alloc, field)? else {
            return Ok(None);
        };
        row.push(value)?;
    }
    Ok(Some(row))
}

fn value_of(alloc: Global, field: &Json) -> Result<Option<Value>, AllocError>
    ensures { IfOk result (λ found. found ≡ value_of (view field.now)) }
{
    match field {
        Json::Null => Ok(Some(Value::Null)),
        Json::String(text) => Ok(Some(Value::Text(Text::from_str(alloc, text.as_str())?))),
        _ => Ok(None),
    }
}

/// Whether the object has the columns of the primary key and no other, each with the row's text there.
fn is_key_of_row(table: &Table, key: &Json, row: &Row) -> bool
    ensures { result ≡ is_key_of_row table.now (view key.now) row.now }
{
    has_only_key_columns(table, key) && agrees(table, key, row)
}

fn has_only_key_columns(table: &Table, key: &Json) -> bool
    ensures { result ≡ list_all (is_key_column table.now) (names_of (view key.now)) }
{
    match key.as_object() {
        Some(members) => members
            .keys()
            .all(|name| is_key_column(table, name.as_str())),
        None => true,
    }
}

fn is_key_column(table: &Table, name: &str) -> bool
    ensures { result ≡ is_key_column table.now name.now }
{
    table
        .primary_key
        .as_slice()
        .iter()
        .any(|place| is_name_at(table, name, *place))
}

/// Whether the key has the row's text in each column of the primary key.
fn agrees(table: &Table, key: &Json, row: &Row) -> bool
    ensures { result ≡ list_all (agrees_at table.now (view key.now) row.now) table.now.primary_key }
{
    table
        .primary_key
        .as_slice()
        .iter()
        .all(|place| agrees_at(table, key, row, *place))
}

fn is_name_at(table: &Table, name: &str, place: u32) -> bool
    ensures { result ≡ is_name_at table.now name.now place }
{
    match table.columns.get(place as usize) {
        Some(column) => name == column.name.as_str(),
        None => false,
    }
}

/// Whether the key has, in the column at this place, the text that the row has there.
fn agrees_at(table: &Table, key: &Json, row: &Row, place: u32) -> bool
    ensures { result ≡ agrees_at table.now (view key.now) row.now place }
{
    match table.columns.get(place as usize) {
        Some(column) => match text_at(key, column.name.as_str()) {
            Some(text) => key_text(row, place) == text,
            None => false,
        },
        None => false,
    }
}
