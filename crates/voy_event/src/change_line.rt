ghost use Rattle.std.specs.Prelude.{◌≡◌, IfOk, IfErr, map, option_map};
ghost use Rattle.serde_json.specs.View.{view};
ghost use Rattle.voy_event.specs.ChangeLine.{change_of, has_known_columns, has_long_row, seen, table_named};
ghost use Rattle.voy_event.specs.InTurn.{table_in_turn, within_limit};
ghost use Rattle.voy_schema.specs.Refusal.{Refuses};
ghost use Rattle.voy_event.specs.Refusal.{cause_of};

use crate::fields::{has_only_columns, is_null, row_at};
use crate::line_error::{LineError, LineWhy};
use crate::words::Op;
use serde_json::Value as Json;
use std::alloc::{AllocError, Global};
use voy_json::{has_all, has_only, text_at};
use voy_schema::{Schema, Table};
use voy_tables::{Change, row_text_is_too_long};

/// A table of the schema, with its place there.
#[derive(Clone, Copy)]
pub(crate) struct Placed<'a> {
    pub(crate) place: u32,
    pub(crate) table: &'a Table,
}

/// The table of a line that must have just these names.
pub(crate) fn table_of_line<'a>(
    schema: &'a Schema,
    names: &[&str],
    line: &Json,
) -> Result<Placed<'a>, LineWhy>
    ensures ok { IfOk result (λ placed.
        table_in_turn schema.now.tables (map (λ name. name.now) names.now) (view line.now) ≡ Ok (seen placed)) }
    ensures err { IfErr result (λ cause.
        table_in_turn schema.now.tables (map (λ name. name.now) names.now) (view line.now) ≡ Err cause) }
{
    if !has_all(line, names) {
        return Err(LineWhy::Missing);
    }
    if !has_only(line, names) {
        return Err(LineWhy::Unknown);
    }
    let Some(schema_name) = text_at(line, "schema_name") else {
        return Err(LineWhy::BadValue);
    };
    let Some(table_name) = text_at(line, "table_name") else {
        return Err(LineWhy::BadValue);
    };
    let Some(placed) = table_named(schema, schema_name, table_name) else {
        return Err(LineWhy::Unknown);
    };
    if has_known_columns(placed.table, line) {
        Ok(placed)
    } else {
        Err(LineWhy::Unknown)
    }
}

fn table_named<'a>(schema: &'a Schema, schema_name: &str, table_name: &str) -> Option<Placed<'a>>
    ensures { option_map seen result ≡ table_named schema.now.tables schema_name.now table_name.now }
{
    let place = schema.find(schema_name, table_name)?;
    let table = schema.tables.get(place as usize)?;
    Some(Placed { place, table })
}

/// Whether the objects of column values have no name but those of the table's columns.
fn has_known_columns(table: &Table, line: &Json) -> bool
    ensures { result ≡ has_known_columns table.now (view line.now) }
{
    has_only_columns(table, line.get("key"))
        && has_only_columns(table, line.get("fields"))
        && has_only_columns(table, line.get("before_fields"))
}

/// The change that the line states, with its rows within their limit.
pub(crate) fn read_row_change(
    alloc: Global,
    op: Op,
    placed: &Placed,
    line: &Json,
) -> Result<Change, LineError>
    ensures ok { IfOk result (λ change.
        within_limit (change_of op (seen placed.now) (view line.now)) ≡ Ok change) }
    ensures err { IfErr result
        (Refuses cause_of (within_limit (change_of op (seen placed.now) (view line.now)))) }
{
    let Some(change) = change_of(alloc, op, placed, line)? else {
        return Err(LineError::Bad(LineWhy::BadValue));
    };
    if has_long_row(&change) {
        return Err(LineError::Bad(LineWhy::TooLong));
    }
    Ok(change)
}

/// The change that the line states; nothing where a rule on its values is broken.
fn change_of(
    alloc: Global,
    op: Op,
    placed: &Placed,
    line: &Json,
) -> Result<Option<Change>, AllocError>
    ensures { IfOk result (λ found. found ≡ change_of op (seen placed.now) (view line.now)) }
{
    match op {
        Op::Insert => insert_of(alloc, placed, line),
        Op::Update => update_of(alloc, placed, line),
        Op::Delete => delete_of(alloc, placed, line),
    }
}

fn insert_of(alloc: Global, placed: &Placed, line: &Json) -> Result<Option<Change>, AllocError>
    ensures { IfOk result (λ found. found ≡ change_of Op.Insert (seen placed.now) (view line.now)) }
{
    if !is_null(line.get("before_fields")) {
        return Ok(None);
    }
    let Some(after) = row_at(alloc, placed.table, "fields", line)? else {
        return Ok(None);
    };
    Ok(Some(Change::Insert {
        table: placed.place,
        after,
    }))
}

fn update_of(alloc: Global, placed: &Placed, line: &Json) -> Result<Option<Change>, AllocError>
    ensures { IfOk result (λ found. found ≡ change_of Op.Update (seen placed.now) (view line.now)) }
{
    let Some(before) = row_at(alloc, placed.table, "before_fields", line)? else {
        return Ok(None);
    };
    let Some(after) = row_at(alloc, placed.table, "fields", line)? else {
        return Ok(None);
    };
    Ok(Some(Change::Update {
        table: placed.place,
        before,
        after,
    }))
}

fn delete_of(alloc: Global, placed: &Placed, line: &Json) -> Result<Option<Change>, AllocError>
    ensures { IfOk result (λ found. found ≡ change_of Op.Delete (seen placed.now) (view line.now)) }
{
    if !is_null(line.get("fields")) {
        return Ok(None);
    }
    let Some(before) = row_at(alloc, placed.table, "before_fields", line)? else {
        return Ok(None);
    };
    Ok(Some(Change::Delete {
        table: placed.place,
        before,
    }))
}

pub(crate) fn has_long_row(change: &Change) -> bool
    ensures { result ≡ has_long_row change.now }
{
    match change {
        Change::Insert { after, .. } => row_text_is_too_long(after),
        Change::Update { before, after, .. } => {
            row_text_is_too_long(before) || row_text_is_too_long(after)
        }
        Change::Delete { before, .. } => row_text_is_too_long(before),
    }
}
