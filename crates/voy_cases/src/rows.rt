use crate::schemas::schema_of;
use crate::values::{push_rows, row_of, rows_of, text_at};
use std::alloc::Global;
use voy_case_text::{Case, Trouble, number_of, quoted};
use voy_report::table_text;
use voy_schema::{Bytes, Row, Rows, Schema, Table, Text, Value};
use voy_tables::{RowError, read_recorded, read_rows, row_text_is_too_long, write_row};

/// The rows of the schema's first table that a text without a header states.
pub fn rows(alloc: Global, case: &Case) -> Result<String, Trouble> {
    let schema = schema_of(alloc, case)?;
    let text = case.bytes(alloc)?;
    let read = read_rows(alloc, first_table(&schema)?, text.as_slice());
    shown_rows(alloc, &read)
}

/// The rows of the schema's first table that a recorded file states.
pub fn recorded(alloc: Global, case: &Case) -> Result<String, Trouble> {
    let schema = schema_of(alloc, case)?;
    let text = case.bytes(alloc)?;
    let read = read_recorded(alloc, first_table(&schema)?, text.as_slice());
    shown_rows(alloc, &read)
}

fn first_table(schema: &Schema) -> Result<&Table, Trouble> {
    match schema.table(0) {
        Some(table) => Ok(table),
        None => Err(Trouble::Apart("a schema has no table")),
    }
}

/// The rows, or the record that is refused and why.
fn shown_rows(alloc: Global, read: &Result<Rows, RowError>) -> Result<String, Trouble> {
    match read {
        Ok(rows) => {
            let mut shown = counted(alloc, rows.len())?;
            push_rows(alloc, rows.as_slice(), &mut shown)?;
            Ok(shown)
        }
        Err(RowError::Bad { line, why }) => {
            let why = (*why).text();
            let shown = format!(in alloc; "record {line} is refused, {why}")?;
            Ok(shown)
        }
        Err(RowError::NoMemory) => Err(Trouble::NoMemory),
    }
}

/// The number of rows in words, and what stands between it and the rows.
fn counted(alloc: Global, count: usize) -> Result<String, Trouble> {
    let shown = match count {
        0 => String::from_str(alloc, "no rows")?,
        1 => String::from_str(alloc, "1 row ")?,
        _ => format!(in alloc; "{count} rows ")?,
    };
    Ok(shown)
}

/// The row that the case's pieces write as a JSON list.
fn written_row(alloc: Global, case: &Case) -> Result<Row, Trouble> {
    let bytes = case.bytes(alloc)?;
    match str::from_utf8(bytes.as_slice()) {
        Ok(text) => row_of(alloc, text),
        Err(_) => Err(Trouble::Case("no text")),
    }
}

/// The text of a row.
pub fn row(alloc: Global, case: &Case) -> Result<String, Trouble> {
    let row = written_row(alloc, case)?;
    let mut text = Bytes::new(alloc);
    text.push(b'>')?;
    write_row(alloc, &row, &mut text)?;
    shown_behind(alloc, text.as_slice())
}

/// Whether the text of a row is within its limit.
pub fn limit(alloc: Global, case: &Case) -> Result<String, Trouble> {
    let row = written_row(alloc, case)?;
    let answer = if row_text_is_too_long(&row) {
        "too long"
    } else {
        "not too long"
    };
    let answer = String::from_str(alloc, answer)?;
    Ok(answer)
}

/// The text that is printed of the schema's first table with these rows.
pub fn table(alloc: Global, case: &Case) -> Result<String, Trouble> {
    let schema = schema_of(alloc, case)?;
    let rows = rows_of(alloc, case.rows)?;
    let mut text = Bytes::new(alloc);
    text.push(b'>')?;
    table_text(alloc, first_table(&schema)?, rows.as_slice(), &mut text)?;
    shown_behind(alloc, text.as_slice())
}

/// What was appended to the one byte `>`, as a quoted text.
fn shown_behind(alloc: Global, text: &[u8]) -> Result<String, Trouble> {
    let Some(appended) = text.strip_prefix(b">") else {
        return Err(Trouble::Apart("what stood there is gone"));
    };
    match str::from_utf8(appended) {
        Ok(appended) => quoted(alloc, appended),
        Err(_) => Err(Trouble::Apart("what was written is no text")),
    }
}

/// Whether made rows of two columns read back from their texts. The first column of the n-th is n; its second is
/// NULL where 7 divides n, and else three of the parts, those that the last three digits of n are to the base
/// of their number.
pub fn made(alloc: Global, case: &Case) -> Result<String, Trouble> {
    let schema = schema_of(alloc, case)?;
    let Some((_, count)) = case.words.split_once(' ') else {
        return Err(Trouble::Case("no number of rows"));
    };
    let parts = row_of(alloc, case.rows)?;
    let rows = made_rows(alloc, &parts, number_of(count)?)?;
    let mut text = Bytes::new(alloc);
    for row in rows.as_slice() {
        write_row(alloc, row, &mut text)?;
    }
    let Ok(back) = read_rows(alloc, first_table(&schema)?, text.as_slice()) else {
        return Err(Trouble::Apart("made rows do not read"));
    };
    let answer = if back == rows {
        "the same rows"
    } else {
        "other rows"
    };
    let answer = String::from_str(alloc, answer)?;
    Ok(answer)
}

fn made_rows(alloc: Global, parts: &Row, count: u64) -> Result<Rows, Trouble> {
    let mut rows = Rows::new(alloc);
    for number in 0..count {
        rows.push(made_row(alloc, parts, number)?)?;
    }
    Ok(rows)
}

fn made_row(alloc: Global, parts: &Row, number: u64) -> Result<Row, Trouble> {
    let id = format!(in alloc; "{number}")?;
    let mut row = Row::new(alloc);
    row.push(Value::Text(Text::from_str(alloc, id.as_str())?))?;
    if number % 7 == 0 {
        row.push(Value::Null)?;
        return Ok(row);
    }
    let base = parts.len() as u64;
    let mut text = String::new(alloc);
    let mut left = number;
    for _digit in 0..3 {
        if base > 0 {
            text.push_str(text_at(parts, (left % base) as usize))?;
            left /= base;
        }
    }
    row.push(Value::Text(Text::from_str(alloc, text.as_str())?))?;
    Ok(row)
}
