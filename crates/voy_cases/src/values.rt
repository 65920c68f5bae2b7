use serde_json::Value as Json;
use std::alloc::Global;
use voy_case_text::{Trouble, quoted};
use voy_json::{ParseError, parse};
use voy_schema::{Row, Rows, Text, Value};

/// The JSON document that a case writes.
fn json_of(alloc: Global, written: &str) -> Result<Json, Trouble> {
    match parse(alloc, written.as_bytes()) {
        Ok(json) => Ok(json),
        Err(ParseError::NotJson) => Err(Trouble::Case("no JSON")),
        Err(ParseError::NoMemory) => Err(Trouble::NoMemory),
    }
}

/// The value that is written as a JSON string, or as `null` for NULL.
pub fn value_of(alloc: Global, written: &str) -> Result<Value, Trouble> {
    let json = json_of(alloc, written)?;
    stated_value(alloc, &json)
}

fn stated_value(alloc: Global, json: &Json) -> Result<Value, Trouble> {
    match json {
        Json::Null => Ok(Value::Null),
        Json::String(text) => Ok(Value::Text(Text::from_str(alloc, text.as_str())?)),
        _ => Err(Trouble::Case("no value")),
    }
}

/// The row that is written as a JSON list of its values.
pub fn row_of(alloc: Global, written: &str) -> Result<Row, Trouble> {
    let json = json_of(alloc, written)?;
    let Some(values) = json.as_array() else {
        return Err(Trouble::Case("no list of values"));
    };
    let mut row = Row::new(alloc);
    for value in values.as_slice() {
        row.push(stated_value(alloc, value)?)?;
    }
    Ok(row)
}

/// The rows that are written so, one on each line.
pub fn rows_of(alloc: Global, lines: &str) -> Result<Rows, Trouble> {
    let mut rows = Rows::new(alloc);
    for line in lines.lines() {
        rows.push(row_of(alloc, line)?)?;
    }
    Ok(rows)
}

/// The text in the row's column at `place`, and nothing where it is NULL.
pub fn text_at(row: &Row, place: usize) -> &str {
    match row.get(place) {
        Some(Value::Text(text)) => text.as_str(),
        _ => "",
    }
}

/// Appends the rows, each between parentheses, with blanks between them.
pub fn push_rows(alloc: Global, rows: &[Row], to: &mut String) -> Result<(), Trouble> {
    for (at, row) in rows.iter().enumerate() {
        if at > 0 {
            to.push(' ')?;
        }
        push_row(alloc, row, to)?;
    }
    Ok(())
}

/// Appends the row's values between parentheses, texts as they are quoted and NULL as `NULL`.
pub fn push_row(alloc: Global, row: &Row, to: &mut String) -> Result<(), Trouble> {
    to.push('(')?;
    for (at, value) in row.as_slice().iter().enumerate() {
        if at > 0 {
            to.push_str(", ")?;
        }
        push_value(alloc, value, to)?;
    }
    to.push(')')?;
    Ok(())
}

fn push_value(alloc: Global, value: &Value, to: &mut String) -> Result<(), Trouble> {
    match value {
        Value::Null => to.push_str("NULL")?,
        Value::Text(text) => {
            let shown = quoted(alloc, text.as_str())?;
            to.push_str(shown.as_str())?;
        }
    }
    Ok(())
}

/// Appends what was asked on one line of a case, and the answer to it, with a semicolon in front of all but
/// the first.
pub fn push_answer(to: &mut String, asked: &str, answer: &str) -> Result<(), Trouble> {
    if !to.is_empty() {
        to.push_str("; ")?;
    }
    to.push_str(asked)?;
    to.push_str(" is ")?;
    to.push_str(answer)?;
    Ok(())
}
