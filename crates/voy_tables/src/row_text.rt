ghost use Rattle.std.specs.Prelude.{◌≡◌, ◌++◌, [], ◌∷◌, map, IfOk, OnOk, OnErr};
ghost use Rattle.csv.specs.Records.{fields_of, partial_of};
ghost use Rattle.csv.specs.Writing.{default_writer, row_text};
ghost use Rattle.voy_tables.specs.RowText.{field_of, row_line, text_field};

use crate::escaping::{BACKSLASH, NULL_FIELD, begins_with_backslash};
use csv::{ByteRecord, WriterBuilder};
use std::alloc::{AllocError, Global};
use voy_schema::{Bytes, Row, Value};

/// Appends the text of `row` to `to`: its fields with commas between, ended by LF. NULL is the field
/// `\N`, and a text that begins with a backslash has one more in front. A row of no values, which no
/// table has, gets the text of one empty field. After an error `to` is as before.
#[tactic(auto, unfolding(crate::specs::RowText::row_line))]
pub fn write_row(alloc: Global, row: &Row, to: &mut Bytes) -> Result<(), AllocError>
    ensures ok { OnOk result (to.new ≡ to.old ++ row_line row.now) }
    ensures err { OnErr result (to.new ≡ to.old) }
{
    let mut line = ByteRecord::new(alloc);
    push_values(alloc, row.as_slice(), &mut line)?;
    let text = record_text(alloc, &line)?;
    to.append_slice(text.as_slice())
}

/// Puts the fields of these values into a record that has none.
fn push_values(alloc: Global, values: &[Value], line: &mut ByteRecord) -> Result<(), AllocError>
    requires empty { fields_of line.old ≡ [] }
    requires whole { partial_of line.old ≡ [] }
    ensures { OnOk result (fields_of line.new ≡ map field_of values.now) }
{
    for value in values {
        push_value(alloc, value, line)?;
    }
    Ok(())
}

fn push_value(alloc: Global, value: &Value, line: &mut ByteRecord) -> Result<(), AllocError>
    requires { partial_of line.old ≡ [] }
    ensures fields { OnOk result (fields_of line.new ≡ fields_of line.old ++ field_of value.now ∷ []) }
    ensures whole { OnOk result (partial_of line.new ≡ []) }
{
    match value {
        Value::Null => line.push_field(NULL_FIELD),
        Value::Text(text) => push_text(alloc, text.as_str().as_bytes(), line),
    }
}

fn push_text(alloc: Global, text: &[u8], line: &mut ByteRecord) -> Result<(), AllocError>
    requires { partial_of line.old ≡ [] }
    ensures fields { OnOk result (fields_of line.new ≡ fields_of line.old ++ text_field text.now ∷ []) }
    ensures whole { OnOk result (partial_of line.new ≡ []) }
{
    if !begins_with_backslash(text) {
        return line.push_field(text);
    }
    let mut escaped = Vec::new(alloc);
    escaped.push(BACKSLASH)?;
    escaped.extend_from_slice(text)?;
    line.push_field(escaped.as_slice())
}

/// The text of a record, as `csv` writes it by default. Over memory it fails only for want of memory.
fn record_text(alloc: Global, line: &ByteRecord) -> Result<Vec<u8>, AllocError>
    ensures { IfOk result (λ text. text.items ≡ row_text default_writer (fields_of line.now)) }
{
    let mut writer = WriterBuilder::new().from_writer(Vec::new(alloc));
    if writer.write_byte_record(line).is_err() {
        return Err(AllocError);
    }
    match writer.into_inner() {
        Ok(text) => Ok(text),
        Err(_) => Err(AllocError),
    }
}
