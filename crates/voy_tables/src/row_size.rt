ghost use Rattle.std.specs.Prelude.{◌≡◌, ◌==◌, ◌+◌, count_by, ◌<◌, ◌≤◌, length, MatchOption};
ghost use Rattle.csv.specs.Quoting.{needs_byte};
ghost use Rattle.csv.specs.Writing.{default_writer, field_text, needs_quotes};
ghost use Rattle.voy_tables.specs.RowText.{field_of, is_too_long, text_field};

use crate::escaping::{NULL_FIELD, begins_with_backslash};
use voy_schema::{Row, Value};

/// The most bytes that the text of a row may have, its LF counted. A longer row is refused where it is read.
pub const MAX_ROW_TEXT_BYTES: usize = 1_048_576;

/// Whether the text of `row` has more than [`MAX_ROW_TEXT_BYTES`] bytes. It takes no memory.
pub fn row_text_is_too_long(row: &Row) -> bool
    ensures { result ≡ is_too_long row.now }
{
    let mut left = MAX_ROW_TEXT_BYTES;
    for value in row.as_slice() {
        let Some(size) = field_size(value, left) else {
            return true;
        };
        // Each field has a comma or the LF behind it.
        if size >= left {
            return true;
        }
        left -= size + 1;
    }
    false
}

/// The bytes of a value's field with its quotes, if there are no more than `most`.
fn field_size(value: &Value, most: usize) -> Option<usize>
    requires { most ≤ MAX_ROW_TEXT_BYTES }
    ensures { MatchOption result (most < length (field_text default_writer (field_of value.now))) (λ size. size ≡ length (field_text default_writer (field_of value.now))) }
{
    match value {
        Value::Null => Some(NULL_FIELD.len()),
        Value::Text(text) => text_size(text.as_str().as_bytes(), most),
    }
}

fn text_size(text: &[u8], most: usize) -> Option<usize>
    requires { most ≤ MAX_ROW_TEXT_BYTES }
    ensures { MatchOption result (most < length (field_text default_writer (text_field text.now))) (λ size. size ≡ length (field_text default_writer (text_field text.now))) }
{
    if text.len() > most {
        return None;
    }
    let size = text.len() + quoting_size(text);
    if begins_with_backslash(text) {
        Some(size + 1)
    } else {
        Some(size)
    }
}

/// The bytes that quoting adds to a field: the two quotes and one more for each quote in it, or none.
fn quoting_size(text: &[u8]) -> usize
    requires { length text.now ≤ MAX_ROW_TEXT_BYTES }
    ensures size { length text.now + result ≡ length (field_text default_writer text.now) }
    ensures bound { result ≤ length text.now + 2 }
{
    if has_marks(text) {
        count_quotes(text) + 2
    } else {
        0
    }
}

fn has_marks(text: &[u8]) -> bool
    ensures { result ≡ needs_quotes default_writer text.now }
{
    text.iter().any(|byte| calls_for_quotes(*byte))
}

fn count_quotes(text: &[u8]) -> usize
    ensures value { result ≡ count_by (λ b. b == 34) text.now }
    ensures bound { result ≤ length text.now }
{
    text.iter().filter(|byte| **byte == b'"').count()
}

fn calls_for_quotes(byte: u8) -> bool
    ensures { result ≡ needs_byte default_writer byte }
{
    matches!(byte, b',' | b'"' | b'\r' | b'\n')
}
