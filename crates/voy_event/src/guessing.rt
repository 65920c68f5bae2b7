ghost use Rattle.std.specs.Prelude.{◌≡◌, ◌<◌, IfOk, IfSome};
ghost use Rattle.voy_tables.specs.Changes.{table_of};

use std::alloc::{AllocError, Global};
use voy_schema::{Bytes, Row, Text, Value};
use voy_tables::{Change, Role};

/// What the front of a line seems to say. Nothing here is proved of it: only a comparison with the line tells.
#[derive(Drop)]
pub(crate) struct Guess {
    pub(crate) role: Role,
    pub(crate) change: Change,
}

/// What the end of a line seems to say.
#[derive(Clone, Copy)]
pub(crate) struct End<'a> {
    pub(crate) schema_name: &'a str,
    pub(crate) table_name: &'a str,
    pub(crate) vsn: u64,
}

/// What stands on both sides of a byte.
#[derive(Clone, Copy)]
struct Sides<'a> {
    front: &'a [u8],
    back: &'a [u8],
}

/// What is left of a line that is looked through from its front.
#[derive(Drop)]
struct Scan<'a> {
    rest: &'a [u8],
}

impl<'a> Scan<'a> {
    /// Goes on behind the next colon, where there is one.
    fn pass_colon(&mut self) {
        if let Some(at) = self.rest.iter().position(|byte| *byte == b':') {
            self.rest = &self.rest[at + 1..];
        }
    }
}

/// The table names and the vsn at the end of a canonical line.
pub(crate) fn guess_end(line: &[u8]) -> Option<End<'_>> {
    let number = sides_of_last(line.strip_suffix(b"}")?, b':')?;
    let table = sides_of_last(number.front.strip_suffix(b"\",\"vsn\"")?, b'"')?;
    let schema = sides_of_last(table.front.strip_suffix(b"\",\"table_name\":")?, b'"')?;
    Some(End {
        schema_name: str::from_utf8(schema.back).ok()?,
        table_name: str::from_utf8(table.back).ok()?,
        vsn: str::from_utf8(number.back).ok()?.parse().ok()?,
    })
}

fn sides_of_last(line: &[u8], byte: u8) -> Option<Sides<'_>> {
    let at = line.iter().rposition(|there| *there == byte)?;
    Some(Sides {
        front: &line[..at],
        back: &line[at + 1..],
    })
}

/// The exporter and the change of a canonical line, whose table is the one at `table` and has its columns at
/// these places by ascending name.
pub(crate) fn guess_change(
    alloc: Global,
    table: u32,
    places: &[u32],
    line: &[u8],
) -> Result<Option<Guess>, AllocError>
    ensures { IfOk result (λ found. IfSome found (λ guess. table_of guess.change ≡ table)) }
{
    let mut scan = Scan { rest: line };
    scan.pass_colon();
    let before = guess_row(alloc, places, &mut scan)?;
    scan.pass_colon();
    let role = guess_role(&scan);
    scan.pass_colon();
    let after = guess_row(alloc, places, &mut scan)?;
    let Some(change) = change_between(table, before, after) else {
        return Ok(None);
    };
    Ok(Some(Guess { role, change }))
}

fn guess_role(scan: &Scan) -> Role {
    if scan.rest.starts_with(b"\"source_db_exporter\"") {
        Role::Source
    } else {
        Role::Target
    }
}

fn change_between(table: u32, before: Option<Row>, after: Option<Row>) -> Option<Change>
    ensures { IfSome result (λ change. table_of change ≡ table) }
{
    match (before, after) {
        (None, Some(after)) => Some(Change::Insert { table, after }),
        (Some(before), Some(after)) => Some(Change::Update {
            table,
            before,
            after,
        }),
        (Some(before), None) => Some(Change::Delete { table, before }),
        (None, None) => None,
    }
}

/// The row whose object stands in front. Nothing where it is null.
fn guess_row(
    alloc: Global,
    places: &[u32],
    scan: &mut Scan<'_>,
) -> Result<Option<Row>, AllocError> {
    if !scan.rest.starts_with(b"{") {
        return Ok(None);
    }
    let mut row = nulls(alloc, places.len())?;
    for place in places {
        scan.pass_colon();
        let Some(value) = guess_value(alloc, scan)? else {
            return Ok(None);
        };
        let at = *place as usize;
        if at < row.len() {
            row.replace(at, value);
        }
    }
    Ok(Some(row))
}

fn nulls(alloc: Global, count: usize) -> Result<Row, AllocError> {
    let mut row = Row::with_capacity(alloc, count)?;
    for _ in 0..count {
        row.push(Value::Null)?;
    }
    Ok(row)
}

fn guess_value(alloc: Global, scan: &mut Scan<'_>) -> Result<Option<Value>, AllocError> {
    if scan.rest.starts_with(b"null") {
        return Ok(Some(Value::Null));
    }
    match guess_text(alloc, scan)? {
        Some(text) => Ok(Some(Value::Text(text))),
        None => Ok(None),
    }
}

/// The text of the JSON string in front, which is passed over.
fn guess_text(alloc: Global, scan: &mut Scan<'_>) -> Result<Option<Text>, AllocError> {
    let [b'"', inside @ ..] = scan.rest else {
        return Ok(None);
    };
    let Some(end) = inside.iter().position(|byte| ends_plain_text(*byte)) else {
        return Ok(None);
    };
    if inside[end] == b'\\' {
        return guess_escaped_text(alloc, inside, scan);
    }
    scan.rest = &inside[end + 1..];
    text_of(alloc, &inside[..end])
}

fn ends_plain_text(byte: u8) -> bool {
    matches!(byte, b'"' | b'\\')
}

fn text_of(alloc: Global, bytes: &[u8]) -> Result<Option<Text>, AllocError> {
    match str::from_utf8(bytes) {
        Ok(text) => Ok(Some(Text::from_str(alloc, text)?)),
        Err(_) => Ok(None),
    }
}

/// The same of a string that has escapes, from behind its opening quote.
fn guess_escaped_text<'a>(
    alloc: Global,
    inside: &'a [u8],
    scan: &mut Scan<'a>,
) -> Result<Option<Text>, AllocError> {
    let mut text = Bytes::new(alloc);
    let mut rest = inside;
    for _ in 0..inside.len() {
        match rest {
            [] => return Ok(None),
            [b'"', behind @ ..] => {
                scan.rest = behind;
                return text_of(alloc, text.as_slice());
            }
            [b'\\', b'u', _, _, high, low, behind @ ..] => {
                text.push(value_of_digit(*high) * 16 + value_of_digit(*low))?;
                rest = behind;
            }
            [b'\\', letter, behind @ ..] => {
                text.push(byte_of_letter(*letter))?;
                rest = behind;
            }
            [byte, behind @ ..] => {
                text.push(*byte)?;
                rest = behind;
            }
        }
    }
    Ok(None)
}

fn value_of_digit(digit: u8) -> u8
    ensures { result < 16 }
{
    match digit {
        b'0'..=b'9' => digit - b'0',
        b'a'..=b'f' => digit - b'a' + 10,
        _ => 0,
    }
}

/// The byte that the letter behind a backslash stands for.
fn byte_of_letter(letter: u8) -> u8 {
    match letter {
        b'b' => 8,
        b'f' => 12,
        b'n' => b'\n',
        b'r' => b'\r',
        b't' => b'\t',
        _ => letter,
    }
}
