use crate::stores::place_of;
use std::alloc::Global;
use voy_case_text::{Trouble, first_word, number_of};

/// The payload of a transaction in short form: `batch TABLE NUMBER ROW;ROW..`, `load ROW;ROW..` of one table,
/// `epoch VSN CHANNELS`, or `changes CHANNEL CHANGE;CHANGE..`. The rows are row texts without LF; a change is `c VSN ID EMAIL`,
/// `u VSN ID EMAIL EMAIL` or `d VSN ID EMAIL` of `public.users`.
pub fn payload_of(alloc: Global, text: &str) -> Result<Vec<u8>, Trouble> {
    let (kind, behind) = first_word(text);
    let mut payload = Vec::new(alloc);
    match kind {
        "batch" => {
            let (table, behind) = first_word(behind);
            let (number, rows) = first_word(behind);
            payload.extend_from_slice(b"B")?;
            payload.extend_from_slice(&place_of(table)?.to_be_bytes())?;
            payload.extend_from_slice(&place_of(number)?.to_be_bytes())?;
            push_rows(alloc, rows, &mut payload)?;
        }
        "load" => {
            payload.extend_from_slice(b"L")?;
            push_length(1, &mut payload)?;
            push_rows(alloc, behind, &mut payload)?;
        }
        "epoch" => {
            let (vsn, channels) = first_word(behind);
            payload.extend_from_slice(b"N")?;
            payload.extend_from_slice(&number_of(vsn)?.to_be_bytes())?;
            payload.extend_from_slice(&place_of(channels)?.to_be_bytes())?;
        }
        _ => {
            let (channel, changes) = first_word(behind);
            payload.extend_from_slice(b"E")?;
            payload.extend_from_slice(&place_of(channel)?.to_be_bytes())?;
            push_changes(alloc, changes, &mut payload)?;
        }
    }
    Ok(payload)
}

/// Appends a number of four bytes, the highest first.
fn push_length(length: usize, to: &mut Vec<u8>) -> Result<(), Trouble> {
    let Ok(length) = u32::try_from(length) else {
        return Err(Trouble::Case("too long"));
    };
    to.extend_from_slice(&length.to_be_bytes())?;
    Ok(())
}

/// Appends the number of the rows, that of their bytes, and their texts.
fn push_rows(alloc: Global, rows: &str, to: &mut Vec<u8>) -> Result<(), Trouble> {
    let mut texts = Vec::new(alloc);
    let mut count: usize = 0;
    for row in rows.split(';') {
        texts.extend_from_slice(row.as_bytes())?;
        texts.extend_from_slice(b"\n")?;
        count = count.saturating_add(1);
    }
    push_length(count, to)?;
    push_length(texts.len(), to)?;
    to.extend_from_slice(texts.as_slice())?;
    Ok(())
}

/// Appends the number of the changes, and for each the number of its line's bytes and its line.
fn push_changes(alloc: Global, changes: &str, to: &mut Vec<u8>) -> Result<(), Trouble> {
    let mut lines = Vec::new(alloc);
    let mut count: usize = 0;
    for change in changes.split(';') {
        let line = line_of(alloc, change)?;
        push_length(line.as_str().len(), &mut lines)?;
        lines.extend_from_slice(line.as_str().as_bytes())?;
        count = count.saturating_add(1);
    }
    push_length(count, to)?;
    to.extend_from_slice(lines.as_slice())?;
    Ok(())
}

/// The canonical line of a change in short form.
fn line_of(alloc: Global, change: &str) -> Result<String, Trouble> {
    let (kind, behind) = first_word(change);
    let (vsn, behind) = first_word(behind);
    let (id, behind) = first_word(behind);
    let (email, other) = first_word(behind);
    let vsn = number_of(vsn)?;
    let row = row_of(alloc, id, email)?;
    let null = String::from_str(alloc, "null")?;
    let (before, after) = match kind {
        "c" => (null, row),
        "d" => (row, null),
        "u" => (row, row_of(alloc, id, other)?),
        _ => return Err(Trouble::Case("no such change")),
    };
    let line = format!(in alloc;
        r#"{{"before_fields":{before},"exporter_role":"source_db_exporter","fields":{after},"key":{{"id":"{id}"}},"op":"{kind}","schema_name":"public","table_name":"users","vsn":{vsn}}}"#
    )?;
    Ok(line)
}

fn row_of(alloc: Global, id: &str, email: &str) -> Result<String, Trouble> {
    let row = format!(in alloc; r#"{{"email":"{email}","id":"{id}"}}"#)?;
    Ok(row)
}
