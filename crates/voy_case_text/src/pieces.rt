use crate::case::{base_of, first_word, number_of};
use crate::trouble::Trouble;
use std::alloc::Global;

/// The bytes of these rows, each a piece behind the one before it.
pub fn pieces_of(alloc: Global, all: &str, rows: &str) -> Result<Vec<u8>, Trouble> {
    let mut bytes = Vec::new(alloc);
    let mut behind = Vec::new(alloc);
    for row in rows.lines() {
        match row.strip_prefix("-") {
            Some(part) => {
                bytes.extend_from_slice(behind.as_slice())?;
                behind = cut_at(alloc, &mut bytes, part.as_bytes())?;
            }
            None => push_piece(alloc, all, row, &mut bytes)?,
        }
    }
    bytes.extend_from_slice(behind.as_slice())?;
    Ok(bytes)
}

/// Appends one piece: `+TEXT`, `|TEXT` with LF, `xHEX`, `*COUNT HEX`, `%COUNT TEXT`, `=BASE`, or `~BASE` with LF.
pub fn push_piece(alloc: Global, all: &str, row: &str, to: &mut Vec<u8>) -> Result<(), Trouble> {
    let (sign, text) = sign_of(row);
    match sign {
        '+' => to.extend_from_slice(text.as_bytes())?,
        '|' => {
            to.extend_from_slice(text.as_bytes())?;
            to.extend_from_slice(b"\n")?;
        }
        'x' => {
            let bytes = hex_bytes(alloc, text)?;
            to.extend_from_slice(bytes.as_slice())?;
        }
        '*' => push_repeated(alloc, text, to)?,
        '%' => push_numbered(alloc, text, to)?,
        '=' => to.extend_from_slice(base_of(alloc, all, text)?.as_bytes())?,
        '~' => {
            to.extend_from_slice(base_of(alloc, all, text)?.as_bytes())?;
            to.extend_from_slice(b"\n")?;
        }
        _ => return Err(Trouble::Case("no such row")),
    }
    Ok(())
}

/// The first character of a row, and what stands behind it.
pub fn sign_of(row: &str) -> (char, &str) {
    let mut chars = row.chars();
    match chars.next() {
        Some(sign) => (sign, chars.as_str()),
        None => (' ', ""),
    }
}

/// The bytes that are written in hexadecimal, with blanks anywhere between them.
pub fn hex_bytes(alloc: Global, text: &str) -> Result<Vec<u8>, Trouble> {
    let digits = text.replace(alloc, " ", "")?;
    match hex::decode(alloc, digits.as_str()) {
        Ok(bytes) => Ok(bytes),
        Err(_) => Err(Trouble::Case("no hexadecimal bytes")),
    }
}

/// Appends bytes so many times, as `COUNT HEX` says.
fn push_repeated(alloc: Global, text: &str, to: &mut Vec<u8>) -> Result<(), Trouble> {
    let (count, digits) = first_word(text);
    let count = number_of(count)?;
    let bytes = hex_bytes(alloc, digits)?;
    if let [byte] = bytes.as_slice() {
        let run = vec![in alloc; *byte; count as usize]?;
        to.extend_from_slice(run.as_slice())?;
        return Ok(());
    }
    for _ in 0..count {
        to.extend_from_slice(bytes.as_slice())?;
    }
    Ok(())
}

/// Appends a text so many times with commas between, as `COUNT TEXT` says. Each `#` in it is the number of the
/// time, from 0.
fn push_numbered(alloc: Global, text: &str, to: &mut Vec<u8>) -> Result<(), Trouble> {
    let (count, text) = first_word(text);
    for number in 0..number_of(count)? {
        if number > 0 {
            to.extend_from_slice(b",")?;
        }
        let digits = format!(in alloc; "{number}")?;
        let numbered = text.replace(alloc, "#", digits.as_str())?;
        to.extend_from_slice(numbered.as_bytes())?;
    }
    Ok(())
}

/// Cuts the bytes off in front of the one place where the part stands, and gives what stands behind it.
fn cut_at(alloc: Global, bytes: &mut Vec<u8>, part: &[u8]) -> Result<Vec<u8>, Trouble> {
    let mut found = None;
    for at in 0..bytes.len() {
        if bytes.as_slice()[at..].starts_with(part) {
            if found.is_some() {
                return Err(Trouble::Case("the part stands there twice"));
            }
            found = Some(at);
        }
    }
    let Some(at) = found else {
        return Err(Trouble::Case("the part does not stand there"));
    };
    let behind = match bytes.as_slice().get(at..) {
        Some(rest) => match rest.get(part.len()..) {
            Some(behind) => Vec::from_slice(alloc, behind)?,
            None => Vec::new(alloc),
        },
        None => Vec::new(alloc),
    };
    bytes.truncate(at);
    Ok(behind)
}
