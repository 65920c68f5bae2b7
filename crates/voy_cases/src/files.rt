use std::alloc::Global;
use voy_case_text::{
    Case, Trouble, error_text, first_word, hexadecimal, name_of, number_of, planned, quoted_bytes,
    told,
};
use voy_disk::{DiskError, FaultPlan, MemDisk, Name};
use voy_files::{ByteReader, Found, LineReader, read_file};

/// The most bytes of a line of a range.
const RANGE_LIMIT: usize = 1_000_000;

/// Whether the rows are the name of a file, which then has this text, and a copy of it too.
pub fn name(alloc: Global, case: &Case) -> Result<String, Trouble> {
    let bytes = case.bytes(alloc)?;
    let Ok(text) = str::from_utf8(bytes.as_slice()) else {
        return Err(Trouble::Case("no text"));
    };
    let answer = match Name::new(alloc, text)? {
        None => "no name",
        Some(name) => {
            if name.as_str() == text && name.copy()?.as_str() == text {
                "a name"
            } else {
                "another name"
            }
        }
    };
    let answer = String::from_str(alloc, answer)?;
    Ok(answer)
}

/// The lines that a reader with this limit finds in the rows' bytes: `lines NAME LIMIT [FAILING CALL]`.
pub fn lines(alloc: Global, case: &Case) -> Result<String, Trouble> {
    let (limit, failing) = first_word(case.words);
    let limit = number_of(limit)?;
    let (mut disk, name) = disk_of(alloc, case, failing)?;
    let mut shown = String::new(alloc);
    if let Err(error) = push_lines(alloc, &mut disk, name, limit as usize, &mut shown)? {
        shown.push_str(error_text(error))?;
    }
    Ok(shown)
}

/// Appends each line that the reader finds, and how it ends. The inner error is that of the disk.
fn push_lines(
    alloc: Global,
    disk: &mut MemDisk,
    name: Name,
    limit: usize,
    to: &mut String,
) -> Result<Result<(), DiskError>, Trouble> {
    let mut reader = match LineReader::open(alloc, disk, name, limit) {
        Ok(Some(reader)) => reader,
        Ok(None) => {
            to.push_str("no file")?;
            return Ok(Ok(()));
        }
        Err(error) => return Ok(Err(error)),
    };
    for _ in 0..u64::MAX {
        match reader.is_at_end(disk) {
            Ok(false) => {}
            Ok(true) => to.push_str("nothing left, ")?,
            Err(error) => return Ok(Err(error)),
        }
        match reader.next(disk) {
            Ok(Found::Line) => {
                let line = quoted_bytes(alloc, reader.line())?;
                to.push_str(line.as_str())?;
                to.push_str(", ")?;
            }
            Ok(Found::TooLong) => {
                to.push_str("too long")?;
                return Ok(Ok(()));
            }
            Ok(Found::End) => {
                to.push_str("end")?;
                return Ok(Ok(()));
            }
            Err(error) => return Ok(Err(error)),
        }
    }
    Ok(Ok(()))
}

/// The lines between two offsets of the rows' bytes, each behind its offset: `range NAME FROM TO`.
pub fn range(alloc: Global, case: &Case) -> Result<String, Trouble> {
    let (start, end) = first_word(case.words);
    let (mut disk, name) = disk_of(alloc, case, "")?;
    let mut reader = LineReader::between(
        alloc,
        name,
        number_of(start)?,
        number_of(end)?,
        RANGE_LIMIT,
    );
    let mut shown = String::new(alloc);
    for _ in 0..u64::MAX {
        let offset = format!(in alloc; "{} ", reader.offset())?;
        shown.push_str(offset.as_str())?;
        if !push_found(alloc, &mut disk, &mut reader, &mut shown)? {
            return Ok(shown);
        }
    }
    Ok(shown)
}

/// Appends what the reader finds next; false where that is no line.
fn push_found(
    alloc: Global,
    disk: &mut MemDisk,
    reader: &mut LineReader,
    to: &mut String,
) -> Result<bool, Trouble> {
    let end = match reader.next(disk) {
        Ok(Found::Line) => {
            let line = quoted_bytes(alloc, reader.line())?;
            to.push_str(line.as_str())?;
            to.push_str(if reader.has_line_feed() {
                " LF, "
            } else {
                ", "
            })?;
            return Ok(true);
        }
        Ok(Found::TooLong) => "too long",
        Ok(Found::End) => "end",
        Err(error) => error_text(error),
    };
    to.push_str(end)?;
    Ok(false)
}

/// The whole file: `file NAME [FAILING CALL]`.
pub fn file(alloc: Global, case: &Case) -> Result<String, Trouble> {
    let (mut disk, name) = disk_of(alloc, case, case.words)?;
    match read_file(alloc, &mut disk, &name) {
        Ok(Some(bytes)) => quoted_bytes(alloc, bytes.as_slice()),
        Ok(None) => told(alloc, "no file"),
        Err(error) => told(alloc, error_text(error)),
    }
}

/// What a reader of bytes takes: behind the rows of the file's bytes stand the calls, each on a row `> CALL`.
pub fn bytes(alloc: Global, case: &Case) -> Result<String, Trouble> {
    let (pieces, calls) = match case.rows.split_once("> ") {
        Some((pieces, calls)) => (pieces, calls),
        None => return Err(Trouble::Case("no calls")),
    };
    let (mut disk, name) = disk_of(alloc, &case.with_rows(pieces), case.words)?;
    let mut reader = match ByteReader::open(alloc, &mut disk, &name) {
        Ok(Some(reader)) => reader,
        Ok(None) => return told(alloc, "no file"),
        Err(error) => return told(alloc, error_text(error)),
    };
    let mut shown = String::new(alloc);
    for call in calls.split("\n> ") {
        let taken = take(alloc, &mut reader, &mut disk, &name, call)?;
        if !shown.is_empty() {
            shown.push_str(", ")?;
        }
        shown.push_str(taken.as_str())?;
    }
    Ok(shown)
}

/// What one call of the reader gives.
fn take(
    alloc: Global,
    reader: &mut ByteReader,
    disk: &mut MemDisk,
    name: &Name,
    call: &str,
) -> Result<String, Trouble> {
    let (verb, count) = first_word(call);
    let taken = match verb {
        "byte" => take_byte(alloc, reader, disk, name)?,
        "number" => take_number(alloc, reader, disk, name)?,
        "take" => take_part(alloc, reader, disk, name, number_of(count)? as usize)?,
        "more" => match reader.fill(disk, name) {
            Ok(true) => String::from_str(alloc, "yes")?,
            Ok(false) => String::from_str(alloc, "no")?,
            Err(error) => told(alloc, error_text(error))?,
        },
        _ => return Err(Trouble::Case("no such call")),
    };
    Ok(taken)
}

fn take_byte(
    alloc: Global,
    reader: &mut ByteReader,
    disk: &mut MemDisk,
    name: &Name,
) -> Result<String, Trouble> {
    match reader.take_byte(disk, name) {
        Ok(Some(byte)) => Ok(format!(in alloc; "{byte}")?),
        Ok(None) => told(alloc, "none"),
        Err(error) => told(alloc, error_text(error)),
    }
}

fn take_number(
    alloc: Global,
    reader: &mut ByteReader,
    disk: &mut MemDisk,
    name: &Name,
) -> Result<String, Trouble> {
    match reader.take_number(disk, name) {
        Ok(Some(number)) => Ok(format!(in alloc; "{number}")?),
        Ok(None) => told(alloc, "none"),
        Err(error) => told(alloc, error_text(error)),
    }
}

fn take_part(
    alloc: Global,
    reader: &mut ByteReader,
    disk: &mut MemDisk,
    name: &Name,
    size: usize,
) -> Result<String, Trouble> {
    match reader.take(disk, name, size) {
        Ok(Some(part)) => hexadecimal(alloc, part.as_slice()),
        Ok(None) => told(alloc, "none"),
        Err(error) => told(alloc, error_text(error)),
    }
}

/// A disk with the file `changes.ndjson` of the rows' bytes, whose call of this number fails, if one is given. A
/// case without rows has no file.
fn disk_of(alloc: Global, case: &Case, failing: &str) -> Result<(MemDisk, Name), Trouble> {
    let name = name_of(alloc, "changes.ndjson")?;
    let plan = if failing.is_empty() {
        FaultPlan::none(alloc)
    } else {
        planned(alloc, failing)?
    };
    let mut disk = MemDisk::new(alloc, plan);
    if !case.rows.is_empty() {
        disk.put_file(&name, case.bytes(alloc)?.as_slice())?;
    }
    Ok((disk, name))
}
