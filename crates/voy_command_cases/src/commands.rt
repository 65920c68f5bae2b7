use std::alloc::Global;
use voy_case_text::{
    Case, Trouble, first_word, hexadecimal, name_of, number_of, planned, push_piece, quoted_bytes,
};
use voy_command::run;
use voy_disk::{FaultPlan, MemDisk, MemSink, Place};

/// What a command over four disks in memory answers. Its rows are `DISK FILE PIECE`, a piece that stands behind those
/// before it in that file; `DISK fails CALL`, `out fails CALL` and `err fails CALL`, from which call on; `$ WORDS`; and
/// `? DISK FILE`, a file that is shown at the end.
pub fn command(alloc: Global, case: &Case) -> Result<String, Trouble> {
    if !case.rows.lines().all(is_row) {
        return Err(Trouble::Case("no such row"));
    }
    let mut place = Place {
        recording: disk_of(alloc, case, "recording")?,
        export: disk_of(alloc, case, "export")?,
        target: disk_of(alloc, case, "target")?,
        source: disk_of(alloc, case, "source")?,
    };
    let mut out = MemSink::new(alloc, failing_from(case, "out fails ")?);
    let mut err = MemSink::new(alloc, failing_from(case, "err fails ")?);
    let words = words_of(alloc, case)?;
    let status = run(alloc, &words, &mut place, &mut out, &mut err);
    let printed = quoted_bytes(alloc, out.bytes())?;
    let told = quoted_bytes(alloc, err.bytes())?;
    let mut shown = format!(in alloc; "{status}\n  out {printed}\n  err {told}")?;
    push_files(alloc, case, &place, &mut shown)?;
    Ok(shown)
}

/// Whether a command's case can have the row.
fn is_row(row: &str) -> bool {
    let (first, behind) = first_word(row);
    let (second, _third) = first_word(behind);
    match first {
        "$" | "?" | "recording" | "export" | "target" | "source" => true,
        "out" | "err" => second == "fails",
        _ => false,
    }
}

/// The disk of this name, with the files of its rows.
fn disk_of(alloc: Global, case: &Case, own: &str) -> Result<MemDisk, Trouble> {
    let mut disk = MemDisk::new(alloc, plan_of(alloc, case, own)?);
    for row in case.rows.lines() {
        let (name, behind) = first_word(row);
        let (file, piece) = first_word(behind);
        if name == own && file != "fails" {
            put_behind(alloc, case.all, &mut disk, file, piece)?;
        }
    }
    Ok(disk)
}

/// The plan by which the calls of the disk fail that its row `DISK fails CALLS` has.
fn plan_of(alloc: Global, case: &Case, own: &str) -> Result<FaultPlan, Trouble> {
    for row in case.rows.lines() {
        let (name, behind) = first_word(row);
        let (verb, calls) = first_word(behind);
        if name == own && verb == "fails" {
            return planned(alloc, calls);
        }
    }
    Ok(FaultPlan::none(alloc))
}

/// Puts the piece behind what the file has.
fn put_behind(
    alloc: Global,
    all: &str,
    disk: &mut MemDisk,
    file: &str,
    piece: &str,
) -> Result<(), Trouble> {
    let name = name_of(alloc, file)?;
    let mut bytes = Vec::from_slice(alloc, disk.file(&name).unwrap_or(&[]))?;
    push_piece(alloc, all, piece, &mut bytes)?;
    disk.put_file(&name, bytes.as_slice())?;
    Ok(())
}

/// The number on the row that begins so; 0 where there is none.
fn failing_from(case: &Case, front: &str) -> Result<u64, Trouble> {
    for row in case.rows.lines() {
        if let Some(call) = row.strip_prefix(front) {
            return number_of(call);
        }
    }
    Ok(0)
}

/// The words of the row that begins with `$`; `''` is an empty one.
fn words_of(alloc: Global, case: &Case) -> Result<Vec<String>, Trouble> {
    let mut words = Vec::new(alloc);
    for row in case.rows.lines() {
        if let Some(text) = row.strip_prefix("$ ") {
            for word in text.split(' ') {
                push_word(alloc, word, &mut words)?;
            }
        }
    }
    Ok(words)
}

fn push_word(alloc: Global, word: &str, to: &mut Vec<String>) -> Result<(), Trouble> {
    let text = if word == "''" { "" } else { word };
    match to.push(String::from_str(alloc, text)?) {
        Ok(()) => Ok(()),
        Err(_) => Err(Trouble::NoMemory),
    }
}

/// Appends each file that a row `? DISK FILE` asks for, in hexadecimal.
fn push_files(
    alloc: Global,
    case: &Case,
    place: &Place<MemDisk>,
    to: &mut String,
) -> Result<(), Trouble> {
    for row in case.rows.lines() {
        if let Some(asked) = row.strip_prefix("? ") {
            let (disk, file) = first_word(asked);
            let line = file_line(alloc, disk_named(place, disk)?, asked, file)?;
            to.push_str(line.as_str())?;
        }
    }
    Ok(())
}

fn file_line(alloc: Global, disk: &MemDisk, asked: &str, file: &str) -> Result<String, Trouble> {
    let line = match disk.file(&name_of(alloc, file)?) {
        Some(bytes) => {
            let bytes = hexadecimal(alloc, bytes)?;
            format!(in alloc; "\n  {asked} {bytes}")?
        }
        None => format!(in alloc; "\n  {asked} absent")?,
    };
    Ok(line)
}

fn disk_named<'a>(place: &'a Place<MemDisk>, name: &str) -> Result<&'a MemDisk, Trouble> {
    match name {
        "recording" => Ok(&place.recording),
        "export" => Ok(&place.export),
        "target" => Ok(&place.target),
        "source" => Ok(&place.source),
        _ => Err(Trouble::Case("no such disk")),
    }
}
