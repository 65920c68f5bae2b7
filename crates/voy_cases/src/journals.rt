ghost use Rattle.std.specs.Prelude.{IsTrue};
ghost use Rattle.voy_journal.specs.Journal.{StandsOn, is_live};

use std::alloc::Global;
use voy_case_text::{Case, Trouble, hexadecimal, name_of, push_piece, told};
use voy_disk::{Disk, Name, SureDisk};
use voy_journal::{Journal, JournalError, Payloads};

/// What the rows' bytes are as a journal, and the file once the payloads of the rows `> PIECE` were appended.
pub fn journal(alloc: Global, case: &Case) -> Result<String, Trouble> {
    let (pieces, payloads) = match case.rows.split_once("> ") {
        Some((pieces, payloads)) => (pieces, payloads),
        None => (case.rows, ""),
    };
    let name = name_of(alloc, "meta.journal")?;
    let mut disk = SureDisk::new(alloc);
    if !pieces.is_empty() {
        disk.put_file(&name, case.with_rows(pieces).bytes(alloc)?.as_slice())?;
    }
    let read = open_and_append(alloc, case.all, payloads, &name, &mut disk)?;
    let file = match disk.file(&name) {
        Some(bytes) => hexadecimal(alloc, bytes)?,
        None => told(alloc, "absent")?,
    };
    let shown = format!(in alloc; "{read}; the file is {file}")?;
    Ok(shown)
}

/// What the file reads as; the payloads are then appended.
fn open_and_append(
    alloc: Global,
    all: &str,
    payloads: &str,
    name: &Name,
    disk: &mut SureDisk,
) -> Result<String, Trouble> {
    let mut opened = match Journal::open(alloc, disk, name.copy()?) {
        Ok(opened) => opened,
        Err(error) => return error_text(alloc, error),
    };
    let shown = payloads_text(alloc, &opened.payloads)?;
    if !payloads.is_empty() {
        append_all(alloc, all, payloads, &mut opened.journal, disk)?;
    }
    Ok(shown)
}

/// Appends each of the payloads.
fn append_all<D: Disk>(
    alloc: Global,
    all: &str,
    payloads: &str,
    journal: &mut Journal,
    disk: &mut D,
) -> Result<(), Trouble>
    requires live { IsTrue (is_live journal.old) }
    requires stands { StandsOn journal.old (D.files disk.old) }
{
    'payloads: for piece in payloads.split("\n> ") {
        let mut bytes = Vec::new(alloc);
        push_piece(alloc, all, piece, &mut bytes)?;
        if journal.append(disk, bytes.as_slice()).is_err() {
            return Err(Trouble::Case("an append that failed"));
        }
    }
    Ok(())
}

/// The payloads in hexadecimal, each in brackets.
fn payloads_text(alloc: Global, payloads: &Payloads) -> Result<String, Trouble> {
    let mut shown = String::from_str(alloc, "payloads")?;
    for payload in payloads.as_slice() {
        let bytes = hexadecimal(alloc, payload.as_slice())?;
        let next = format!(in alloc; " [{bytes}]")?;
        shown.push_str(next.as_str())?;
    }
    Ok(shown)
}

fn error_text(alloc: Global, error: JournalError) -> Result<String, Trouble> {
    match error {
        JournalError::Damaged { offset } => Ok(format!(in alloc; "damaged at {offset}")?),
        JournalError::Fault => told(alloc, "fault"),
        JournalError::TooLong => told(alloc, "too long"),
        JournalError::NoMemory => told(alloc, "no memory"),
    }
}
