ghost use Rattle.std.specs.Prelude.{◌≡◌, false, IfSome, IsTrue, OnOk};
ghost use Rattle.voy_meta.specs.Meta.{MetaStands, is_live};

use std::alloc::Global;
use voy_case_text::{Case, Trouble, hexadecimal, name_of, push_piece, told};
use voy_disk::{Disk, SureDisk};
use voy_meta::{Meta, MetaError, RequestError, read_record};
use voy_tables::Side;

/// What the rows' bytes are as `meta.journal`, what each of the rows `> ASKED` is answered then, and the file
/// afterwards.
pub fn metadata(alloc: Global, case: &Case) -> Result<String, Trouble> {
    let (pieces, asked) = match case.rows.split_once("> ") {
        Some((pieces, asked)) => (pieces, asked),
        None => (case.rows, ""),
    };
    let name = name_of(alloc, "meta.journal")?;
    let mut disk = SureDisk::new(alloc);
    if !pieces.is_empty() {
        disk.put_file(&name, case.with_rows(pieces).bytes(alloc)?.as_slice())?;
    }
    let mut shown = String::new(alloc);
    open_and_ask(alloc, case.all, asked, &mut disk, &mut shown)?;
    let file = match disk.file(&name) {
        Some(bytes) => hexadecimal(alloc, bytes)?,
        None => told(alloc, "absent")?,
    };
    let whole = format!(in alloc; "{shown}; the file is {file}")?;
    Ok(whole)
}

/// What the file opens to; then what is asked is answered, up to the first want of memory or fault.
fn open_and_ask(
    alloc: Global,
    all: &str,
    asked: &str,
    disk: &mut SureDisk,
    shown: &mut String,
) -> Result<(), Trouble> {
    let mut meta = match Meta::open(alloc, disk) {
        Ok(meta) => meta,
        Err(error) => {
            shown.push_str(error_text(alloc, error)?.as_str())?;
            return Ok(());
        }
    };
    let (version, stage) = (meta.state().version, meta.stage());
    let opened = format!(in alloc; "version {version}, stage {stage:?}")?;
    shown.push_str(opened.as_str())?;
    if !asked.is_empty() {
        ask_all(alloc, all, asked, &mut meta, disk, shown)?;
    }
    Ok(())
}

/// Answers each of the rows.
fn ask_all<D: Disk>(
    alloc: Global,
    all: &str,
    asked: &str,
    meta: &mut Meta,
    disk: &mut D,
    shown: &mut String,
) -> Result<(), Trouble>
    requires live { IsTrue (is_live meta.old) }
    requires stands { MetaStands meta.old (D.files disk.old) }
{
    'rows: for row in asked.split("\n> ") {
        let answer = ask(alloc, all, row, meta, disk)?;
        let next = format!(in alloc; "; {answer}")?;
        shown.push_str(next.as_str())?;
    }
    Ok(())
}

/// Answers one row: `put PIECE`, whose bytes are the payload of a record, or `request SIDE FALL_BACK`.
fn ask<D: Disk>(
    alloc: Global,
    all: &str,
    row: &str,
    meta: &mut Meta,
    disk: &mut D,
) -> Result<String, Trouble>
    requires live { IsTrue (is_live meta.old) }
    requires stands { MetaStands meta.old (D.files disk.old) }
    ensures live { OnOk result (IsTrue (is_live meta.new)) }
    ensures stands { OnOk result (MetaStands meta.new (D.files disk.new)) }
{
    match row.trim_end().split_once(' ') {
        Some(("put", piece)) => put(alloc, all, piece, meta, disk),
        Some(("request", words)) => request(alloc, words, meta, disk),
        _ => Err(Trouble::Case("no such question")),
    }
}

/// Puts the record of a payload, where it may be put.
fn put<D: Disk>(
    alloc: Global,
    all: &str,
    piece: &str,
    meta: &mut Meta,
    disk: &mut D,
) -> Result<String, Trouble>
    requires live { IsTrue (is_live meta.old) }
    requires stands { MetaStands meta.old (D.files disk.old) }
    ensures live { OnOk result (IsTrue (is_live meta.new)) }
    ensures stands { OnOk result (MetaStands meta.new (D.files disk.new)) }
{
    let mut bytes = Vec::new(alloc);
    push_piece(alloc, all, piece, &mut bytes)?;
    let Some(entry) = read_record(bytes.as_slice()) else {
        return told(alloc, "no record");
    };
    if !meta.allowed(&entry) {
        return told(alloc, "not allowed");
    }
    let answer = told(alloc, "put")?;
    match meta.put(disk, entry) {
        Ok(()) => Ok(answer),
        Err(_) => Err(Trouble::Case("a record that was not put")),
    }
}

/// Asks for a cutover, and answers the stage then.
fn request<D: Disk>(
    alloc: Global,
    words: &str,
    meta: &mut Meta,
    disk: &mut D,
) -> Result<String, Trouble>
    requires live { IsTrue (is_live meta.old) }
    requires stands { MetaStands meta.old (D.files disk.old) }
    ensures live { OnOk result (IsTrue (is_live meta.new)) }
    ensures stands { OnOk result (MetaStands meta.new (D.files disk.new)) }
{
    let Some(Asked { side, fall_back }) = asked_by(words) else {
        return Err(Trouble::Case("no such request"));
    };
    let answer = told(alloc, "requested")?;
    match meta.request_cutover(disk, side, fall_back) {
        Ok(()) => Ok(answer),
        Err(RequestError::Refused(why)) => Ok(format!(in alloc; "refused: {why:?}")?),
        Err(_) => Err(Trouble::Case("a request that failed")),
    }
}

/// A cutover that is asked for.
#[derive(Clone, Copy)]
struct Asked {
    side: Side,
    fall_back: bool,
}

/// The cutover of these words.
fn asked_by(words: &str) -> Option<Asked>
    ensures { IfSome result (λ asked. asked.side ≡ Side.Source → asked.fall_back ≡ false) }
{
    match words {
        "target true" => Some(Asked {
            side: Side::Target,
            fall_back: true,
        }),
        "target false" => Some(Asked {
            side: Side::Target,
            fall_back: false,
        }),
        "source" => Some(Asked {
            side: Side::Source,
            fall_back: false,
        }),
        _ => None,
    }
}

fn error_text(alloc: Global, error: MetaError) -> Result<String, Trouble> {
    match error {
        MetaError::Damaged { offset } => Ok(format!(in alloc; "damaged at {offset}")?),
        MetaError::Fault => told(alloc, "fault"),
        MetaError::NoMemory => told(alloc, "no memory"),
    }
}
