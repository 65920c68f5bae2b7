ghost use Rattle.std.specs.Prelude.{◌≡◌, true, is_some, IfOk, IsTrue, OnOk};
ghost use Rattle.voy_meta.specs.Allowed.{has_snapshot, writes};
ghost use Rattle.voy_meta.specs.Meta.{MetaStands, meta_state};
ghost use Rattle.voy_meta.specs.Meta.{is_live as meta_live};
ghost use Rattle.voy_meta.specs.Sides.{leads_to, request_of};
ghost use Rattle.voy_queue.specs.Putting.{recorded_end};
ghost use Rattle.voy_queue.specs.Writer.{WriterStands, committed_end, is_live, writer_end, writer_role};

use crate::queue::{error_text, put_segments, read_all};
use crate::words::{record_of, role_of, spot_of};
use std::alloc::Global;
use voy_case_text::{
    Case, Trouble, first_line, first_word, hexadecimal, name_of, number_of, push_piece, told,
};
use voy_disk::{Disk, SureDisk};
use voy_event::read_line;
use voy_meta::{Meta, OPEN_SEGMENT_BYTES, led_to};
use voy_queue::Writer;
use voy_schema::Schema;
use voy_tables::Role;

/// What each of the rows `> ASKED` of a writer is answered behind the records of the first row, the journal of the metadata then, and
/// the events that a reader gives.
pub fn writer(alloc: Global, case: &Case) -> Result<String, Trouble> {
    let (given, asked) = match case.rows.split_once("> ") {
        Some((given, asked)) => (given, asked),
        None => (case.rows, ""),
    };
    let (records, segments) = first_line(given);
    let mut disk = SureDisk::new(alloc);
    let mut shown = String::new(alloc);
    put_segments(alloc, case, segments, "< ", &mut disk)?;
    let mut meta = opened(alloc, &mut disk, records)?;
    write_all(alloc, case, asked, &mut disk, &mut meta, &mut shown)?;
    let file = match disk.file(&name_of(alloc, "meta.journal")?) {
        Some(bytes) => hexadecimal(alloc, bytes)?,
        None => told(alloc, "absent")?,
    };
    let sizes = sizes_on(alloc, meta.state().segments.len(), &disk)?;
    let events = read_all(alloc, case, meta.state(), &mut disk)?;
    let whole = format!(in alloc; "{shown}the metadata are {file}; {sizes}{events}")?;
    Ok(whole)
}

/// How many bytes the files of so many segments have.
fn sizes_on(alloc: Global, count: usize, disk: &SureDisk) -> Result<String, Trouble> {
    let mut shown = String::new(alloc);
    for number in 0..count {
        let name = format!(in alloc; "segment.{number}.ndjson")?;
        let size = match disk.file(&name_of(alloc, name.as_str())?) {
            Some(bytes) => bytes.len(),
            None => 0,
        };
        let next = format!(in alloc; "segment {number} has {size}; ")?;
        shown.push_str(next.as_str())?;
    }
    Ok(shown)
}

/// The metadata with these records.
pub fn opened<D: Disk>(alloc: Global, disk: &mut D, records: &str) -> Result<Meta, Trouble>
    ensures live { IfOk result (λ meta. IsTrue (meta_live meta)) }
    ensures stands { IfOk result (λ meta. MetaStands meta (D.files disk.new)) }
{
    let Ok(mut meta) = Meta::open(alloc, disk) else {
        return Err(Trouble::Case("no metadata"));
    };
    put_all(records, disk, &mut meta)?;
    Ok(meta)
}

/// Puts records, each of which has to be allowed.
fn put_all<D: Disk>(records: &str, disk: &mut D, meta: &mut Meta) -> Result<(), Trouble>
    requires live { IsTrue (meta_live meta.old) }
    requires stands { MetaStands meta.old (D.files disk.old) }
    ensures live { OnOk result (IsTrue (meta_live meta.new)) }
    ensures stands { OnOk result (MetaStands meta.new (D.files disk.new)) }
{
    'records: for words in records.split(", ") {
        let entry = record_of(words)?;
        if !meta.allowed(&entry) {
            return Err(Trouble::Case("a record that is not allowed"));
        }
        let Ok(()) = meta.put(disk, entry) else {
            return Err(Trouble::Case("a record that was not put"));
        };
    }
    Ok(())
}

/// Opens the writer that the case's words name, and answers each of the rows.
fn write_all<D: Disk>(
    alloc: Global,
    case: &Case,
    asked: &str,
    disk: &mut D,
    meta: &mut Meta,
    shown: &mut String,
) -> Result<(), Trouble>
    requires live { IsTrue (meta_live meta.old) }
    requires stands { MetaStands meta.old (D.files disk.old) }
{
    let (role, max_bytes) = first_word(case.words);
    let (role, max_bytes) = (role_of(role)?, number_of(max_bytes)?);
    if max_bytes > OPEN_SEGMENT_BYTES {
        return Err(Trouble::Case("no size of a segment"));
    }
    let Ok(schema) = Schema::read(alloc, case.base(alloc, "SCHEMA")?.as_bytes()) else {
        return Err(Trouble::Case("no schema"));
    };
    let mut writer = match Writer::open(alloc, disk, meta, role, max_bytes) {
        Ok(writer) => writer,
        Err(error) => {
            shown.push_str(error_text(alloc, error)?.as_str())?;
            shown.push_str("; ")?;
            return Ok(());
        }
    };
    'rows: for row in asked.split("> ") {
        if row.is_empty() {
            continue 'rows;
        }
        ask(
            alloc,
            case.all,
            row.trim_end(),
            &schema,
            role,
            &mut writer,
            disk,
            meta,
            shown,
        )?;
    }
    Ok(())
}

/// Answers one row: `put COMMIT.SEQ PIECE`, whose bytes are the line of an event, or `commit`.
fn ask<D: Disk>(
    alloc: Global,
    all: &str,
    row: &str,
    schema: &Schema,
    role: Role,
    writer: &mut Writer,
    disk: &mut D,
    meta: &mut Meta,
    shown: &mut String,
) -> Result<(), Trouble>
    requires meta { IsTrue (meta_live meta.old) }
    requires stands { MetaStands meta.old (D.files disk.old) }
    requires live { IsTrue (is_live writer.old) }
    requires writer { WriterStands writer.old (D.files disk.old) }
    requires recorded { committed_end writer.old ≡ recorded_end (meta_state meta.old) role }
    requires role { writer_role writer.old ≡ role }
    ensures meta { OnOk result (IsTrue (meta_live meta.new)) }
    ensures stands { OnOk result (MetaStands meta.new (D.files disk.new)) }
    ensures live { OnOk result (IsTrue (is_live writer.new)) }
    ensures writer { OnOk result (WriterStands writer.new (D.files disk.new)) }
    ensures recorded { OnOk result (committed_end writer.new ≡ recorded_end (meta_state meta.new) role) }
    ensures role { OnOk result (writer_role writer.new ≡ role) }
{
    let (kind, words) = first_word(row);
    match kind {
        "put" => {
            shown.push_str("put; ")?;
            put(alloc, all, words, schema, writer)
        }
        "commit" => {
            shown.push_str("committed; ")?;
            commit(role, writer, disk, meta)
        }
        _ => Err(Trouble::Case("no such question")),
    }
}

/// Puts the event of a line, which the writer has to take.
fn put(
    alloc: Global,
    all: &str,
    words: &str,
    schema: &Schema,
    writer: &mut Writer,
) -> Result<(), Trouble>
    requires live { IsTrue (is_live writer.old) }
    ensures live { OnOk result (IsTrue (is_live writer.new)) }
    ensures end { committed_end writer.new ≡ committed_end writer.old }
    ensures role { writer_role writer.new ≡ writer_role writer.old }
{
    let (spot, piece) = first_word(words);
    let spot = spot_of(spot)?;
    let mut line = Vec::new(alloc);
    push_piece(alloc, all, piece, &mut line)?;
    let Ok(event) = read_line(alloc, schema, line.as_slice()) else {
        return Err(Trouble::Case("no event"));
    };
    if !writer.takes(&event, spot) {
        return Err(Trouble::Case("an event that may not be put"));
    }
    writer.put(schema, &event, spot)?;
    Ok(())
}

/// Commits what was put, where its records may be put.
fn commit<D: Disk>(
    role: Role,
    writer: &mut Writer,
    disk: &mut D,
    meta: &mut Meta,
) -> Result<(), Trouble>
    requires meta { IsTrue (meta_live meta.old) }
    requires stands { MetaStands meta.old (D.files disk.old) }
    requires live { IsTrue (is_live writer.old) }
    requires writer { WriterStands writer.old (D.files disk.old) }
    requires recorded { committed_end writer.old ≡ recorded_end (meta_state meta.old) role }
    requires role { writer_role writer.old ≡ role }
    ensures meta { OnOk result (IsTrue (meta_live meta.new)) }
    ensures stands { OnOk result (MetaStands meta.new (D.files disk.new)) }
    ensures live { OnOk result (IsTrue (is_live writer.new)) }
    ensures writer { OnOk result (WriterStands writer.new (D.files disk.new)) }
    ensures recorded { OnOk result (committed_end writer.new ≡ recorded_end (meta_state meta.new) role) }
    ensures role { OnOk result (writer_role writer.new ≡ role) }
{
    if !may_commit(role, writer, meta) {
        return Err(Trouble::Case("a commit that is not allowed"));
    }
    match writer.commit(disk, meta) {
        Ok(()) => Ok(()),
        Err(_) => Err(Trouble::Case("a commit that failed")),
    }
}

/// Whether what was put may be committed.
fn may_commit(role: Role, writer: &Writer, meta: &Meta) -> bool
    ensures snapshot { IsTrue result → IsTrue (has_snapshot (meta_state meta.now)) }
    ensures may { IsTrue result → IsTrue (writes (meta_state meta.now) role) }
    ensures asked { IsTrue result → (writer_end writer.now).ended ≡ true → IsTrue (is_some (request_of (leads_to role) (meta_state meta.now))) }
{
    let state = meta.state();
    if !state.has_snapshot() || !state.writes(role) {
        return false;
    }
    if writer.end().ended {
        state.request(led_to(role)).is_some()
    } else {
        true
    }
}
