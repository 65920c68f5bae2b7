ghost use Rattle.std.specs.Prelude.{◌≡◌, ◌≢◌, ◌≤◌, ◌<◌, ◌+◌, [], ◌∷◌, true, Some, IfErr, IfOk, IsTrue, OnOk, length, nat_lt, slice_get};
ghost use Rattle.voy_append.specs.Appending.{IsSafeBehind};
ghost use Rattle.voy_disk.specs.Calls.{Change};
ghost use Rattle.voy_disk.specs.Faults.{HasCause};
ghost use Rattle.voy_disk.specs.Files.{IfTold};
ghost use Rattle.voy_disk.specs.Frames.{KeepsBeside, KeepsOtherFiles, OneOf};
ghost use Rattle.voy_disk.specs.Fronts.{KeepsFront};
ghost use Rattle.voy_disk.specs.Images.{ImagesOf, now_image};
ghost use Rattle.voy_disk.specs.Steps.{Does, DoesAll, Follows, Goes, LeavesPrefix, StaysTold};
ghost use Rattle.voy_export.specs.Put.{AddsSnapshotRecords, IsSnapshotRecord};
ghost use Rattle.voy_export.specs.Calls.{AtEnd, IsUnnamed, snapshot_entry, snapshot_files};
ghost use Rattle.voy_export.specs.Exports.{exports_in};
ghost use Rattle.voy_export.specs.Names.{snapshot_file};
ghost use Rattle.voy_export.specs.Recording.{Recording};
ghost use Rattle.voy_export.specs.Snapshots.{HasRowsAt, Turns, file_at};
ghost use Rattle.voy_export.specs.Steps.{AddsSnapshot, MayExport, export_step};
ghost use Rattle.voy_meta.specs.Allowed.{is_allowed};
ghost use Rattle.voy_meta.specs.Meta.{AddsRecords, MetaStands, meta_name, meta_state};
ghost use Rattle.voy_meta.specs.Meta.{is_live as meta_live};
ghost use Rattle.voy_meta.specs.State.{after_record};
ghost use Rattle.voy_meta.specs.declared.limits.TheConstants.{MAX_SNAPSHOT_BYTES};
ghost use Rattle.voy_schema.specs.Lawful.{is_lawful_table};
ghost use Rattle.voy_tables.specs.RowText.{row_lines};

use crate::error::{ExportError, Which};
use crate::limits::MAX_CSV_BYTES;
use crate::names::snapshot_file;
use crate::rows::{Recorded, count_table, read_table};
use std::alloc::{AllocError, Global};
use voy_append::append_bytes;
use voy_disk::{Disk, DiskError, Name};
use voy_meta::{MAX_SNAPSHOT_BYTES, Meta, MetaError, MetaRecord};
use voy_schema::{Bytes, Row, Schema};
use voy_tables::write_row;

/// Writes the snapshot file of a table, and once it is safe puts its record. A text above the limit of records gets no memory.
pub(crate) fn write_snapshot<D: Disk>(
    alloc: Global,
    schema: &Schema,
    export: &mut D,
    meta: &mut Meta,
    number: usize,
    rows: &[Row],
) -> Result<(), ExportError>
    requires within { number < length schema.now.tables }
    requires live { IsTrue (meta_live meta.old) }
    requires stands { MetaStands meta.old (D.files export.old) }
    requires next { length (meta_state meta.old).snapshots ≡ number }
    requires tables { (meta_state meta.old).snapshots ≢ [] → (meta_state meta.old).tables ≡ length schema.now.tables }
    // after Ok
    ensures all { DoesAll (Does (exports_in schema.now.tables) export_step)
        (AddsSnapshot (snapshot_entry (length schema.now.tables) number rows.now) (row_lines rows.now) ∷ [])
        result (ImagesOf (D.files export.old)) (ImagesOf (D.files export.new)) }
    ensures state { OnOk result (meta_state meta.new ≡ after_record (meta_state meta.old) (snapshot_entry (length schema.now.tables) number rows.now)) }
    ensures adds { OnOk result (AddsSnapshotRecords (meta_state meta.old) (meta_state meta.new)) }
    ensures live { OnOk result (IsTrue (meta_live meta.new)) }
    ensures stands { OnOk result (MetaStands meta.new (D.files export.new)) }
    // whatever it answers
    ensures prefix { LeavesPrefix (Does (exports_in schema.now.tables) export_step)
        (AddsSnapshot (snapshot_entry (length schema.now.tables) number rows.now) (row_lines rows.now) ∷ [])
        (ImagesOf (D.files export.old)) (ImagesOf (D.files export.new)) }
    ensures moves { (recording : Recording) → HasRowsAt recording schema.now.tables number rows.now
        → Goes (exports_in schema.now.tables) export_step (MayExport recording) (ImagesOf (D.files export.old)) (ImagesOf (D.files export.new)) }
    ensures others { Change (KeepsBeside (OneOf (meta_name ∷ snapshot_files schema.now.tables))) (D.files export.old) (D.files export.new) }
    ensures told { StaysTold (ImagesOf (D.files export.old)) (ImagesOf (D.files export.new)) }
    ensures lender { D.lender export.new ≡ D.lender export.old }
    // when a fault comes
    ensures cause { HasCause (ExportError.Fault Which.Export) (D.faults export.old) (D.faults export.new) result }
    ensures no_recording { IfErr result (λ error. error ≢ ExportError.Fault Which.Recording) }
    ensures unnamed { IfErr result IsUnnamed }
{
    let text = rows_text(alloc, rows)?;
    if text.len() as u64 > MAX_SNAPSHOT_BYTES {
        return Err(ExportError::NoMemory);
    }
    let file = file_at(alloc, schema, number)?;
    put_snapshot(schema, export, meta, number, rows, &file, text.as_slice())
}

/// Writes the text of a snapshot file, and once it is safe puts its record.
fn put_snapshot<D: Disk>(
    schema: &Schema,
    export: &mut D,
    meta: &mut Meta,
    number: usize,
    rows: &[Row],
    file: &Name,
    text: &[u8],
) -> Result<(), ExportError>
    requires within { number < length schema.now.tables }
    requires live { IsTrue (meta_live meta.old) }
    requires stands { MetaStands meta.old (D.files export.old) }
    requires next { length (meta_state meta.old).snapshots ≡ number }
    requires tables { (meta_state meta.old).snapshots ≢ [] → (meta_state meta.old).tables ≡ length schema.now.tables }
    requires file { file.now ≡ file_at schema.now.tables number }
    requires text { text.now ≡ row_lines rows.now }
    requires few { length text.now ≤ MAX_SNAPSHOT_BYTES }
    ensures all { DoesAll (Does (exports_in schema.now.tables) export_step)
        (AddsSnapshot (snapshot_entry (length schema.now.tables) number rows.now) (row_lines rows.now) ∷ [])
        result (ImagesOf (D.files export.old)) (ImagesOf (D.files export.new)) }
    ensures state { OnOk result (meta_state meta.new ≡ after_record (meta_state meta.old) (snapshot_entry (length schema.now.tables) number rows.now)) }
    ensures adds { OnOk result (AddsSnapshotRecords (meta_state meta.old) (meta_state meta.new)) }
    ensures live { OnOk result (IsTrue (meta_live meta.new)) }
    ensures stands { OnOk result (MetaStands meta.new (D.files export.new)) }
    ensures prefix { LeavesPrefix (Does (exports_in schema.now.tables) export_step)
        (AddsSnapshot (snapshot_entry (length schema.now.tables) number rows.now) (row_lines rows.now) ∷ [])
        (ImagesOf (D.files export.old)) (ImagesOf (D.files export.new)) }
    ensures moves { (recording : Recording) → HasRowsAt recording schema.now.tables number rows.now
        → Goes (exports_in schema.now.tables) export_step (MayExport recording) (ImagesOf (D.files export.old)) (ImagesOf (D.files export.new)) }
    ensures others { Change (KeepsBeside (OneOf (meta_name ∷ snapshot_files schema.now.tables))) (D.files export.old) (D.files export.new) }
    ensures told { StaysTold (ImagesOf (D.files export.old)) (ImagesOf (D.files export.new)) }
    ensures lender { D.lender export.new ≡ D.lender export.old }
    ensures cause { HasCause (ExportError.Fault Which.Export) (D.faults export.old) (D.faults export.new) result }
    ensures no_recording { IfErr result (λ error. error ≢ ExportError.Fault Which.Recording) }
    ensures unnamed { IfErr result IsUnnamed }
{
    let entry = entry_of(schema, number, text, rows);
    add_text(export, file, text)?;
    put_entry(export, meta, entry)
}

/// The texts of rows, one after the other.
fn rows_text(alloc: Global, rows: &[Row]) -> Result<Bytes, AllocError>
    ensures { IfOk result (λ text. text ≡ row_lines rows.now) }
{
    let mut text = Bytes::new(alloc);
    for row in rows {
        write_row(alloc, row, &mut text)?;
    }
    Ok(text)
}

/// The record of a table's snapshot.
fn entry_of(schema: &Schema, number: usize, text: &[u8], rows: &[Row]) -> MetaRecord
    requires within { number < length schema.now.tables }
    requires text { text.now ≡ row_lines rows.now }
    ensures is { result ≡ snapshot_entry (length schema.now.tables) number rows.now }
    ensures few { length rows.now ≤ length text.now }
{
    MetaRecord::Snapshot {
        table: number as u32,
        of: schema.tables.len() as u32,
        bytes: text.len() as u64,
        rows: rows.len() as u64,
    }
}

/// The snapshot file of the table of this number.
fn file_at(alloc: Global, schema: &Schema, number: usize) -> Result<Name, AllocError>
    requires within { number < length schema.now.tables }
    ensures { IfOk result (λ file. file ≡ file_at schema.now.tables number) }
{
    snapshot_file(alloc, &schema.tables.as_slice()[number])
}

/// Writes a file anew, and makes it safe.
fn add_text<D: Disk>(export: &mut D, file: &Name, text: &[u8]) -> Result<(), ExportError>
    requires few { length text.now ≤ MAX_SNAPSHOT_BYTES }
    ensures written { OnOk result (IfTold (D.files export.new) (IsSafeBehind file.now 0 text.now)) }
    ensures keeps { Follows (KeepsFront file.now 0) (ImagesOf (D.files export.old)) (ImagesOf (D.files export.new)) }
    ensures others { Change (KeepsOtherFiles file.now) (D.files export.old) (D.files export.new) }
    ensures told { StaysTold (ImagesOf (D.files export.old)) (ImagesOf (D.files export.new)) }
    ensures lender { D.lender export.new ≡ D.lender export.old }
    ensures cause { HasCause (ExportError.Fault Which.Export) (D.faults export.old) (D.faults export.new) result }
    ensures no_recording { IfErr result (λ error. error ≢ ExportError.Fault Which.Recording) }
    ensures unnamed { IfErr result IsUnnamed }
{
    match append_bytes(export, file, 0, text) {
        Ok(()) => Ok(()),
        Err(DiskError::Failed) => Err(ExportError::Fault(Which::Export)),
        Err(DiskError::NoMemory) => Err(ExportError::NoMemory),
    }
}

/// Puts a record.
fn put_entry<D: Disk>(export: &mut D, meta: &mut Meta, entry: MetaRecord) -> Result<(), ExportError>
    requires kind { IsSnapshotRecord entry }
    requires live { IsTrue (meta_live meta.old) }
    requires stands { MetaStands meta.old (D.files export.old) }
    requires allowed { IsTrue (is_allowed (meta_state meta.old) entry) }
    ensures all { DoesAll AddsRecords (entry ∷ []) result (ImagesOf (D.files export.old)) (ImagesOf (D.files export.new)) }
    ensures state { OnOk result (meta_state meta.new ≡ after_record (meta_state meta.old) entry) }
    ensures adds { OnOk result (AddsSnapshotRecords (meta_state meta.old) (meta_state meta.new)) }
    ensures stands { OnOk result (MetaStands meta.new (D.files export.new)) }
    ensures live { OnOk result (IsTrue (meta_live meta.new)) }
    ensures prefix { LeavesPrefix AddsRecords (entry ∷ []) (ImagesOf (D.files export.old)) (ImagesOf (D.files export.new)) }
    ensures others { Change (KeepsOtherFiles meta_name) (D.files export.old) (D.files export.new) }
    ensures told { StaysTold (ImagesOf (D.files export.old)) (ImagesOf (D.files export.new)) }
    ensures lender { D.lender export.new ≡ D.lender export.old }
    ensures cause { HasCause (ExportError.Fault Which.Export) (D.faults export.old) (D.faults export.new) result }
    ensures no_recording { IfErr result (λ error. error ≢ ExportError.Fault Which.Recording) }
    ensures unnamed { IfErr result IsUnnamed }
{
    match meta.put(export, entry) {
        Ok(()) => Ok(()),
        Err(MetaError::Fault) => Err(ExportError::Fault(Which::Export)),
        Err(MetaError::NoMemory) => Err(ExportError::NoMemory),
        Err(MetaError::Damaged { .. }) => unreachable!(),
    }
}

/// Exports the table of this number, which is the next one, and answers the bytes of its recorded file and of those in front of it.
fn export_table<D: Disk>(
    alloc: Global,
    schema: &Schema,
    recording: &mut D,
    export: &mut D,
    meta: &mut Meta,
    number: usize,
    sum: u64,
) -> Result<u64, ExportError>
    requires within { number < length schema.now.tables }
    requires few { sum ≤ MAX_CSV_BYTES }
    requires live { IsTrue (meta_live meta.old) }
    requires stands { MetaStands meta.old (D.files export.old) }
    requires next { length (meta_state meta.old).snapshots ≡ number }
    requires tables { (meta_state meta.old).snapshots ≢ [] → (meta_state meta.old).tables ≡ length schema.now.tables }
    ensures turns { IfTold (D.files recording.old) (λ fs.
        Turns schema.now.tables (now_image fs) number sum result (meta_state meta.old) (meta_state meta.new) (D.files export.old) (D.files export.new)) }
    ensures adds { AtEnd result (AddsSnapshotRecords (meta_state meta.old) (meta_state meta.new)) }
    ensures few { IfOk result (λ next. next ≤ MAX_CSV_BYTES) }
    ensures counts { OnOk result (length (meta_state meta.new).snapshots ≡ number + 1) }
    ensures tables { AtEnd result ((meta_state meta.new).snapshots ≢ [] → (meta_state meta.new).tables ≡ length schema.now.tables) }
    ensures live { AtEnd result (IsTrue (meta_live meta.new)) }
    ensures stands { AtEnd result (MetaStands meta.new (D.files export.new)) }
    ensures others { Change (KeepsBeside (OneOf (meta_name ∷ snapshot_files schema.now.tables))) (D.files export.old) (D.files export.new) }
    ensures told { StaysTold (ImagesOf (D.files export.old)) (ImagesOf (D.files export.new)) }
    ensures same { D.files recording.new ≡ D.files recording.old }
    ensures lender_recording { D.lender recording.new ≡ D.lender recording.old }
    ensures lender_export { D.lender export.new ≡ D.lender export.old }
    ensures cause_recording { HasCause (ExportError.Fault Which.Recording) (D.faults recording.old) (D.faults recording.new) result }
    ensures cause_export { HasCause (ExportError.Fault Which.Export) (D.faults export.old) (D.faults export.new) result }
{
    let Recorded { rows, sum } = read_table(
        alloc,
        recording,
        &schema.tables.as_slice()[number],
        sum,
    )?;
    write_snapshot(alloc, schema, export, meta, number, rows.as_slice())?;
    Ok(sum)
}

/// The turn of the table of this number: one that is recorded is counted, and another is the next one and is exported.
pub(crate) fn take_table<D: Disk>(
    alloc: Global,
    schema: &Schema,
    recording: &mut D,
    export: &mut D,
    meta: &mut Meta,
    number: usize,
    sum: u64,
) -> Result<u64, ExportError>
    requires within { number < length schema.now.tables }
    requires few { sum ≤ MAX_CSV_BYTES }
    requires live { IsTrue (meta_live meta.old) }
    requires stands { MetaStands meta.old (D.files export.old) }
    requires recorded { number ≤ length (meta_state meta.old).snapshots }
    requires tables { (meta_state meta.old).snapshots ≢ [] → (meta_state meta.old).tables ≡ length schema.now.tables }
    ensures turns { IfTold (D.files recording.old) (λ fs.
        Turns schema.now.tables (now_image fs) number sum result (meta_state meta.old) (meta_state meta.new) (D.files export.old) (D.files export.new)) }
    ensures adds { AtEnd result (AddsSnapshotRecords (meta_state meta.old) (meta_state meta.new)) }
    ensures few { IfOk result (λ next. next ≤ MAX_CSV_BYTES) }
    ensures recorded { OnOk result (number + 1 ≤ length (meta_state meta.new).snapshots) }
    ensures whole { OnOk result (length (meta_state meta.old).snapshots ≤ length schema.now.tables → length (meta_state meta.new).snapshots ≤ length schema.now.tables) }
    ensures tables { AtEnd result ((meta_state meta.new).snapshots ≢ [] → (meta_state meta.new).tables ≡ length schema.now.tables) }
    ensures live { AtEnd result (IsTrue (meta_live meta.new)) }
    ensures stands { AtEnd result (MetaStands meta.new (D.files export.new)) }
    ensures others { Change (KeepsBeside (OneOf (meta_name ∷ snapshot_files schema.now.tables))) (D.files export.old) (D.files export.new) }
    ensures told { StaysTold (ImagesOf (D.files export.old)) (ImagesOf (D.files export.new)) }
    ensures same { D.files recording.new ≡ D.files recording.old }
    ensures lender_recording { D.lender recording.new ≡ D.lender recording.old }
    ensures lender_export { D.lender export.new ≡ D.lender export.old }
    ensures cause_recording { HasCause (ExportError.Fault Which.Recording) (D.faults recording.old) (D.faults recording.new) result }
    ensures cause_export { HasCause (ExportError.Fault Which.Export) (D.faults export.old) (D.faults export.new) result }
{
    if is_recorded(meta, number) {
        count_table(alloc, recording, &schema.tables.as_slice()[number], sum)
    } else {
        export_table(alloc, schema, recording, export, meta, number, sum)
    }
}

/// Whether the snapshot of the table of this number is recorded.
fn is_recorded(meta: &Meta, number: usize) -> bool
    ensures { result ≡ nat_lt number (length (meta_state meta.now).snapshots) }
{
    number < meta.state().snapshots.len()
}
