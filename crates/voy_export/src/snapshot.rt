ghost use Rattle.std.specs.Prelude.{ℕ, slice_get, ◌≡◌, ◌≢◌, ◌≤◌, ◌+◌, ◌↔◌, ◌⊎◌, List, None, Some, [], ◌∷◌, length, map, option_map, IfErr, IfOk, IsTrue, OnOk};
ghost use Rattle.voy_disk.specs.Calls.{Change};
ghost use Rattle.voy_disk.specs.Faults.{HasCause};
ghost use Rattle.voy_disk.specs.Files.{IfTold};
ghost use Rattle.voy_disk.specs.Frames.{KeepsBeside, OneOf};
ghost use Rattle.voy_disk.specs.Images.{ImagesOf, now_image};
ghost use Rattle.voy_disk.specs.Steps.{Does, Follows, Goes, LeavesPrefix, StaysTold};
ghost use Rattle.voy_export.specs.Put.{AddsSnapshotRecords};
ghost use Rattle.voy_export.specs.Calls.{AtEnd, Tells, snapshot_entries, snapshot_files, snapshot_steps, all_rows};
ghost use Rattle.voy_export.specs.Ends.{Stop, finished, snapshot_end};
ghost use Rattle.voy_export.specs.Exports.{exports_in};
ghost use Rattle.voy_export.specs.Recording.{recording_of};
ghost use Rattle.voy_export.specs.Snapshots.{ComesTo, end_from};
ghost use Rattle.voy_export.specs.Steps.{MayExport, export_step};
ghost use Rattle.voy_meta.specs.Meta.{MetaStands, meta_name, meta_state};
ghost use Rattle.voy_meta.specs.Meta.{is_live as meta_live};
ghost use Rattle.voy_meta.specs.Stands.{IsConsistent, IsSized};
ghost use Rattle.voy_meta.specs.State.{state_after};
ghost use Rattle.voy_schema.specs.declared.limits.TheConstants.{MAX_TABLES};

use crate::error::{ExportError, Which};
use crate::tables::take_table;
use std::alloc::Global;
use voy_disk::Disk;
use voy_meta::{Meta, SnapshotState, consistent};
use voy_schema::Schema;

/// Exports the snapshot of each table that has no record yet, in order: the row texts of its recorded CSV file, in recorded order. Once a
/// file is safe its record is put. It answers the rows of all tables.
///
/// The recorded files are counted together in the order of their tables, those of exported tables too, and each before it is read;
/// where no table is missing none is counted. Where a file is refused or passes the limit, the tables in front of it are exported.
/// A snapshot file that no record names is made anew.
pub fn export_snapshot<D: Disk>(
    alloc: Global,
    schema: &Schema,
    recording: &mut D,
    export: &mut D,
    meta: &mut Meta,
) -> Result<u64, ExportError>
    requires live { IsTrue (meta_live meta.old) }
    requires stands { MetaStands meta.old (D.files export.old) }
    requires tables { (meta_state meta.old).snapshots ≢ [] → (meta_state meta.old).tables ≡ length schema.now.tables }

    // what the recording gives
    ensures done { IfOk result (λ _. IfTold (D.files recording.old) (λ fs.
        (snapshot_end schema.now.tables (now_image fs) (length (meta_state meta.old).snapshots)).stop ≡ finished)) }
    ensures rows { IfOk result (λ rows. rows ≡ all_rows (meta_state meta.new).snapshots) }
    ensures told { IfErr result (λ error. IfTold (D.files recording.old) (λ fs.
        Tells (snapshot_end schema.now.tables (now_image fs) (length (meta_state meta.old).snapshots)).stop error)) }
    // at its end, whether it did all or was refused a file
    ensures all { AtEnd result (IfTold (D.files recording.old) (λ fs. Follows
        (Does (exports_in schema.now.tables) export_step (snapshot_steps (length schema.now.tables) (length (meta_state meta.old).snapshots)
        (snapshot_end schema.now.tables (now_image fs) (length (meta_state meta.old).snapshots)).added))
        (ImagesOf (D.files export.old)) (ImagesOf (D.files export.new)))) }
    ensures state { AtEnd result (IfTold (D.files recording.old) (λ fs. meta_state meta.new ≡ state_after (meta_state meta.old)
        (snapshot_entries (length schema.now.tables) (length (meta_state meta.old).snapshots)
        (snapshot_end schema.now.tables (now_image fs) (length (meta_state meta.old).snapshots)).added))) }
    ensures live { AtEnd result (IsTrue (meta_live meta.new)) }
    ensures stands { AtEnd result (MetaStands meta.new (D.files export.new)) }
    ensures tables { AtEnd result ((meta_state meta.new).snapshots ≢ [] → (meta_state meta.new).tables ≡ length schema.now.tables) }
    ensures adds { AtEnd result (AddsSnapshotRecords (meta_state meta.old) (meta_state meta.new)) }
    ensures whole { OnOk result (length (meta_state meta.new).snapshots ≡ length schema.now.tables) }
    // whatever it answers
    ensures prefix { IfTold (D.files recording.old) (λ fs. LeavesPrefix
        (Does (exports_in schema.now.tables) export_step) (snapshot_steps (length schema.now.tables) (length (meta_state meta.old).snapshots)
        (snapshot_end schema.now.tables (now_image fs) (length (meta_state meta.old).snapshots)).added)
        (ImagesOf (D.files export.old)) (ImagesOf (D.files export.new))) }
    ensures moves { IfTold (D.files recording.old) (λ fs. Goes (exports_in schema.now.tables) export_step (MayExport (recording_of schema.now.tables (now_image fs)))
        (ImagesOf (D.files export.old)) (ImagesOf (D.files export.new))) }
    ensures others { Change (KeepsBeside (OneOf (meta_name ∷ snapshot_files schema.now.tables))) (D.files export.old) (D.files export.new) }
    ensures told_still { StaysTold (ImagesOf (D.files export.old)) (ImagesOf (D.files export.new)) }
    ensures same { D.files recording.new ≡ D.files recording.old }
    ensures lender_recording { D.lender recording.new ≡ D.lender recording.old }
    ensures lender_export { D.lender export.new ≡ D.lender export.old }
    // when a fault comes
    ensures cause_recording { HasCause (ExportError.Fault Which.Recording) (D.faults recording.old) (D.faults recording.new) result }
    ensures cause_export { HasCause (ExportError.Fault Which.Export) (D.faults export.old) (D.faults export.new) result }
{
    // The law that recorded states are consistent; there is nothing to run.
    consistent();
    export_missing(alloc, schema, recording, export, meta)?;
    Ok(rows_of(meta))
}

/// Exports the tables that have no record yet, if there are any.
fn export_missing<D: Disk>(
    alloc: Global,
    schema: &Schema,
    recording: &mut D,
    export: &mut D,
    meta: &mut Meta,
) -> Result<(), ExportError>
    requires live { IsTrue (meta_live meta.old) }
    requires stands { MetaStands meta.old (D.files export.old) }
    requires tables { (meta_state meta.old).snapshots ≢ [] → (meta_state meta.old).tables ≡ length schema.now.tables }
    requires most { length (meta_state meta.old).snapshots ≤ length schema.now.tables }
    ensures comes { IfTold (D.files recording.old) (λ fs.
        ComesTo schema.now.tables (now_image fs) (snapshot_end schema.now.tables (now_image fs) (length (meta_state meta.old).snapshots))
        result (meta_state meta.old) (meta_state meta.new) (D.files export.old) (D.files export.new)) }
    ensures adds { AtEnd result (AddsSnapshotRecords (meta_state meta.old) (meta_state meta.new)) }
    ensures whole { OnOk result (length (meta_state meta.new).snapshots ≡ length schema.now.tables) }
    ensures tables { AtEnd result ((meta_state meta.new).snapshots ≢ [] → (meta_state meta.new).tables ≡ length schema.now.tables) }
    ensures live { AtEnd result (IsTrue (meta_live meta.new)) }
    ensures stands { AtEnd result (MetaStands meta.new (D.files export.new)) }
    ensures others { Change (KeepsBeside (OneOf (meta_name ∷ snapshot_files schema.now.tables))) (D.files export.old) (D.files export.new) }
    ensures told { StaysTold (ImagesOf (D.files export.old)) (ImagesOf (D.files export.new)) }
    ensures same { D.files recording.new ≡ D.files recording.old }
    ensures lender_recording { D.lender recording.new ≡ D.lender recording.old }
    ensures lender_export { D.lender export.new ≡ D.lender export.old }
    ensures cause_recording { HasCause (ExportError.Fault Which.Recording) (D.faults recording.old) (D.faults recording.new) result }
    ensures cause_export { HasCause (ExportError.Fault Which.Export) (D.faults export.old) (D.faults export.new) result }
{
    if meta.state().snapshots.len() < schema.tables.len() {
        export_tables(alloc, schema, recording, export, meta)
    } else {
        Ok(())
    }
}

/// Exports the tables that have no record yet.
fn export_tables<D: Disk>(
    alloc: Global,
    schema: &Schema,
    recording: &mut D,
    export: &mut D,
    meta: &mut Meta,
) -> Result<(), ExportError>
    requires live { IsTrue (meta_live meta.old) }
    requires stands { MetaStands meta.old (D.files export.old) }
    requires tables { (meta_state meta.old).snapshots ≢ [] → (meta_state meta.old).tables ≡ length schema.now.tables }
    requires most { length (meta_state meta.old).snapshots ≤ length schema.now.tables }
    ensures comes { IfTold (D.files recording.old) (λ fs.
        ComesTo schema.now.tables (now_image fs) (end_from schema.now.tables (now_image fs) (length (meta_state meta.old).snapshots) 0 0)
        result (meta_state meta.old) (meta_state meta.new) (D.files export.old) (D.files export.new)) }
    ensures adds { AtEnd result (AddsSnapshotRecords (meta_state meta.old) (meta_state meta.new)) }
    ensures whole { OnOk result (length (meta_state meta.new).snapshots ≡ length schema.now.tables) }
    ensures tables { AtEnd result ((meta_state meta.new).snapshots ≢ [] → (meta_state meta.new).tables ≡ length schema.now.tables) }
    ensures live { AtEnd result (IsTrue (meta_live meta.new)) }
    ensures stands { AtEnd result (MetaStands meta.new (D.files export.new)) }
    ensures others { Change (KeepsBeside (OneOf (meta_name ∷ snapshot_files schema.now.tables))) (D.files export.old) (D.files export.new) }
    ensures told { StaysTold (ImagesOf (D.files export.old)) (ImagesOf (D.files export.new)) }
    ensures same { D.files recording.new ≡ D.files recording.old }
    ensures lender_recording { D.lender recording.new ≡ D.lender recording.old }
    ensures lender_export { D.lender export.new ≡ D.lender export.old }
    ensures cause_recording { HasCause (ExportError.Fault Which.Recording) (D.faults recording.old) (D.faults recording.new) result }
    ensures cause_export { HasCause (ExportError.Fault Which.Export) (D.faults export.old) (D.faults export.new) result }
{
    let mut sum = 0;
    for number in 0..schema.tables.len() {
        match take_table(alloc, schema, recording, export, meta, number, sum) {
            Ok(next) => sum = next,
            Err(error) => return Err(error),
        }
    }
    Ok(())
}

/// The rows of all recorded tables.
fn rows_of(meta: &Meta) -> u64
    requires { IsConsistent (meta_state meta.now) }
    ensures { result ≡ all_rows (meta_state meta.now).snapshots }
{
    rows_in(meta.state().snapshots.as_slice())
}

fn rows_in(snapshots: &[SnapshotState]) -> u64
    requires few { length snapshots.now ≤ MAX_TABLES }
    requires sized { (n : ℕ) (one : _) → slice_get snapshots.now n ≡ Some one → IsSized one }
    ensures { result ≡ all_rows snapshots.now }
{
    let mut rows = 0;
    for snapshot in snapshots {
        rows += snapshot.rows;
    }
    rows
}
