ghost use Rattle.std.specs.Prelude.{◌≡◌, ◌≢◌, List, [], IfErr, IsTrue, OnOk, is_some, false, true};
ghost use Rattle.voy_disk.specs.Calls.{Change};
ghost use Rattle.voy_disk.specs.Faults.{HasCause};
ghost use Rattle.voy_disk.specs.Frames.{KeepsBeside};
ghost use Rattle.voy_disk.specs.Images.{ImagesOf};
ghost use Rattle.voy_disk.specs.Steps.{Every, Follows, Goes, SomeFirst, StaysTold};
ghost use Rattle.voy_export.specs.Calls.{IsQueueFile, IsUnnamed};
ghost use Rattle.voy_export.specs.Exports.{exports_in};
ghost use Rattle.voy_export.specs.Laws.{AreNext};
ghost use Rattle.voy_export.specs.Put.{AddsQueueRecords, HasPut};
ghost use Rattle.voy_export.specs.Recording.{Recording};
ghost use Rattle.voy_export.specs.Sound.{SoundExports};
ghost use Rattle.voy_export.specs.Steps.{MayExport, export_step, last_vsn};
ghost use Rattle.voy_meta.specs.Allowed.{has_snapshot, writes};
ghost use Rattle.voy_meta.specs.Meta.{MetaStands, meta_state};
ghost use Rattle.voy_meta.specs.Meta.{is_live as meta_live};
ghost use Rattle.voy_meta.specs.Sides.{leads_to, request_of};
ghost use Rattle.voy_queue.specs.Putting.{MayFollowInTurn, Put, end_behind, pending_with, recorded_end};
ghost use Rattle.voy_queue.specs.Writer.{WriterStands, closing_size, committed_end, is_live, pending, writer_end, writer_role};
ghost use Rattle.voy_schema.specs.Lawful.{is_lawful};
ghost use Rattle.voy_schema.specs.declared.table.Table.{Table};
ghost use Rattle.voy_tables.specs.declared.change.Side.{Side};

use crate::error::{ExportError, Which};
use crate::laws::commits_are_lawful;
use voy_disk::Disk;
use voy_meta::{Meta, consistent, metadata_stand, records_join, states_grow};
use voy_queue::{QueueError, Writer, puts_are_behind, puts_go_on, puts_join};

/// Commits what is pending.
pub(crate) fn commit<D: Disk>(
    writer: &mut Writer,
    export: &mut D,
    meta: &mut Meta,
) -> Result<(), ExportError>
    requires live { IsTrue (is_live writer.old) }
    requires writer { WriterStands writer.old (D.files export.old) }
    requires meta { IsTrue (meta_live meta.old) }
    requires stands { MetaStands meta.old (D.files export.old) }
    requires recorded { committed_end writer.old ≡ recorded_end (meta_state meta.old) (writer_role writer.old) }
    requires snapshot { IsTrue (has_snapshot (meta_state meta.old)) }
    requires may { IsTrue (writes (meta_state meta.old) (writer_role writer.old)) }
    requires asked { (writer_end writer.old).ended ≡ true → IsTrue (is_some (request_of (leads_to (writer_role writer.old)) (meta_state meta.old))) }
    // after Ok
    ensures all { OnOk result ((schema : List Table) (puts : List Put) → is_lawful schema ≡ true
        → pending writer.old ≡ pending_with schema (closing_size writer.old) (committed_end writer.old) [] puts
        → Follows (HasPut schema (writer_role writer.old) (closing_size writer.old) (committed_end writer.old) puts) (ImagesOf (D.files export.old)) (ImagesOf (D.files export.new))) }
    ensures end { OnOk result (committed_end writer.new ≡ writer_end writer.old) }
    ensures recorded { OnOk result (committed_end writer.new ≡ recorded_end (meta_state meta.new) (writer_role writer.new)) }
    ensures writer { OnOk result (WriterStands writer.new (D.files export.new)) }
    ensures stands { OnOk result (MetaStands meta.new (D.files export.new)) }
    ensures live { OnOk result (IsTrue (is_live writer.new)) }
    ensures meta { OnOk result (IsTrue (meta_live meta.new)) }
    ensures adds { OnOk result (AddsQueueRecords (meta_state meta.old) (meta_state meta.new)) }
    ensures snapshot { OnOk result (IsTrue (has_snapshot (meta_state meta.new))) }
    ensures may { OnOk result ((writer_end writer.old).ended ≡ false → IsTrue (writes (meta_state meta.new) (writer_role writer.old))) }
    ensures asked { OnOk result ((to : Side) → IsTrue (is_some (request_of to (meta_state meta.old))) → IsTrue (is_some (request_of to (meta_state meta.new)))) }
    // whatever it answers
    ensures some { (schema : List Table) (puts : List Put) → is_lawful schema ≡ true
        → pending writer.old ≡ pending_with schema (closing_size writer.old) (committed_end writer.old) [] puts
        → Follows (SomeFirst (HasPut schema (writer_role writer.old) (closing_size writer.old) (committed_end writer.old)) puts) (ImagesOf (D.files export.old)) (ImagesOf (D.files export.new)) }
    ensures moves { (recording : Recording) (puts : List Put) → is_lawful recording.schema ≡ true
        → pending writer.old ≡ pending_with recording.schema (closing_size writer.old) (committed_end writer.old) [] puts
        → MayFollowInTurn recording.schema (writer_role writer.old) (closing_size writer.old) (committed_end writer.old) puts
        → AreNext recording (last_vsn (meta_state meta.old)) puts
        → Every (ImagesOf (D.files export.old)) (λ image. SoundExports recording (exports_in recording.schema image))
        → Goes (exports_in recording.schema) export_step (MayExport recording) (ImagesOf (D.files export.old)) (ImagesOf (D.files export.new)) }
    ensures pending { pending writer.new ≡ [] }
    ensures role { writer_role writer.new ≡ writer_role writer.old }
    ensures size { closing_size writer.new ≡ closing_size writer.old }
    ensures others { Change (KeepsBeside IsQueueFile) (D.files export.old) (D.files export.new) }
    ensures told { StaysTold (ImagesOf (D.files export.old)) (ImagesOf (D.files export.new)) }
    ensures lender { D.lender export.new ≡ D.lender export.old }
    ensures cause { HasCause (ExportError.Fault Which.Export) (D.faults export.old) (D.faults export.new) result }
    ensures no_recording { IfErr result (λ error. error ≢ ExportError.Fault Which.Recording) }
    ensures unnamed { IfErr result IsUnnamed }
{
    // Laws of the queue, of the metadata and of exports; there is nothing to run.
    consistent();
    records_join();
    states_grow();
    metadata_stand();
    puts_are_behind();
    puts_go_on();
    puts_join();
    commits_are_lawful();
    match writer.commit(export, meta) {
        Ok(()) => Ok(()),
        Err(error) => Err(failure(error)),
    }
}

/// What an error of a commit comes to.
fn failure(error: QueueError) -> ExportError
    requires { (segment : _) (offset : _) → error ≢ QueueError.Damaged segment offset }
    ensures fault { result ≡ ExportError.Fault Which.Export → error ≡ QueueError.Fault }
    ensures export { result ≢ ExportError.Fault Which.Recording }
    ensures unnamed { IsUnnamed result }
{
    match error {
        QueueError::Fault => ExportError::Fault(Which::Export),
        QueueError::NoMemory => ExportError::NoMemory,
        QueueError::Damaged { .. } => unreachable!(),
    }
}
