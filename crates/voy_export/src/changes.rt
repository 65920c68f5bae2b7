ghost use Rattle.std.specs.Prelude.{if◌then◌else◌, ◌≡◌, ◌≢◌, ◌≤◌, ◌+◌, ◌-◌, List, [], Some, None, IfErr, IfOk, IsTrue, OnOk, is_some, length, take, true, false};
ghost use Rattle.voy_disk.specs.Calls.{Change};
ghost use Rattle.voy_disk.specs.Faults.{HasCause};
ghost use Rattle.voy_disk.specs.Files.{IfTold};
ghost use Rattle.voy_disk.specs.Frames.{KeepsBeside};
ghost use Rattle.voy_disk.specs.Images.{ImagesOf, now_image};
ghost use Rattle.voy_disk.specs.Steps.{Every, Follows, Goes, SomeFirst, StaysTold};
ghost use Rattle.voy_export.specs.Calls.{AtEnd, IsQueueFile, Tells, count_changes};
ghost use Rattle.voy_export.specs.Ends.{export_end, finished};
ghost use Rattle.voy_export.specs.Exports.{exports_in};
ghost use Rattle.voy_export.specs.Put.{AddsQueueRecords, HasPut};
ghost use Rattle.voy_export.specs.Recording.{recording_of};
ghost use Rattle.voy_export.specs.Sound.{SoundExports};
ghost use Rattle.voy_export.specs.Steps.{MayExport, export_step, last_vsn};
ghost use Rattle.voy_feed.specs.Feed.{FeedStands, changes_left, last_kept};
ghost use Rattle.voy_feed.specs.Kept.{change_file, changes_of};
ghost use Rattle.voy_meta.specs.Allowed.{has_snapshot, writes};
ghost use Rattle.voy_meta.specs.Meta.{MetaStands, meta_state};
ghost use Rattle.voy_meta.specs.Meta.{is_live as meta_live};
ghost use Rattle.voy_meta.specs.Sides.{is_ended, last_of, leads_to, request_of};
ghost use Rattle.voy_queue.specs.Putting.{end_behind, recorded_end};
ghost use Rattle.voy_queue.specs.Writer.{WriterStands, closing_size, committed_end, is_live, pending, writer_role};

use crate::error::{ExportError, Which};
use crate::exported::{Exported, exported_between};
use crate::laws::exports_are_next;
use crate::plan::Plan;
use crate::turns::export_turns;
use std::alloc::Global;
use voy_disk::Disk;
use voy_feed::{Feed, Keep};
use voy_meta::{Meta, metadata_stand};
use voy_queue::{Writer, puts_go_on};
use voy_schema::Schema;

/// Exports the next kept changes into the queue: all, or the first `max` of them where there are more. Where `end` is true and no kept
/// change is left, the cutover event comes behind them.
///
/// The feed was just opened over the change file of the writer's exporter, and the keep was made of its last recorded place. The export
/// commits after each 1,000th event, at each closed segment and at its end. Where a line has no reading, what stands in front of it is
/// exported, and no cutover; where no vsn or segment is left for an event, what stands in front of that. Without `end` no line is read
/// behind the change that reaches the maximum. After the call the feed and the keep are given up.
pub fn export_changes<D: Disk>(
    alloc: Global,
    schema: &Schema,
    feed: &mut Feed,
    keep: &mut Keep,
    recording: &mut D,
    writer: &mut Writer,
    export: &mut D,
    meta: &mut Meta,
    max: Option<u64>,
    end: bool,
) -> Result<Exported, ExportError>
    requires feed { FeedStands feed.old (D.files recording.old) }
    requires start { IfTold (D.files recording.old) (λ fs.
        changes_left schema.now.tables feed.old fs ≡ changes_of schema.now.tables (now_image fs (change_file (writer_role writer.old)))) }
    requires place { last_kept keep.old ≡ last_of (writer_role writer.old) (meta_state meta.old) }
    requires live { IsTrue (is_live writer.old) }
    requires nothing { pending writer.old ≡ [] }
    requires recorded { committed_end writer.old ≡ recorded_end (meta_state meta.old) (writer_role writer.old) }
    requires writer { WriterStands writer.old (D.files export.old) }
    requires meta { IsTrue (meta_live meta.old) }
    requires stands { MetaStands meta.old (D.files export.old) }
    requires snapshot { IsTrue (has_snapshot (meta_state meta.old)) }
    requires may { IsTrue (writes (meta_state meta.old) (writer_role writer.old)) }
    requires asked { end ≡ true → IsTrue (is_some (request_of (leads_to (writer_role writer.old)) (meta_state meta.old))) }

    // what the recording gives
    ensures done { OnOk result (IfTold (D.files recording.old) (λ fs.
        (export_end schema.now.tables (closing_size writer.old) (now_image fs) (writer_role writer.old) (meta_state meta.old) max end).stop ≡ finished)) }
    ensures changes { IfOk result (λ exported. IfTold (D.files recording.old) (λ fs. exported.changes ≡ count_changes
        (export_end schema.now.tables (closing_size writer.old) (now_image fs) (writer_role writer.old) (meta_state meta.old) max end).puts)) }
    ensures counts { IfOk result (λ exported. exported.changes ≡ last_vsn (meta_state meta.new) - last_vsn (meta_state meta.old)
        - (if is_ended (writer_role writer.old) (meta_state meta.new) then 1 else 0)) }
    ensures last_vsn { IfOk result (λ exported. exported.last_vsn ≡ last_vsn (meta_state meta.new)) }
    ensures told { IfErr result (λ error. IfTold (D.files recording.old) (λ fs. Tells
        (export_end schema.now.tables (closing_size writer.old) (now_image fs) (writer_role writer.old) (meta_state meta.old) max end).stop error)) }
    // at its end, whether it did all or was refused a line
    ensures all { AtEnd result (IfTold (D.files recording.old) (λ fs. Follows
        (HasPut schema.now.tables (writer_role writer.old) (closing_size writer.old) (recorded_end (meta_state meta.old) (writer_role writer.old))
        (export_end schema.now.tables (closing_size writer.old) (now_image fs) (writer_role writer.old) (meta_state meta.old) max end).puts)
        (ImagesOf (D.files export.old)) (ImagesOf (D.files export.new)))) }
    ensures end { AtEnd result (IfTold (D.files recording.old) (λ fs. recorded_end (meta_state meta.new) (writer_role writer.old)
        ≡ end_behind schema.now.tables (closing_size writer.old) (recorded_end (meta_state meta.old) (writer_role writer.old))
        (export_end schema.now.tables (closing_size writer.old) (now_image fs) (writer_role writer.old) (meta_state meta.old) max end).puts)) }
    ensures recorded { AtEnd result (committed_end writer.new ≡ recorded_end (meta_state meta.new) (writer_role writer.new)) }
    ensures nothing { AtEnd result (pending writer.new ≡ []) }
    ensures writer { AtEnd result (WriterStands writer.new (D.files export.new)) }
    ensures live { AtEnd result (IsTrue (is_live writer.new)) }
    ensures stands { AtEnd result (MetaStands meta.new (D.files export.new)) }
    ensures meta { AtEnd result (IsTrue (meta_live meta.new)) }
    ensures adds { AtEnd result (AddsQueueRecords (meta_state meta.old) (meta_state meta.new)) }
    // whatever it answers
    ensures prefix { IfTold (D.files recording.old) (λ fs. Follows
        (SomeFirst (HasPut schema.now.tables (writer_role writer.old) (closing_size writer.old) (recorded_end (meta_state meta.old) (writer_role writer.old)))
        (export_end schema.now.tables (closing_size writer.old) (now_image fs) (writer_role writer.old) (meta_state meta.old) max end).puts)
        (ImagesOf (D.files export.old)) (ImagesOf (D.files export.new))) }
    ensures moves { IfTold (D.files recording.old) (λ fs.
        Every (ImagesOf (D.files export.old)) (λ image. SoundExports (recording_of schema.now.tables (now_image fs)) (exports_in schema.now.tables image))
        → Goes (exports_in schema.now.tables) export_step (MayExport (recording_of schema.now.tables (now_image fs)))
        (ImagesOf (D.files export.old)) (ImagesOf (D.files export.new))) }
    ensures role { writer_role writer.new ≡ writer_role writer.old }
    ensures size { closing_size writer.new ≡ closing_size writer.old }
    ensures others { Change (KeepsBeside IsQueueFile) (D.files export.old) (D.files export.new) }
    ensures told_still { StaysTold (ImagesOf (D.files export.old)) (ImagesOf (D.files export.new)) }
    ensures same { D.files recording.new ≡ D.files recording.old }
    ensures lender_recording { D.lender recording.new ≡ D.lender recording.old }
    ensures lender_export { D.lender export.new ≡ D.lender export.old }
    // when a fault comes
    ensures cause_recording { HasCause (ExportError.Fault Which.Recording) (D.faults recording.old) (D.faults recording.new) result }
    ensures cause_export { HasCause (ExportError.Fault Which.Export) (D.faults export.old) (D.faults export.new) result }
{
    // Laws of exports, of the metadata and of the queue; there is nothing to run.
    exports_are_next();
    metadata_stand();
    puts_go_on();
    let from = writer.end();
    let plan = Plan { left: max, end };
    export_turns(
        alloc, schema, feed, keep, recording, writer, export, meta, plan,
    )?;
    Ok(exported_between(from, writer.end()))
}
