ghost use Rattle.std.specs.Prelude.{◌≡◌, ◌≢◌, ◌≤◌, [], ◌∷◌, is_some, length, map, Ok, IfErr, IsFalse, IsTrue, OnErr, OnOk, true};
ghost use Rattle.voy_append.specs.Appending.{IsSafeBehind, IsSafeTo};
ghost use Rattle.voy_disk.specs.Calls.{Change};
ghost use Rattle.voy_disk.specs.Faults.{HasCause};
ghost use Rattle.voy_disk.specs.Files.{IfTold};
ghost use Rattle.voy_disk.specs.Frames.{KeepsBeside, KeepsOtherFiles, OneOf};
ghost use Rattle.voy_disk.specs.Fronts.{KeepsFront};
ghost use Rattle.voy_disk.specs.Images.{ImagesOf};
ghost use Rattle.voy_disk.specs.Steps.{Does, DoesAll, Follows, LeavesPrefix, StaysTold};
ghost use Rattle.voy_meta.specs.Allowed.{allowed_after, has_snapshot, writes};
ghost use Rattle.voy_meta.specs.Meta.{AddsRecords, MetaStands, meta_name, meta_state};
ghost use Rattle.voy_meta.specs.Meta.{is_live as meta_live};
ghost use Rattle.voy_meta.specs.Sides.{leads_to, request_of};
ghost use Rattle.voy_meta.specs.State.{after_record, state_after};
ghost use Rattle.voy_meta.specs.declared.limits.TheConstants.{MAX_SEGMENT_BYTES};
ghost use Rattle.voy_queue.specs.Commit.{start_of};
ghost use Rattle.voy_queue.specs.Names.{segment_name};
ghost use Rattle.voy_queue.specs.Putting.{AreBehind, AreShut, IsBehind, commit_of, end_of, entry_of, recorded_end};
ghost use Rattle.voy_queue.specs.Shelf.{shelf_after, shelf_in};
ghost use Rattle.voy_queue.specs.Writer.{AllStand, StandsIn, WriterStands, closing_size, committed_end, commits_of, entries_of, is_live, names_of, pending, writer_end, writer_role};

use crate::asking::end_of;
use crate::end::Added;
use crate::error::QueueError;
use crate::names::segment_file;
use crate::writer::Writer;
use std::alloc::Global;
use std::mem::replace;
use voy_append::append_bytes;
use voy_disk::Disk;
use voy_meta::{Meta, MetaError, MetaRecord};
use voy_schema::Items;
use voy_tables::Role;

impl Writer {
    /// Commits what was put: the bytes of each segment in order, and once they are safe its record.
    ///
    /// Once it answers Ok, no stop can lose what was put. Whatever it answers, a stop leaves the queue with some first segments of what
    /// was put. After an error the writer is not live. Where nothing was put it calls neither the disk nor the metadata.
    pub fn commit<D: Disk>(&mut self, disk: &mut D, meta: &mut Meta) -> Result<(), QueueError>
        requires live { IsTrue (is_live self.old) }
        requires writer { WriterStands self.old (D.files disk.old) }
        requires meta { IsTrue (meta_live meta.old) }
        requires stands { MetaStands meta.old (D.files disk.old) }
        requires recorded { committed_end self.old ≡ recorded_end (meta_state meta.old) (writer_role self.old) }
        requires snapshot { pending self.old ≢ [] → IsTrue (has_snapshot (meta_state meta.old)) }
        requires may { pending self.old ≢ [] → IsTrue (writes (meta_state meta.old) (writer_role self.old)) }
        requires asked { pending self.old ≢ [] → (writer_end self.old).ended ≡ true
            → IsTrue (is_some (request_of (leads_to (writer_role self.old)) (meta_state meta.old))) }

        // after Ok
        ensures all { DoesAll (Does shelf_in shelf_after) (commits_of self.old) result (ImagesOf (D.files disk.old)) (ImagesOf (D.files disk.new)) }
        ensures state { OnOk result (meta_state meta.new ≡ state_after (meta_state meta.old) (entries_of self.old)) }
        ensures end { OnOk result (committed_end self.new ≡ writer_end self.old) }
        ensures recorded { OnOk result (committed_end self.new ≡ recorded_end (meta_state meta.new) (writer_role self.new)) }
        ensures writer { OnOk result (WriterStands self.new (D.files disk.new)) }
        ensures files { OnOk result (IfTold (D.files disk.new) (AllStand (pending self.old))) }
        ensures stands { OnOk result (MetaStands meta.new (D.files disk.new)) }
        ensures live { OnOk result (IsTrue (is_live self.new)) }
        ensures meta { OnOk result (IsTrue (meta_live meta.new)) }
        // after an error
        ensures dead { OnErr result (IsFalse (is_live self.new)) }
        // where nothing was put
        ensures nothing { pending self.old ≡ [] → result ≡ Ok _ }
        ensures untouched { pending self.old ≡ [] → disk.new ≡ disk.old }
        ensures unchanged { pending self.old ≡ [] → meta.new ≡ meta.old }
        // whatever it answers
        ensures allowed { IsTrue (allowed_after (meta_state meta.old) (entries_of self.old)) }
        ensures pending { pending self.new ≡ [] }
        ensures role { writer_role self.new ≡ writer_role self.old }
        ensures size { closing_size self.new ≡ closing_size self.old }
        ensures prefix { LeavesPrefix (Does shelf_in shelf_after) (commits_of self.old) (ImagesOf (D.files disk.old)) (ImagesOf (D.files disk.new)) }
        ensures others { Change (KeepsBeside (OneOf (names_of (pending self.old)))) (D.files disk.old) (D.files disk.new) }
        ensures told { StaysTold (ImagesOf (D.files disk.old)) (ImagesOf (D.files disk.new)) }
        ensures lender { D.lender disk.new ≡ D.lender disk.old }
        // when a fault comes
        ensures cause { HasCause QueueError.Fault (D.faults disk.old) (D.faults disk.new) result }
        ensures never_damaged { IfErr result (λ error. (segment : _) (offset : _) → error ≢ QueueError.Damaged segment offset) }
    {
        if self.pending.is_empty() {
            return Ok(());
        }
        self.live = false;
        let pending = replace(&mut self.pending, Items::new(self.alloc));
        let end = end_of(self.end, pending.as_slice());
        commit_all(self.alloc, disk, meta, self.role, pending.as_slice())?;
        self.end = end;
        self.live = true;
        Ok(())
    }
}

/// Commits segments in order. Each is safe before the next one begins.
fn commit_all<D: Disk>(
    alloc: Global,
    disk: &mut D,
    meta: &mut Meta,
    role: Role,
    pending: &[Added],
) -> Result<(), QueueError>
    requires live { IsTrue (meta_live meta.old) }
    requires stands { MetaStands meta.old (D.files disk.old) }
    requires snapshot { IsTrue (has_snapshot (meta_state meta.old)) }
    requires may { IsTrue (writes (meta_state meta.old) role) }
    requires asked { (end_of (recorded_end (meta_state meta.old) role) pending.now).ended ≡ true → IsTrue (is_some (request_of (leads_to role) (meta_state meta.old))) }
    requires behind { AreBehind (recorded_end (meta_state meta.old) role) pending.now }
    requires shut { AreShut pending.now }
    requires file { IfTold (D.files disk.old) (StandsIn (recorded_end (meta_state meta.old) role)) }
    ensures state { OnOk result (meta_state meta.new ≡ state_after (meta_state meta.old) (map (entry_of role) pending.now)) }
    ensures end { OnOk result (recorded_end (meta_state meta.new) role ≡ end_of (recorded_end (meta_state meta.old) role) pending.now) }
    ensures stands { OnOk result (MetaStands meta.new (D.files disk.new)) }
    ensures live { OnOk result (IsTrue (meta_live meta.new)) }
    ensures file { OnOk result (IfTold (D.files disk.new) (StandsIn (recorded_end (meta_state meta.new) role))) }
    ensures files { OnOk result (IfTold (D.files disk.new) (AllStand pending.now)) }
    ensures all { DoesAll (Does shelf_in shelf_after) (map (commit_of role) pending.now) result (ImagesOf (D.files disk.old)) (ImagesOf (D.files disk.new)) }
    ensures prefix { LeavesPrefix (Does shelf_in shelf_after) (map (commit_of role) pending.now) (ImagesOf (D.files disk.old)) (ImagesOf (D.files disk.new)) }
    ensures others { Change (KeepsBeside (OneOf (names_of pending.now))) (D.files disk.old) (D.files disk.new) }
    ensures lender { D.lender disk.new ≡ D.lender disk.old }
    ensures cause { HasCause QueueError.Fault (D.faults disk.old) (D.faults disk.new) result }
    ensures never_damaged { IfErr result (λ error. (segment : _) (offset : _) → error ≢ QueueError.Damaged segment offset) }
{
    for one in pending {
        commit_one(alloc, disk, meta, role, one)?;
    }
    Ok(())
}

/// Commits what was put into one segment: its bytes, and when they are safe its record.
fn commit_one<D: Disk>(
    alloc: Global,
    disk: &mut D,
    meta: &mut Meta,
    role: Role,
    one: &Added,
) -> Result<(), QueueError>
    requires live { IsTrue (meta_live meta.old) }
    requires stands { MetaStands meta.old (D.files disk.old) }
    requires snapshot { IsTrue (has_snapshot (meta_state meta.old)) }
    requires may { IsTrue (writes (meta_state meta.old) role) }
    requires asked { one.now.end.ended ≡ true → IsTrue (is_some (request_of (leads_to role) (meta_state meta.old))) }
    requires behind { IsBehind (recorded_end (meta_state meta.old) role) one.now }
    requires file { IfTold (D.files disk.old) (StandsIn (recorded_end (meta_state meta.old) role)) }
    ensures state { OnOk result (meta_state meta.new ≡ after_record (meta_state meta.old) (entry_of role one.now)) }
    ensures stands { OnOk result (MetaStands meta.new (D.files disk.new)) }
    ensures live { OnOk result (IsTrue (meta_live meta.new)) }
    ensures file { OnOk result (IfTold (D.files disk.new) (StandsIn one.now.end)) }
    ensures all { DoesAll (Does shelf_in shelf_after) (commit_of role one.now ∷ []) result (ImagesOf (D.files disk.old)) (ImagesOf (D.files disk.new)) }
    ensures prefix { LeavesPrefix (Does shelf_in shelf_after) (commit_of role one.now ∷ []) (ImagesOf (D.files disk.old)) (ImagesOf (D.files disk.new)) }
    ensures others { Change (KeepsBeside (OneOf (meta_name ∷ segment_name one.now.end.number ∷ []))) (D.files disk.old) (D.files disk.new) }
    ensures lender { D.lender disk.new ≡ D.lender disk.old }
    ensures cause { HasCause QueueError.Fault (D.faults disk.old) (D.faults disk.new) result }
    ensures never_damaged { IfErr result (λ error. (segment : _) (offset : _) → error ≢ QueueError.Damaged segment offset) }
{
    add_bytes(alloc, disk, one)?;
    put_record(disk, meta, role, one)
}

/// Writes what was put into a segment, and makes it safe.
#[tactic(auto, using(voy_disk::specs::ChangeLaws::others_still))]
fn add_bytes<D: Disk>(alloc: Global, disk: &mut D, one: &Added) -> Result<(), QueueError>
    requires small { one.now.end.bytes ≤ MAX_SEGMENT_BYTES }
    requires more { length one.now.bytes ≤ one.now.end.bytes }
    requires stands { IfTold (D.files disk.old) (IsSafeTo (segment_name one.now.end.number) (start_of one.now)) }
    ensures written { OnOk result (IfTold (D.files disk.new) (IsSafeBehind (segment_name one.now.end.number) (start_of one.now) one.now.bytes)) }
    ensures keeps { Follows (KeepsFront (segment_name one.now.end.number) (start_of one.now)) (ImagesOf (D.files disk.old)) (ImagesOf (D.files disk.new)) }
    ensures others { Change (KeepsOtherFiles (segment_name one.now.end.number)) (D.files disk.old) (D.files disk.new) }
    ensures lender { D.lender disk.new ≡ D.lender disk.old }
    ensures cause { HasCause QueueError.Fault (D.faults disk.old) (D.faults disk.new) result }
    ensures never_damaged { IfErr result (λ error. (segment : _) (offset : _) → error ≢ QueueError.Damaged segment offset) }
{
    let name = segment_file(alloc, one.end.number)?;
    let start = one.end.bytes - one.bytes.len() as u64;
    append_bytes(disk, &name, start, one.bytes.as_slice())?;
    Ok(())
}

/// Puts the record of a segment.
fn put_record<D: Disk>(
    disk: &mut D,
    meta: &mut Meta,
    role: Role,
    one: &Added,
) -> Result<(), QueueError>
    requires live { IsTrue (meta_live meta.old) }
    requires stands { MetaStands meta.old (D.files disk.old) }
    requires snapshot { IsTrue (has_snapshot (meta_state meta.old)) }
    requires may { IsTrue (writes (meta_state meta.old) role) }
    requires asked { one.now.end.ended ≡ true → IsTrue (is_some (request_of (leads_to role) (meta_state meta.old))) }
    requires behind { IsBehind (recorded_end (meta_state meta.old) role) one.now }
    ensures state { OnOk result (meta_state meta.new ≡ after_record (meta_state meta.old) (entry_of role one.now)) }
    ensures stands { OnOk result (MetaStands meta.new (D.files disk.new)) }
    ensures live { OnOk result (IsTrue (meta_live meta.new)) }
    ensures all { DoesAll AddsRecords (entry_of role one.now ∷ []) result (ImagesOf (D.files disk.old)) (ImagesOf (D.files disk.new)) }
    ensures prefix { LeavesPrefix AddsRecords (entry_of role one.now ∷ []) (ImagesOf (D.files disk.old)) (ImagesOf (D.files disk.new)) }
    ensures others { Change (KeepsOtherFiles meta_name) (D.files disk.old) (D.files disk.new) }
    ensures lender { D.lender disk.new ≡ D.lender disk.old }
    ensures cause { HasCause QueueError.Fault (D.faults disk.old) (D.faults disk.new) result }
    ensures never_damaged { IfErr result (λ error. (segment : _) (offset : _) → error ≢ QueueError.Damaged segment offset) }
{
    let entry = MetaRecord::Queue {
        segment: one.end.number,
        bytes: one.end.bytes,
        last_vsn: one.end.last_vsn,
        role,
        spot: one.end.spot,
        closed: one.end.closed,
        ended: one.end.ended,
    };
    match meta.put(disk, entry) {
        Ok(()) => Ok(()),
        Err(MetaError::Fault) => Err(QueueError::Fault),
        Err(MetaError::NoMemory) => Err(QueueError::NoMemory),
        Err(MetaError::Damaged { .. }) => unreachable!(),
    }
}
