ghost use Rattle.std.specs.Prelude.{◌≡◌, ◌≤◌, [], false, suc, length, IfErr, IfOk, IsTrue};
ghost use Rattle.voy_disk.specs.Calls.{Change};
ghost use Rattle.voy_disk.specs.Faults.{HasCause};
ghost use Rattle.voy_disk.specs.Files.{IfTold};
ghost use Rattle.voy_disk.specs.Frames.{KeepsOtherFiles};
ghost use Rattle.voy_disk.specs.Images.{ImagesOf};
ghost use Rattle.voy_disk.specs.Steps.{Follows, StaysTold};
ghost use Rattle.voy_meta.specs.Meta.{MetaStands, meta_state};
ghost use Rattle.voy_meta.specs.declared.limits.TheConstants.{MAX_SEGMENT, OPEN_SEGMENT_BYTES};
ghost use Rattle.voy_queue.specs.Names.{segment_name};
ghost use Rattle.voy_queue.specs.Opening.{IsShort, is_short};
ghost use Rattle.voy_queue.specs.Putting.{recorded_end};
ghost use Rattle.voy_queue.specs.Writer.{EndIsSafe, KeepsShelf, WriterStands, closing_size, committed_end, is_live, pending, writer_role};

use crate::end::End;
use crate::error::QueueError;
use crate::settling::settle_end;
use crate::writer::Writer;
use std::alloc::Global;
use voy_disk::Disk;
use voy_meta::{Meta, MetaState, consistent};
use voy_schema::Items;
use voy_tables::Role;

impl Writer {
    /// Opens a writer of an exporter's events behind the queue, which closes a segment at so many bytes of event lines (at 0 behind each event).
    ///
    /// The last segment is cut to its committed bytes, and those are made safe. `Damaged` comes exactly where it has fewer, with the
    /// offset behind its last whole line, and nothing is changed then. Where no byte is committed no call of the disk is made.
    pub fn open<D: Disk>(
        alloc: Global,
        disk: &mut D,
        meta: &Meta,
        role: Role,
        max_bytes: u64,
    ) -> Result<Writer, QueueError>
        requires few { max_bytes ≤ OPEN_SEGMENT_BYTES }
        requires stands { MetaStands meta.now (D.files disk.old) }

        // after Ok
        ensures end { IfOk result (λ writer. committed_end writer ≡ recorded_end (meta_state meta.now) role) }
        ensures pending { IfOk result (λ writer. pending writer ≡ []) }
        ensures role { IfOk result (λ writer. writer_role writer ≡ role) }
        ensures size { IfOk result (λ writer. closing_size writer ≡ max_bytes) }
        ensures live { IfOk result (λ writer. IsTrue (is_live writer)) }
        ensures writer { IfOk result (λ writer. WriterStands writer (D.files disk.new)) }
        ensures whole { IfOk result (λ writer. IfTold (D.files disk.old) (λ fs. is_short (recorded_end (meta_state meta.now) role) fs ≡ false)) }
        // whatever it answers
        ensures images { EndIsSafe (recorded_end (meta_state meta.now) role) (ImagesOf (D.files disk.old)) → Follows KeepsShelf (ImagesOf (D.files disk.old)) (ImagesOf (D.files disk.new)) }
        ensures others { Change (KeepsOtherFiles (segment_name (recorded_end (meta_state meta.now) role).number)) (D.files disk.old) (D.files disk.new) }
        ensures stands { MetaStands meta.now (D.files disk.new) }
        ensures told { StaysTold (ImagesOf (D.files disk.old)) (ImagesOf (D.files disk.new)) }
        ensures lender { D.lender disk.new ≡ D.lender disk.old }
        // when each error comes
        ensures cause { HasCause QueueError.Fault (D.faults disk.old) (D.faults disk.new) result }
        ensures damaged { IfErr result (λ error. (segment : _) (offset : _) → error ≡ QueueError.Damaged segment offset
            → IfTold (D.files disk.old) (IsShort (recorded_end (meta_state meta.now) role) segment offset)) }
        ensures untouched { IfErr result (λ error. (segment : _) (offset : _) → error ≡ QueueError.Damaged segment offset → D.files disk.new ≡ D.files disk.old) }
    {
        // The law that allowed records come to a consistent state; there is nothing to run.
        consistent();
        let end = recorded_end(meta.state(), role);
        settle_end(alloc, disk, end)?;
        Ok(Writer {
            alloc,
            role,
            max_bytes,
            end,
            pending: Items::new(alloc),
            live: true,
        })
    }
}

/// Where the recorded queue ends, with the last place of this exporter.
fn recorded_end(state: &MetaState, role: Role) -> End
    requires { length state.now.segments ≤ suc MAX_SEGMENT }
    ensures { result ≡ recorded_end state.now role }
{
    let spot = state.last(role);
    let ended = state.ended(role);
    match state.last_segment() {
        None => End {
            number: 0,
            bytes: 0,
            last_vsn: 0,
            spot,
            closed: false,
            ended,
        },
        Some(last) => End {
            number: (state.segments.len() - 1) as u32,
            bytes: last.bytes,
            last_vsn: last.last_vsn,
            spot,
            closed: last.closed,
            ended,
        },
    }
}
