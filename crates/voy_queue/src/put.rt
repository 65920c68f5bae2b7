ghost use Rattle.std.specs.Prelude.{◌≡◌, ◌≤◌, ◌<◌, ℕ, List, [], ◌∷◌, ◌++◌, Option, false, length, IsTrue, IsFalse, OnErr, OnOk};
ghost use Rattle.voy_event.specs.EventLine.{max_event_line_bytes};
ghost use Rattle.voy_event.specs.LineText.{line_text};
ghost use Rattle.voy_event.specs.declared.event.Event.{Event};
ghost use Rattle.voy_meta.specs.declared.limits.TheConstants.{MAX_SEGMENT, OPEN_SEGMENT_BYTES};
ghost use Rattle.voy_queue.specs.Putting.{AreBehind, AreShut, added_to, end_after, end_of, pending_after, room_for};
ghost use Rattle.voy_queue.specs.Writer.{MayPut, closing_size, committed_end, is_live, pending, writer_end, writer_role};
ghost use Rattle.voy_schema.specs.declared.table.Table.{Table};
ghost use Rattle.voy_tables.specs.declared.change.Spot.{Spot};

use crate::end::{Added, End};
use crate::writer::Writer;
use std::alloc::{AllocError, Global};
use std::mem::replace;
use voy_event::Event;
use voy_schema::{Items, Schema};
use voy_tables::Spot;

impl Writer {
    /// Puts an event behind those that were put, with the place of its change in the recording. A new segment begins where the
    /// last is closed; it is closed where its event lines reach the stated number of bytes, or behind a cutover.
    ///
    /// The lines are gathered in memory, and no disk is called. A line past its limit is want of memory. After an error the writer is given up.
    pub fn put(
        &mut self,
        schema: &Schema,
        event: &Event,
        spot: Option<Spot>,
    ) -> Result<(), AllocError>
        requires live { IsTrue (is_live self.old) }
        requires may { MayPut schema.now.tables self.old event.now spot }
        ensures pending { OnOk result (pending self.new ≡
            pending_after schema.now.tables (closing_size self.old) (committed_end self.old) (pending self.old) event.now spot) }
        ensures short { OnOk result (length (line_text schema.now.tables event.now) ≤ max_event_line_bytes) }
        ensures next { OnOk result (writer_end self.new ≡
            end_after schema.now.tables (closing_size self.old) (writer_end self.old) event.now spot) }
        ensures end { committed_end self.new ≡ committed_end self.old }
        ensures role { writer_role self.new ≡ writer_role self.old }
        ensures size { closing_size self.new ≡ closing_size self.old }
        ensures live { OnOk result (IsTrue (is_live self.new)) }
        ensures dead { OnErr result (IsFalse (is_live self.new)) }
    {
        self.live = false;
        let mut added = self.take_open();
        added.put(self.alloc, schema, self.max_bytes, event, spot)?;
        self.pending.push(added)?;
        self.live = true;
        Ok(())
    }

    /// Takes out what was put into the last segment where that is open; else it gives the room behind it.
    fn take_open(&mut self) -> Added
        requires number { (room_for (writer_end self.old)).number ≤ MAX_SEGMENT }
        ensures put_back { (schema : List Table) (max_bytes : ℕ) (event : Event) (spot : Option Spot) →
            pending self.new ++ added_to schema max_bytes result event spot ∷ [] ≡ pending_after schema max_bytes (committed_end self.old) (pending self.old) event spot }
        ensures open { result.end.closed ≡ false }
        ensures small { result.end.bytes < OPEN_SEGMENT_BYTES }
        ensures end { committed_end self.new ≡ committed_end self.old }
        ensures role { writer_role self.new ≡ writer_role self.old }
        ensures size { closing_size self.new ≡ closing_size self.old }
        ensures live { is_live self.new ≡ is_live self.old }
    {
        let mut pending = replace(&mut self.pending, Items::new(self.alloc)).into_vec();
        let added = take_last(self.alloc, self.end, &mut pending);
        self.pending = Items::from_vec(pending);
        added
    }
}

/// The last of what is pending where it is open, taken out; else the room behind what is pending.
fn take_last(alloc: Global, end: End, pending: &mut Vec<Added>) -> Added
    requires number { (room_for (end_of end pending.old.items)).number ≤ MAX_SEGMENT }
    requires behind { AreBehind end pending.old.items }
    requires shut { AreShut pending.old.items }
    requires room { end.closed ≡ false → end.bytes < OPEN_SEGMENT_BYTES }
    ensures put_back { (schema : List Table) (max_bytes : ℕ) (event : Event) (spot : Option Spot) →
        pending.new.items ++ added_to schema max_bytes result event spot ∷ [] ≡ pending_after schema max_bytes end pending.old.items event spot }
    ensures open { result.end.closed ≡ false }
    ensures small { result.end.bytes < OPEN_SEGMENT_BYTES }
    ensures behind { AreBehind end pending.new.items }
    ensures shut { AreShut pending.new.items }
{
    match pending.last() {
        None => Added::at(alloc, end.room()),
        Some(last) if last.end.closed => Added::at(alloc, last.end.room()),
        Some(_) => match pending.pop() {
            Some(last) => last,
            None => unreachable!(),
        },
    }
}
