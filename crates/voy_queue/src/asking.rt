ghost use Rattle.std.specs.Prelude.{◌≡◌, ◌≤◌, List, length, Some, IsTrue};
ghost use Rattle.voy_event.specs.EventLine.{max_event_line_bytes};
ghost use Rattle.voy_event.specs.LawfulEvent.{IsLawful};
ghost use Rattle.voy_event.specs.LineText.{line_text};
ghost use Rattle.voy_meta.specs.Allowed.{spot_follows};
ghost use Rattle.voy_queue.specs.Putting.{end_of};
ghost use Rattle.voy_queue.specs.Asking.{has_place, has_room, is_next, takes};
ghost use Rattle.voy_queue.specs.Writer.{MayPut, committed_end, is_live, writer_end, writer_role};
ghost use Rattle.voy_schema.specs.declared.table.Table.{Table};

use crate::cutover::is_cutover;
use crate::end::{Added, End};
use crate::roles::is_same;
use crate::writer::Writer;
use voy_event::Event;
use voy_meta::{MAX_SEGMENT, MAX_VSN};
use voy_tables::{Role, Spot};

impl Writer {
    /// Whether events may be put and committed. Where not, open the writer again.
    pub fn live(&self) -> bool
        ensures { result ≡ is_live self.now }
    {
        self.live
    }

    /// Whose events it puts.
    pub fn role(&self) -> Role
        ensures { result ≡ writer_role self.now }
    {
        self.role
    }

    /// Where the queue ends by the last commit.
    pub fn committed_end(&self) -> End
        ensures { result ≡ committed_end self.now }
    {
        self.end
    }

    /// Where the queue ends with what was put since.
    pub fn end(&self) -> End
        ensures { result ≡ writer_end self.now }
    {
        end_of(self.end, self.pending.as_slice())
    }

    /// Whether an event with this place may be put, where it belongs to the schema.
    pub fn takes(&self, event: &Event, spot: Option<Spot>) -> bool
        ensures may { (schema : List Table) → IsTrue result → IsLawful schema event.now → MayPut schema self.now event.now spot }
        ensures all { (schema : List Table) → MayPut schema self.now event.now spot → length (line_text schema event.now) ≤ max_event_line_bytes → IsTrue result }
        ensures exact { result ≡ takes (writer_role self.now) (writer_end self.now) event.now spot }
    {
        self.is_taken(event, spot)
    }

    fn is_taken(&self, event: &Event, spot: Option<Spot>) -> bool
        ensures { result ≡ takes (writer_role self.now) (writer_end self.now) event.now spot }
    {
        let end = self.end();
        is_next(self.role, end, event) && has_room(end) && has_place(end, event, spot)
    }
}

/// Where the queue ends with what was put.
#[tactic(auto, using(crate::proofs::PendingLemmas::last_end))]
pub(crate) fn end_of(end: End, pending: &[Added]) -> End
    ensures { result ≡ end_of end pending.now }
{
    match pending.last() {
        None => end,
        Some(last) => last.end,
    }
}

/// Whether the event is the next one, by this exporter, whose part is not ended.
fn is_next(role: Role, end: End, event: &Event) -> bool
    ensures { result ≡ is_next role end event.now }
{
    event.vsn.checked_sub(1) == Some(end.last_vsn)
        && event.vsn <= MAX_VSN
        && is_same(event.role, role)
        && !end.ended
}

/// Whether a segment is left for it.
fn has_room(end: End) -> bool
    ensures { result ≡ has_room end }
{
    end.number <= MAX_SEGMENT && (!end.closed || end.number < MAX_SEGMENT)
}

/// Whether a place is given just with a change, and does not stand in front of the last one.
fn has_place(end: End, event: &Event, spot: Option<Spot>) -> bool
    ensures { result ≡ has_place end event.now spot }
{
    match spot {
        None => is_cutover(event),
        Some(spot) => !is_cutover(event) && follows(end.spot, spot),
    }
}

/// Whether a place does not stand in front of the last one.
fn follows(last: Option<Spot>, spot: Spot) -> bool
    ensures { result ≡ spot_follows last (Some spot) }
{
    match last {
        None => true,
        Some(last) => {
            last.commit < spot.commit || (last.commit == spot.commit && last.seq <= spot.seq)
        }
    }
}
