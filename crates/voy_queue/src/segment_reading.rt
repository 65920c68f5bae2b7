ghost use Rattle.std.specs.Prelude.{◌≡◌, ◌≢◌, ◌≤◌, true, ◌+◌, ◌-◌, suc, Some, length, take, IfErr, IfOk, IsTrue, IsFalse};
ghost use Rattle.voy_disk.specs.Faults.{HasCause};
ghost use Rattle.voy_disk.specs.Files.{Files, IfTold, bytes_now};
ghost use Rattle.voy_files.specs.Reader.{StandsAt, found_line, line_limit, unread};
ghost use Rattle.voy_queue.specs.Lines.{first_line};
ghost use Rattle.voy_queue.specs.Reading.{QueueReading, behind_event, due_event, end_reading, ends_at, is_due};
ghost use Rattle.voy_queue.specs.Segment.{HasNoLine, IsAtLine, IsOver, Tells, end_left, events_left};

use crate::cutover::is_cutover;
use crate::error::QueueError;
use crate::roles::is_same;
use crate::segment::OpenSegment;
use std::alloc::{AllocError, Global};
use voy_disk::{Disk, Name};
use voy_event::{Event, LineError, MAX_EVENT_LINE_BYTES, is_closing_line, read_line};
use voy_files::{Found, LineReader};
use voy_meta::SegmentState;
use voy_schema::Schema;

impl OpenSegment {
    /// The segment of this number, from its beginning on.
    pub(crate) fn new(alloc: Global, name: Name, number: u32, state: SegmentState) -> OpenSegment
        ensures number { result.number ≡ number }
        ensures state { result.state ≡ state }
        ensures offset { result.offset ≡ 0 }
        ensures lines { (files : Files) → unread result.lines files ≡ take state.bytes (bytes_now (files name)) }
        ensures stands { IsAtLine result }
    {
        OpenSegment {
            number,
            state,
            lines: LineReader::between(alloc, name, 0, state.bytes, MAX_EVENT_LINE_BYTES),
            offset: 0,
        }
    }

    /// The event of the next line, which must be the one of this vsn.
    pub(crate) fn take_event<D: Disk>(
        &mut self,
        alloc: Global,
        disk: &mut D,
        schema: &Schema,
        vsn: u64,
    ) -> Result<Event, QueueError>
        requires due { vsn ≤ self.old.state.last_vsn }
        requires stands { IsAtLine self.old }
        ensures some { IfOk result (λ event. IfTold (D.files disk.old) (λ fs. (behind : QueueReading) →
            events_left schema.now.tables self.old fs (suc (self.old.state.last_vsn - vsn)) behind
            ≡ behind_event event (events_left schema.now.tables self.new fs (self.old.state.last_vsn - vsn) behind))) }
        ensures damaged { IfErr result (λ error. IfTold (D.files disk.old) (λ fs. (behind : QueueReading) →
            Tells error (events_left schema.now.tables self.old fs (suc (self.old.state.last_vsn - vsn)) behind))) }
        ensures stands { IfOk result (λ _. IsAtLine self.new) }
        ensures over { IfOk result (λ _. IfTold (D.files disk.old) (λ fs. IsOver self.old fs → IsOver self.new fs)) }
        ensures number { self.new.number ≡ self.old.number }
        ensures state { self.new.state ≡ self.old.state }
        ensures same { D.files disk.new ≡ D.files disk.old }
        ensures cause { HasCause QueueError.Fault (D.faults disk.old) (D.faults disk.new) result }
        ensures lender { D.lender disk.new ≡ D.lender disk.old }
    {
        if !self.find_line(disk)? {
            return Err(self.damaged());
        }
        let Some(event) = self.due_event(alloc, schema, vsn)? else {
            return Err(self.damaged());
        };
        self.pass_line();
        Ok(event)
    }

    /// Behind the last event: the closing line of a closed segment, and nothing else.
    pub(crate) fn end<D: Disk>(&mut self, disk: &mut D) -> Result<(), QueueError>
        requires stands { IsAtLine self.old }
        ensures ended { IfOk result (λ _. IfTold (D.files disk.old) (λ fs. (behind : QueueReading) → end_left self.old fs behind ≡ behind)) }
        ensures damaged { IfErr result (λ error. IfTold (D.files disk.old) (λ fs. (behind : QueueReading) → Tells error (end_left self.old fs behind))) }
        ensures state { self.new.state ≡ self.old.state }
        ensures same { D.files disk.new ≡ D.files disk.old }
        ensures cause { HasCause QueueError.Fault (D.faults disk.old) (D.faults disk.new) result }
        ensures lender { D.lender disk.new ≡ D.lender disk.old }
    {
        if self.state.closed {
            self.take_closing(disk)?;
        }
        self.check_end()
    }

    /// Takes the closing line of a closed segment.
    fn take_closing<D: Disk>(&mut self, disk: &mut D) -> Result<(), QueueError>
        requires stands { IsAtLine self.old }
        ensures closed { IfOk result (λ _. IfTold (D.files disk.old) (λ fs. (behind : QueueReading) →
            end_reading self.old.number self.old.state true self.old.offset (unread self.old.lines fs) behind ≡ ends_at self.new.number self.new.state self.new.offset behind)) }
        ensures damaged { IfErr result (λ error. IfTold (D.files disk.old) (λ fs. (behind : QueueReading) →
            Tells error (end_reading self.old.number self.old.state true self.old.offset (unread self.old.lines fs) behind))) }
        ensures number { self.new.number ≡ self.old.number }
        ensures state { self.new.state ≡ self.old.state }
        ensures same { D.files disk.new ≡ D.files disk.old }
        ensures cause { HasCause QueueError.Fault (D.faults disk.old) (D.faults disk.new) result }
        ensures lender { D.lender disk.new ≡ D.lender disk.old }
    {
        if !self.find_line(disk)? {
            return Err(self.damaged());
        }
        if !is_closing_line(self.lines.line()) {
            return Err(self.damaged());
        }
        self.pass_line();
        Ok(())
    }

    /// Whether the committed bytes end here.
    fn check_end(&self) -> Result<(), QueueError>
        ensures end { IfOk result (λ _. (behind : QueueReading) → ends_at self.now.number self.now.state self.now.offset behind ≡ behind) }
        ensures damaged { IfErr result (λ error. (behind : QueueReading) → Tells error (ends_at self.now.number self.now.state self.now.offset behind)) }
        ensures never { IfErr result (λ error. error ≢ QueueError.Fault) }
    {
        if self.offset == self.state.bytes {
            Ok(())
        } else {
            Err(self.damaged())
        }
    }

    /// Finds the next line, with its LF; false where there is none, or one that is too long.
    fn find_line<D: Disk>(&mut self, disk: &mut D) -> Result<bool, QueueError>
        requires stands { IsAtLine self.old }
        ensures found { IfOk result (λ found. IsTrue found → IfTold (D.files disk.old) (λ fs.
            first_line (unread self.old.lines fs) ≡ Some (found_line self.new.lines, unread self.new.lines fs))) }
        ensures none { IfOk result (λ found. IsFalse found → IfTold (D.files disk.old) (λ fs. HasNoLine (unread self.old.lines fs))) }
        ensures behind { IfOk result (λ found. IsTrue found → StandsAt self.new.lines (self.old.offset + (length (found_line self.new.lines) + 1))) }
        ensures tells { IfErr result (λ error. (reading : QueueReading) → Tells error reading) }
        ensures limit { line_limit self.new.lines ≡ line_limit self.old.lines }
        ensures number { self.new.number ≡ self.old.number }
        ensures state { self.new.state ≡ self.old.state }
        ensures offset { self.new.offset ≡ self.old.offset }
        ensures same { D.files disk.new ≡ D.files disk.old }
        ensures cause { HasCause QueueError.Fault (D.faults disk.old) (D.faults disk.new) result }
        ensures lender { D.lender disk.new ≡ D.lender disk.old }
    {
        match self.lines.next(disk)? {
            Found::Line => Ok(self.lines.has_line_feed()),
            Found::TooLong | Found::End => Ok(false),
        }
    }

    /// The event of the line that was found, where it is the one that must stand there.
    fn due_event(
        &self,
        alloc: Global,
        schema: &Schema,
        vsn: u64,
    ) -> Result<Option<Event>, AllocError>
        ensures { IfOk result (λ event. event ≡ due_event schema.now.tables self.now.state vsn (found_line self.now.lines)) }
    {
        match read_line(alloc, schema, self.lines.line()) {
            Ok(event) => {
                if is_due(&self.state, vsn, &event) {
                    Ok(Some(event))
                } else {
                    Ok(None)
                }
            }
            Err(LineError::Bad(_)) => Ok(None),
            Err(LineError::NoMemory) => Err(AllocError),
        }
    }

    /// Goes behind the line that was found.
    fn pass_line(&mut self)
        requires behind { StandsAt self.old.lines (self.old.offset + (length (found_line self.old.lines) + 1)) }
        ensures offset { self.new.offset ≡ self.old.offset + (length (found_line self.old.lines) + 1) }
        ensures lines { self.new.lines ≡ self.old.lines }
        ensures number { self.new.number ≡ self.old.number }
        ensures state { self.new.state ≡ self.old.state }
    {
        self.offset = self.lines.offset();
    }

    fn damaged(&self) -> QueueError
        ensures { result ≡ QueueError.Damaged self.now.number self.now.offset }
    {
        QueueError::Damaged {
            segment: self.number,
            offset: self.offset,
        }
    }
}

/// Whether the event is the one that must stand there: of this vsn and exporter, and a cutover just where the segment ends with it.
fn is_due(segment: &SegmentState, vsn: u64, event: &Event) -> bool
    ensures { result ≡ is_due segment.now vsn event.now }
{
    let ends = segment.ended && vsn == segment.last_vsn;
    event.vsn == vsn && is_same(event.role, segment.role) && is_cutover(event) == ends
}
