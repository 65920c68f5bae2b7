ghost use Rattle.std.specs.Prelude.{◌≡◌, ◌++◌, ◌≤◌, ◌<◌, ◌+◌, ◌^◌, [], false, length, OnOk};
ghost use Rattle.voy_event.specs.EventLine.{max_event_line_bytes};
ghost use Rattle.voy_event.specs.LawfulEvent.{IsLawful, IsWritable};
ghost use Rattle.voy_event.specs.LineText.{line_text};
ghost use Rattle.voy_meta.specs.declared.limits.TheConstants.{MAX_SEGMENT, OPEN_SEGMENT_BYTES};
ghost use Rattle.voy_queue.specs.Lines.{closing_bytes, event_bytes};
ghost use Rattle.voy_queue.specs.Putting.{added_to, closes, room_for};

use crate::cutover::is_cutover;
use std::alloc::{AllocError, Global};
use voy_event::{CLOSING_LINE, Event, MAX_EVENT_LINE_BYTES, write_line};
use voy_schema::{Bytes, Items, Schema};
use voy_tables::Spot;

/// The byte that ends a line.
const LINE_FEED: u8 = 10;

/// Where the queue ends: its last segment, and what was put into it.
#[derive(Clone, Copy, Debug, PartialEq, Eq)]
pub struct End {
    /// The number of the last segment; 0 where there is none yet.
    pub number: u32,
    /// Its bytes, the closing line among them.
    pub bytes: u64,
    /// The vsn of the last event of the queue; 0 where it has none.
    pub last_vsn: u64,
    /// Where the exporter's last change stands in the recording.
    pub spot: Option<Spot>,
    /// The segment takes no further line.
    pub closed: bool,
    /// Its last event is the cutover event of its exporter.
    pub ended: bool,
}

/// What was put into one segment since the last commit.
#[derive(Debug, Drop)]
pub struct Added {
    /// Where the queue ends with it.
    pub end: End,
    /// The bytes that come behind those which are committed.
    pub bytes: Bytes,
}

/// What was put since the last commit, segment by segment.
pub type Pending = Items<Added>;

impl End {
    /// Where the next line goes: here where the segment is open, else at the beginning of the next one.
    pub(crate) fn room(self) -> End
        requires { (room_for self).number ≤ MAX_SEGMENT }
        ensures { result ≡ room_for self }
    {
        if !self.closed {
            return self;
        }
        End {
            number: self.number + 1,
            bytes: 0,
            closed: false,
            ..self
        }
    }
}

impl Added {
    /// Nothing yet, where the next line goes.
    pub(crate) fn at(alloc: Global, end: End) -> Added
        ensures { result ≡ record { end = end; bytes = [] } }
    {
        Added {
            end,
            bytes: Items::new(alloc),
        }
    }

    /// Puts the lines of an event into an open segment: its own, and the closing line where it closes the segment.
    pub(crate) fn put(
        &mut self,
        alloc: Global,
        schema: &Schema,
        max_bytes: u64,
        event: &Event,
        spot: Option<Spot>,
    ) -> Result<(), AllocError>
        requires open { self.old.end.closed ≡ false }
        requires small { self.old.end.bytes < OPEN_SEGMENT_BYTES }
        requires lawful { IsLawful schema.now.tables event.now }
        ensures short { OnOk result (length (line_text schema.now.tables event.now) ≤ max_event_line_bytes) }
        ensures added { OnOk result (self.new ≡ added_to schema.now.tables max_bytes self.old event.now spot) }
    {
        let before = self.bytes.len();
        append_line(alloc, schema, event, &mut self.bytes)?;
        let bytes = self.end.bytes + (self.bytes.len() - before) as u64;
        let closed = closes(max_bytes, bytes, event);
        append_closing(closed, &mut self.bytes)?;
        self.end = End {
            number: self.end.number,
            bytes: self.end.bytes + (self.bytes.len() - before) as u64,
            last_vsn: event.vsn,
            spot: spot.or(self.end.spot),
            closed,
            ended: is_cutover(event),
        };
        Ok(())
    }
}

/// Appends the line of an event, with LF. A line past its limit is want of memory.
fn append_line(
    alloc: Global,
    schema: &Schema,
    event: &Event,
    to: &mut Bytes,
) -> Result<(), AllocError>
    requires { IsWritable schema.now.tables event.now }
    ensures short { OnOk result (length (line_text schema.now.tables event.now) ≤ max_event_line_bytes) }
    ensures line { OnOk result (to.new ≡ to.old ++ event_bytes schema.now.tables event.now) }
{
    let before = to.len();
    write_line(alloc, schema, event, to)?;
    if to.len() - before > MAX_EVENT_LINE_BYTES {
        return Err(AllocError);
    }
    to.push(LINE_FEED)
}

/// Appends the closing line, with LF, where the segment is closed.
#[tactic(auto, unfolding(voy_event::specs::Events::closing_line))]
fn append_closing(closed: bool, to: &mut Bytes) -> Result<(), AllocError>
    ensures { OnOk result (to.new ≡ to.old ++ closing_bytes closed) }
{
    if closed {
        to.append_slice(CLOSING_LINE)?;
        to.push(LINE_FEED)?;
    }
    Ok(())
}

/// Whether an event closes the segment whose event lines have so many bytes with it.
fn closes(max_bytes: u64, bytes: u64, event: &Event) -> bool
    ensures { result ≡ closes max_bytes bytes event.now }
{
    max_bytes <= bytes || is_cutover(event)
}
