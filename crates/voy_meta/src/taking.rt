ghost use Rattle.std.specs.Prelude.{◌≡◌, ℕ, [], ◌∷◌, ◌++◌, ◌||◌, take, OnErr, OnOk};
ghost use Rattle.voy_meta.specs.State.{after_record, empty_state};
ghost use Rattle.voy_meta.specs.declared.record.MetaRecord.TheVariants.{Channels, Done, Finished, Loaded, Queue, Request, Snapshot, Version};

use crate::record::MetaRecord;
use crate::state::{MetaState, SegmentState, Segments, SnapshotState};
use std::alloc::{AllocError, Global};
use voy_schema::Items;
use voy_tables::{Role, Side, Spot};

impl MetaState {
    /// What no records come to.
    pub fn new(alloc: Global) -> MetaState
        ensures { result ≡ empty_state }
    {
        MetaState {
            version: 0,
            tables: 0,
            snapshots: Items::new(alloc),
            segments: Items::new(alloc),
            last_source: None,
            last_target: None,
            ended_source: false,
            ended_target: false,
            request_target: None,
            request_source: None,
            channels_target: None,
            channels_source: None,
            finished_target: None,
            finished_source: None,
            done_target: false,
            done_source: false,
            loaded: false,
        }
    }

    /// Takes one record more. After an error nothing changed.
    pub fn take(&mut self, entry: &MetaRecord) -> Result<(), AllocError>
        ensures ok { OnOk result (self.new ≡ after_record self.old entry.now) }
        ensures err { OnErr result (self.new ≡ self.old) }
    {
        match *entry {
            MetaRecord::Snapshot {
                of,
                bytes,
                rows,
                ..
            } => return self.take_snapshot(of, SnapshotState { bytes, rows }),
            MetaRecord::Queue {
                segment,
                bytes,
                last_vsn,
                role,
                spot,
                closed,
                ended,
            } => {
                let recorded = SegmentState {
                    bytes,
                    last_vsn,
                    role,
                    closed,
                    ended,
                };
                return self.take_segment(segment, recorded, spot);
            }
            MetaRecord::Version { version } => self.take_version(version),
            MetaRecord::Request { side, fall_back } => self.take_request(side, fall_back),
            MetaRecord::Channels { side, count } => self.take_channels(side, count),
            MetaRecord::Finished { side, segment } => self.take_finished(side, segment),
            MetaRecord::Done { side } => self.take_done(side),
            MetaRecord::Loaded => self.take_loaded(),
        }
        Ok(())
    }

    #[tactic(auto, unfolding(crate::specs::State::after_record))]
    fn take_version(&mut self, version: u8)
        ensures { self.new ≡ after_record self.old (Version version) }
    {
        self.version = version;
    }

    #[tactic(auto, unfolding(crate::specs::State::after_record))]
    fn take_snapshot(&mut self, of: u32, recorded: SnapshotState) -> Result<(), AllocError>
        ensures ok { OnOk result ((table : ℕ) → self.new ≡ after_record self.old (Snapshot table of recorded.bytes recorded.rows)) }
        ensures err { OnErr result (self.new ≡ self.old) }
    {
        self.snapshots.push(recorded)?;
        self.tables = of;
        Ok(())
    }

    #[tactic(auto, unfolding(crate::specs::State::after_record))]
    fn take_segment(
        &mut self,
        segment: u32,
        recorded: SegmentState,
        spot: Option<Spot>,
    ) -> Result<(), AllocError>
        ensures ok { OnOk result (self.new ≡ after_record self.old (Queue segment recorded.bytes recorded.last_vsn recorded.role spot recorded.closed recorded.ended)) }
        ensures err { OnErr result (self.new ≡ self.old) }
    {
        put_segment(&mut self.segments, segment as usize, recorded)?;
        match recorded.role {
            Role::Source => {
                self.last_source = spot;
                self.ended_source = self.ended_source || recorded.ended;
            }
            Role::Target => {
                self.last_target = spot;
                self.ended_target = self.ended_target || recorded.ended;
            }
        }
        Ok(())
    }

    #[tactic(auto, unfolding(crate::specs::State::after_record))]
    fn take_request(&mut self, side: Side, fall_back: bool)
        ensures { self.new ≡ after_record self.old (Request side fall_back) }
    {
        match side {
            Side::Target => self.request_target = Some(fall_back),
            Side::Source => self.request_source = Some(fall_back),
        }
    }

    #[tactic(auto, unfolding(crate::specs::State::after_record))]
    fn take_channels(&mut self, side: Side, count: u32)
        ensures { self.new ≡ after_record self.old (Channels side count) }
    {
        match side {
            Side::Target => self.channels_target = Some(count),
            Side::Source => self.channels_source = Some(count),
        }
    }

    #[tactic(auto, unfolding(crate::specs::State::after_record))]
    fn take_finished(&mut self, side: Side, segment: u32)
        ensures { self.new ≡ after_record self.old (Finished side segment) }
    {
        match side {
            Side::Target => self.finished_target = Some(segment),
            Side::Source => self.finished_source = Some(segment),
        }
    }

    #[tactic(auto, unfolding(crate::specs::State::after_record))]
    fn take_done(&mut self, side: Side)
        ensures { self.new ≡ after_record self.old (Done side) }
    {
        match side {
            Side::Target => self.done_target = true,
            Side::Source => self.done_source = true,
        }
    }

    #[tactic(auto, unfolding(crate::specs::State::after_record))]
    fn take_loaded(&mut self)
        ensures { self.new ≡ after_record self.old Loaded }
    {
        self.loaded = true;
    }
}

/// Puts what is recorded of a segment in its place, and lets go of what stands behind it; or behind the others.
/// No list is copied.
fn put_segment(segments: &mut Segments, at: usize, recorded: SegmentState) -> Result<(), AllocError>
    ensures ok { OnOk result (segments.new ≡ take at segments.old ++ recorded ∷ []) }
    ensures err { OnErr result (segments.new ≡ segments.old) }
{
    if at < segments.len() {
        segments.replace(at, recorded);
        segments.truncate(at + 1);
        Ok(())
    } else {
        segments.push(recorded)
    }
}
