ghost use Rattle.std.specs.Prelude.{◌≡◌, slice_get};
ghost use Rattle.voy_meta.specs.Allowed.{channels_follow, finished_follows, follows_version, goes_on, is_allowed, is_closed_of, is_first_of, is_next_finished, is_other, is_up_to, is_within, may_be_filled, may_end, queue_follows, request_follows, segment_follows, snapshot_follows, spot_follows, version_follows, vsn_follows, writes};
ghost use Rattle.voy_meta.specs.Sides.{feeds, finished_of, is_role};

use crate::limits::{
    MAX_CHANNELS, MAX_SEGMENT, MAX_SEGMENT_BYTES, MAX_SNAPSHOT_BYTES, MAX_VSN, OPEN_SEGMENT_BYTES,
};
use crate::record::MetaRecord;
use crate::sides::{feeding, led_to};
use crate::state::{MetaState, SegmentState};
use voy_schema::MAX_TABLES;
use voy_tables::{Role, Side, Spot};

impl MetaState {
    /// Whether this record may come next. It looks at the state alone, in constant time.
    #[tactic(auto, unfolding(crate::specs::Allowed::is_allowed))]
    pub fn allows(&self, entry: &MetaRecord) -> bool
        ensures { result ≡ is_allowed self.now entry.now }
    {
        match *entry {
            MetaRecord::Version { version } => version_follows(self.version, version),
            MetaRecord::Snapshot {
                table,
                of,
                bytes,
                rows,
            } => self.version > 0 && self.snapshot_follows(table, of, bytes, rows),
            MetaRecord::Queue {
                segment,
                bytes,
                last_vsn,
                role,
                spot,
                closed,
                ended,
            } => {
                let recorded = SegmentState {
                    bytes,
                    last_vsn,
                    role,
                    closed,
                    ended,
                };
                self.version > 0 && self.queue_follows(segment, &recorded, spot)
            }
            MetaRecord::Request { side, fall_back } => {
                self.version > 0 && self.request_follows(side, fall_back)
            }
            MetaRecord::Channels { side, count } => {
                self.version > 0 && self.channels_follow(side, count)
            }
            MetaRecord::Finished { side, segment } => {
                self.version > 0 && self.finished_follows(side, segment)
            }
            MetaRecord::Done { side } => {
                self.version > 0 && (self.ended(feeding(side)) && !self.done(side))
            }
            MetaRecord::Loaded => self.version > 0 && (self.has_fall_back() && !self.loaded),
        }
    }

    fn snapshot_follows(&self, table: u32, of: u32, bytes: u64, rows: u64) -> bool
        ensures { result ≡ snapshot_follows self.now table of bytes rows }
    {
        let is_next = table as usize == self.snapshots.len();
        let is_within = of as usize <= MAX_TABLES && (table == 0 || of == self.tables);
        is_next && (table < of && (is_within && (bytes <= MAX_SNAPSHOT_BYTES && rows <= bytes)))
    }

    fn queue_follows(&self, segment: u32, recorded: &SegmentState, spot: Option<Spot>) -> bool
        ensures { result ≡ queue_follows self.now segment recorded.now.bytes recorded.now.last_vsn recorded.now.role spot recorded.now.closed recorded.now.ended }
    {
        let role = recorded.role;
        self.has_snapshot()
            && self.writes(role)
            && self.segment_follows(segment, recorded.bytes, recorded.closed)
            && self.vsn_follows(recorded.last_vsn)
            && spot_follows(self.last(role), spot)
            && self.may_end(recorded)
    }

    /// Whether this exporter may write: the source's until its part is ended, and then the target's, where the cutover to
    /// the target is done with a fall-back, until its part is.
    pub fn writes(&self, role: Role) -> bool
        ensures { result ≡ writes self.now role }
    {
        match role {
            Role::Source => !self.ended_source,
            Role::Target => self.ended_source && self.has_fall_back() && !self.ended_target,
        }
    }

    fn segment_follows(&self, segment: u32, bytes: u64, closed: bool) -> bool
        ensures { result ≡ segment_follows self.now segment bytes closed }
    {
        let last = self.last_segment();
        goes_on(last, self.segments.len(), segment, bytes)
            && segment <= MAX_SEGMENT
            && is_within(bytes, closed)
    }

    fn vsn_follows(&self, last_vsn: u64) -> bool
        ensures { result ≡ vsn_follows self.now last_vsn }
    {
        self.last_vsn() <= last_vsn && 1 <= last_vsn && last_vsn <= MAX_VSN
    }

    fn may_end(&self, recorded: &SegmentState) -> bool
        ensures { result ≡ may_end self.now recorded.now.last_vsn recorded.now.role recorded.now.closed recorded.now.ended }
    {
        let is_more = self.last_vsn() < recorded.last_vsn;
        let is_asked = self.request(led_to(recorded.role)).is_some();
        !recorded.ended || (recorded.closed && is_more && is_asked)
    }

    fn request_follows(&self, side: Side, fall_back: bool) -> bool
        ensures { result ≡ request_follows self.now side fall_back }
    {
        match side {
            Side::Target => self.has_snapshot() && self.request_target.is_none(),
            Side::Source => { self.has_fall_back() && self.request_source.is_none() && !fall_back }
        }
    }

    fn channels_follow(&self, side: Side, count: u32) -> bool
        ensures { result ≡ channels_follow self.now side count }
    {
        self.channels(side).is_none()
            && 1 <= count
            && count <= MAX_CHANNELS
            && self.may_be_filled(side)
    }

    fn may_be_filled(&self, side: Side) -> bool
        ensures { result ≡ may_be_filled side self.now }
    {
        match side {
            Side::Target => self.has_snapshot(),
            Side::Source => self.loaded,
        }
    }

    fn finished_follows(&self, side: Side, segment: u32) -> bool
        ensures { result ≡ finished_follows self.now side segment }
    {
        let role = feeding(side);
        self.is_closed_of(role, segment) && self.is_next_finished(side, segment)
    }

    fn is_closed_of(&self, role: Role, segment: u32) -> bool
        ensures { result ≡ is_closed_of role (slice_get self.now.segments segment) }
    {
        match self.segments.get(segment as usize) {
            None => false,
            Some(recorded) => recorded.closed && is_same(recorded.role, role),
        }
    }

    fn is_next_finished(&self, side: Side, segment: u32) -> bool
        ensures { result ≡ is_next_finished (feeds side) self.now.segments (finished_of side self.now) segment }
    {
        match self.finished(side) {
            None => self.is_first_of(feeding(side), segment),
            Some(last) => last < segment && segment - last == 1,
        }
    }

    fn is_first_of(&self, role: Role, segment: u32) -> bool
        ensures { result ≡ is_first_of role self.now.segments segment }
    {
        if segment == 0 {
            return true;
        }
        match self.segments.get(segment as usize - 1) {
            None => false,
            Some(before) => !is_same(before.role, role),
        }
    }
}

fn version_follows(before: u8, version: u8) -> bool
    ensures { result ≡ version_follows before version }
{
    (version == 1 && before == 0) || (version == 2 && before < 2)
}

fn goes_on(last: Option<SegmentState>, count: usize, segment: u32, bytes: u64) -> bool
    ensures { result ≡ goes_on last count segment bytes }
{
    let at = segment as usize;
    match last {
        None => segment == 0,
        Some(last) if last.closed => at == count,
        Some(last) => at < count && count - at == 1 && last.bytes <= bytes,
    }
}

fn is_within(bytes: u64, closed: bool) -> bool
    ensures { result ≡ is_within bytes closed }
{
    if closed {
        bytes <= MAX_SEGMENT_BYTES
    } else {
        bytes < OPEN_SEGMENT_BYTES
    }
}

fn is_up_to(a: Spot, b: Spot) -> bool
    ensures { result ≡ is_up_to a b }
{
    a.commit < b.commit || (a.commit == b.commit && a.seq <= b.seq)
}

fn spot_follows(last: Option<Spot>, spot: Option<Spot>) -> bool
    ensures { result ≡ spot_follows last spot }
{
    match (last, spot) {
        (None, _) => true,
        (Some(_), None) => false,
        (Some(last), Some(spot)) => is_up_to(last, spot),
    }
}

fn is_same(a: Role, b: Role) -> bool
    ensures { result ≡ is_role a b }
{
    match (a, b) {
        (Role::Source, Role::Source) => true,
        (Role::Target, Role::Target) => true,
        _ => false,
    }
}
