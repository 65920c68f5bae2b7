ghost use Rattle.std.specs.Prelude.{◌≡◌};
ghost use Rattle.voy_meta.specs.Allowed.{has_fall_back, has_snapshot, says_fall_back, vsn_before};
ghost use Rattle.voy_meta.specs.Sides.{channels_of, feeds, finished_of, is_done, is_ended, last_of, last_segment, leads_to, request_of};

use crate::state::{MetaState, SegmentState};
use voy_tables::{Role, Side, Spot};

impl MetaState {
    /// Where the last committed change of this exporter stands in the recording.
    pub fn last(&self, role: Role) -> Option<Spot>
        ensures { result ≡ last_of role self.now }
    {
        match role {
            Role::Source => self.last_source,
            Role::Target => self.last_target,
        }
    }

    /// Whether the cutover event of this exporter is committed.
    pub fn ended(&self, role: Role) -> bool
        ensures { result ≡ is_ended role self.now }
    {
        match role {
            Role::Source => self.ended_source,
            Role::Target => self.ended_target,
        }
    }

    /// The request of the cutover to this side, and whether it asked for a fall-back.
    pub fn request(&self, side: Side) -> Option<bool>
        ensures { result ≡ request_of side self.now }
    {
        match side {
            Side::Target => self.request_target,
            Side::Source => self.request_source,
        }
    }

    /// How many channels fill the store of this side.
    pub fn channels(&self, side: Side) -> Option<u32>
        ensures { result ≡ channels_of side self.now }
    {
        match side {
            Side::Target => self.channels_target,
            Side::Source => self.channels_source,
        }
    }

    /// The last segment whose changes are all in the store of this side.
    pub fn finished(&self, side: Side) -> Option<u32>
        ensures { result ≡ finished_of side self.now }
    {
        match side {
            Side::Target => self.finished_target,
            Side::Source => self.finished_source,
        }
    }

    /// Whether the cutover to this side is done.
    pub fn done(&self, side: Side) -> bool
        ensures { result ≡ is_done side self.now }
    {
        match side {
            Side::Target => self.done_target,
            Side::Source => self.done_source,
        }
    }

    /// Whether all snapshots are recorded, those of at least one table.
    pub fn has_snapshot(&self) -> bool
        ensures { result ≡ has_snapshot self.now }
    {
        self.tables > 0 && self.snapshots.len() == self.tables as usize
    }

    /// Whether the cutover to the target is done, and was asked for with a fall-back.
    pub fn has_fall_back(&self) -> bool
        ensures { result ≡ has_fall_back self.now }
    {
        self.done_target && says_fall_back(self.request_target)
    }

    /// What is recorded of the last segment.
    pub fn last_segment(&self) -> Option<SegmentState>
        ensures { result ≡ last_segment self.now }
    {
        self.segments.as_slice().last().copied()
    }

    /// The vsn of the last committed event, from whatever exporter; 0 where there is none.
    pub fn last_vsn(&self) -> u64
        ensures { result ≡ vsn_before (last_segment self.now) }
    {
        match self.last_segment() {
            None => 0,
            Some(last) => last.last_vsn,
        }
    }
}

/// Whether the cutover was asked for with a fall-back.
pub(crate) fn says_fall_back(request: Option<bool>) -> bool
    ensures { result ≡ says_fall_back request }
{
    match request {
        None => false,
        Some(fall_back) => fall_back,
    }
}

/// The exporter whose events go into the store of this side.
pub fn feeding(side: Side) -> Role
    ensures { result ≡ feeds side }
{
    match side {
        Side::Target => Role::Source,
        Side::Source => Role::Target,
    }
}

/// The side to which the cutover event of this exporter leads.
pub fn led_to(role: Role) -> Side
    ensures { result ≡ leads_to role }
{
    match role {
        Role::Source => Side::Target,
        Role::Target => Side::Source,
    }
}
