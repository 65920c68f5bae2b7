ghost use Rattle.std.specs.Prelude.{◌≡◌, [], ◌≤◌};

use crate::numbers::Numbers;
use std::alloc::Global;

/// Which calls of a `MemDisk` fail, and what a failed call leaves. Calls are counted from 1.
#[derive(Debug, Drop)]
pub struct FaultPlan {
    /// The numbers of the calls that fail.
    pub fail: Numbers,
    /// The number of the call from which on all calls fail; 0 where there is none.
    pub dead_from: u64,
    /// Picks what a failed call leaves of its change: how much of what was to be written or cut, and
    /// whether a file was made, renamed or made safe.
    pub leaves: u64,
}

impl FaultPlan {
    ghost use Rattle.voy_disk.specs.Plan.{has_planned, is_dead_at};

    /// The plan by which no call fails.
    pub fn none(alloc: Global) -> FaultPlan
        ensures { result ≡ record { fail = []; dead_from = 0; leaves = 0 } }
    {
        FaultPlan {
            fail: Numbers::from_vec(Vec::new(alloc)),
            dead_from: 0,
            leaves: 0,
        }
    }

    /// Whether the call with this number fails.
    pub fn fails_at(&self, call: u64) -> bool
        ensures { result ≡ has_planned self.now call }
    {
        self.fail.contains(call) || self.is_dead_at(call)
    }

    /// Whether all calls from the one with this number on fail.
    pub fn is_dead_at(&self, call: u64) -> bool
        ensures { result ≡ is_dead_at self.now call }
    {
        self.dead_from > 0 && self.dead_from <= call
    }
}
