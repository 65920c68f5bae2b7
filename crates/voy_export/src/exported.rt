ghost use Rattle.std.specs.Prelude.{◌≡◌, ◌≤◌, ◌-◌, if◌then◌else◌};

use voy_queue::End;

/// What an export of changes has done.
#[derive(Clone, Copy, Debug, PartialEq, Eq)]
pub struct Exported {
    /// How many changes it put into the queue.
    pub changes: u64,
    /// The last vsn of the queue afterwards; 0 where it is empty.
    pub last_vsn: u64,
}

/// What was exported between two ends of the queue: each event but a cutover is a change.
pub(crate) fn exported_between(from: End, to: End) -> Exported
    requires rises { from.last_vsn ≤ to.last_vsn }
    ensures last_vsn { result.last_vsn ≡ to.last_vsn }
    ensures changes { result.changes ≡ to.last_vsn - from.last_vsn - (if to.ended then 1 else 0) }
{
    let events = to.last_vsn - from.last_vsn;
    let cutovers = if to.ended { 1 } else { 0 };
    Exported {
        changes: events.saturating_sub(cutovers),
        last_vsn: to.last_vsn,
    }
}
