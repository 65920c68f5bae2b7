ghost use Rattle.std.specs.Prelude.{◌≡◌, ◌+◌, ◌-◌, ◌*◌, ◌≤◌, true, length};
ghost use Rattle.voy_conflict.specs.Filing.{are_apart, vsn_at, without_past};

use crate::entry::Entry;
use voy_event::Events;
use voy_link::{Arena, Steps};

/// Takes the first nodes of the lane out, up to one whose event is above this vsn.
pub(crate) fn drop_past<L>(
    entries: &mut Arena<Entry>,
    events: &Events,
    lane: u32,
    vsn: u64,
    steps: &mut Steps<L>,
)
    requires { are_apart entries.old.nodes ≡ true }
    ensures nodes { entries.new.nodes ≡ without_past events.now lane vsn entries.old.nodes }
    ensures apart { are_apart entries.new.nodes ≡ true }
    ensures room { entries.new.spare + length entries.new.nodes ≡ entries.old.spare + length entries.old.nodes }
    ensures fewer { length entries.new.nodes ≤ length entries.old.nodes }
    ensures steps { steps.old.count ≤ steps.new.count }
    ensures few_steps { steps.new.count ≤ steps.old.count + 3 * (length entries.old.nodes - length entries.new.nodes) + 2 }
    ensures buckets { entries.new.buckets ≡ entries.old.buckets }
    ensures lanes { entries.new.lanes ≡ entries.old.lanes }
{
    while let Some(id) = entries.first_in_lane(lane, steps) {
        let entry = entries.item(id, steps);
        if vsn_at(events, entry.at) > vsn {
            return;
        }
        entries.remove(id, steps);
    }
}

/// The vsn of the event at place `at`; 0 where no event stands there.
fn vsn_at(events: &Events, at: u32) -> u64
    ensures { result ≡ vsn_at events.now at }
{
    match events.get(at as usize) {
        Some(event) => event.vsn,
        None => 0,
    }
}
