ghost use Rattle.voy_feed.specs.KeptLaws.{KeptGoOn, OnePlaceTells};

/// Law: a change is kept exactly where its place is above the last kept one and above the places of all changes in front of it.
pub fn changes_are_kept()
    ensures { OnePlaceTells }
{}

/// Law: behind the place of a kept change, just those kept behind it are kept. So an export goes on where the last one ended.
pub fn kept_go_on()
    ensures { KeptGoOn }
{}
