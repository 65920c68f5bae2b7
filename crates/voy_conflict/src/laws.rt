ghost use Rattle.voy_conflict.specs.Laws.{CachesAreFew, EmptiedServeAnew, EntriesAreFew, EventsMayGrow, LeftAreOthers, NextIsListed};

/// Law: a cache keeps the tuples of the same events when further ones come behind them.
pub fn events_may_grow()
    ensures { EventsMayGrow }
{}

/// Law: an event has at most eight entries, one for each unique key that a table of a lawful schema may have.
pub fn entries_are_few()
    ensures { EntriesAreFew }
{}

/// Law: a cache has at most eight entries for each place.
pub fn caches_are_few()
    ensures { CachesAreFew }
{}

/// Law: a cache without events left serves others as a new one does.
pub fn emptied_serve_anew()
    ensures { EmptiedServeAnew }
{}

/// Law: what stands at the places that are left are the events that stood there but those of the channel up to the vsn.
pub fn left_are_others()
    ensures { LeftAreOthers }
{}

/// Law: at the place of an event that comes behind the others stands that event.
pub fn next_is_listed()
    ensures { NextIsListed }
{}
