ghost use Rattle.voy_queue.specs.Laws.{EndIsRecorded, EndIsRecordedInTurn, EndsWithPuts, EventsAreCounted, FirstPartIsPut, FollowsJoin, FollowsPart, LinesAreCounted, PendingJoins, PutsJoin, ReadsAlike, RecordsWith, RoomGoesOn, RoomIsThere, ShelvesAreRead, StandsAlikeWith, StandsAsInTurn, StandsAsItself, StandsAsTurned, WrittenReadsBack};
ghost use Rattle.voy_queue.specs.PuttingLaws.{AreBehindLaw, EndsWithPut};

use voy_event::{events_read_back, lines_stand_in_segments};
use voy_meta::{consistent, records_join, segments_stand};

/// Law: what may be put behind the end of what is pending is pending behind it, and ends as the event says; and the first
/// segments of what was put are what some first puts made. There is nothing to run.
pub fn puts_are_behind()
    ensures behind { AreBehindLaw }
    ensures end { EndsWithPut }
    ensures first { FirstPartIsPut }
{}

/// Law: a queue reads as its old events and those that were put behind them, or some first ones of these where only some first
/// segments were committed. There is nothing to run.
pub fn written_reads_back()
    ensures { WrittenReadsBack }
{
    // The laws of events and of records; there is nothing to run.
    events_read_back();
    lines_stand_in_segments();
    consistent();
    records_join();
    segments_stand();
}

/// Law: the queue of a shelf is that of the image that it is taken from. There is nothing to run.
pub fn shelves_are_read()
    ensures { ShelvesAreRead }
{}

/// Law: a queue that reads whole has the vsns from 1 on, in order, up to the last that is recorded. There is nothing to run.
pub fn events_are_counted()
    ensures { EventsAreCounted }
{}

/// Law: where a queue reads whole, its segments have all their committed bytes, and a line for each event and for the closing. There is nothing
/// to run.
pub fn lines_are_counted()
    ensures { LinesAreCounted }
{}

/// Law: how often a writer commits changes nothing but the number of records. Puts committed in two parts leave a shelf that stands as the
/// one with all of them committed at once; such shelves stay so with the same puts more, and have the same queue. There is nothing to run.
pub fn puts_join()
    ensures join { PutsJoin }
    ensures alike { StandsAlikeWith }
    ensures itself { StandsAsItself }
    ensures turned { StandsAsTurned }
    ensures turn { StandsAsInTurn }
    ensures reads { ReadsAlike }
    ensures room { RoomIsThere }
    ensures more_room { RoomGoesOn }
    ensures records { RecordsWith }
{}

/// Law: puts in two parts are pending as all of them are, may follow in turn where both parts may, and end put by put. There is nothing
/// to run.
pub fn puts_go_on()
    ensures pending { PendingJoins }
    ensures ends { EndsWithPuts }
    ensures follows { FollowsJoin }
    ensures parts { FollowsPart }
{}

/// Law: where puts are committed, the recorded end of the queue is the end behind them. There is nothing to run.
pub fn ends_are_recorded()
    ensures allowed { EndIsRecorded }
    ensures turn { EndIsRecordedInTurn }
{}
