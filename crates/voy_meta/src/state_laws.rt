ghost use Rattle.voy_meta.specs.Growing.{GrowsByAll, GrowsByOne};
ghost use Rattle.voy_meta.specs.Putting.{QueueRecordsSay, SnapshotsAreMissing};
ghost use Rattle.voy_meta.specs.StateLaws.{ClosedStays, ConsistencyIsKept, FirstOfItsPart, NoFallBackIsSaid, NotRefusedIsAllowed, OneMoreState, OneMoreTest, OpenIsTheWriters, RecordsAreConsistent, SegmentsInOrder, StageIsTheLast, StageNeverFalls, StagesNeverFall, StatesJoin, TestsJoin};

/// Law: what allowed records come to is consistent, and each allowed record keeps it so.
pub fn consistent()
    ensures records { RecordsAreConsistent }
    ensures kept { ConsistencyIsKept }
{}

/// Law: what records come to, and whether they are allowed, over lists of records one after the other.
pub fn records_join()
    ensures states { StatesJoin }
    ensures tests { TestsJoin }
    ensures state_more { OneMoreState }
    ensures test_more { OneMoreTest }
{}

/// Law: what an allowed Queue record says, condition by condition; and a Snapshot record is allowed only where not all
/// snapshots are recorded.
pub fn records_say()
    ensures queue { QueueRecordsSay }
    ensures snapshot { SnapshotsAreMissing }
{}

/// Law: an allowed record changes no closed segment.
pub fn closed_stays()
    ensures { ClosedStays }
{}

/// Law: in a consistent state the segments stand in order, all but the last are closed, an open one is of the exporter that
/// may write, and the first of a part is told by the one in front of it.
pub fn segments_stand()
    ensures order { SegmentsInOrder }
    ensures writer { OpenIsTheWriters }
    ensures first { FirstOfItsPart }
{}

/// Law: a request is allowed exactly where the stage does not refuse it, and a refusal for want of a fall-back says that
/// the cutover to the target was asked for without one.
pub fn refusals_tell()
    ensures allowed { NotRefusedIsAllowed }
    ensures no_fall_back { NoFallBackIsSaid }
{}

/// Law: the stage is the last that is reached, all earlier ones are, and an allowed record never takes it back.
pub fn stages_go_on()
    ensures last { StageIsTheLast }
    ensures on { StageNeverFalls }
    ensures all { StagesNeverFall }
{}

/// Law: allowed records take nothing back: what is recorded, ended, asked for, counted, finished or done stays so, and
/// places, vsns and an open segment only go up.
pub fn states_grow()
    ensures one { GrowsByOne }
    ensures all { GrowsByAll }
{}
