ghost use Rattle.voy_order.specs.Laws.{AnyOrder, ClosedMarksAreClean, EpochsChangeNothing, HoldingBackIsDecided, ItemsFit, LastReleaser, OneStep, ReachedNeedsSuffice, WorkerCommits};

/// Law: the tests whether a change, or an event, holds another back say exactly that it does.
pub fn holding_back_is_decided()
    ensures { HoldingBackIsDecided }
{}

/// Law: the tables at a closed mark of a valid part are clean.
pub fn closed_marks_are_clean()
    ensures { ClosedMarksAreClean }
{}

/// Law: the next event of its channel fits the tables at a closed mark of a valid part where all that hold it back are
/// applied; doing it gives the tables with it applied, and that mark is closed.
pub fn one_step()
    ensures { OneStep }
{}

/// Law: at a closed mark of a valid part, where an event that releases a tuple is applied, each earlier one that releases it
/// is applied too.
pub fn last_releaser()
    ensures { LastReleaser }
{}

/// Law: the items of a transaction that may be committed fit one after the other, and give the tables with all of them
/// applied.
pub fn items_fit()
    ensures { ItemsFit }
{}

/// Law: commits in any order, each of what may be committed then, end in the tables at their mark, and in the fold of the
/// part where nothing is left.
pub fn any_order()
    ensures { AnyOrder }
{}

/// Law: where the needs of the next event of a channel are reached, all that hold it back are applied.
pub fn reached_needs_suffice()
    ensures { ReachedNeedsSuffice }
{}

/// Law: the next items of a channel may be committed where the needs of the first are reached and the others have none,
/// found once over a list that may be older than the mark and has what was pending then in front of the last.
pub fn worker_commits()
    ensures { WorkerCommits }
{}

/// Law: an epoch leaves what is applied, the tables at the mark, and that the mark is closed.
pub fn epochs_change_nothing()
    ensures { EpochsChangeNothing }
{}
