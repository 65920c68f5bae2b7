ghost use Rattle.voy_order.specs.HistoryLaws.{AppliedPartsAreFolded, BatchesKeepGood, CountsMayBeSet, EpochsKeepGood, EventsKeepGood, EventsRaiseMarks, EveryPrefixStands, FilesMayBeMade, ListsAreStanding, QueuesMayGrow, TakenItemsFit};

use voy_tables::{
    empty_lists_have_no_rows, folds_agree, lists_are_tables, misfit_is_none_where_it_fits,
};

/// Law: change events that come next, fit, and are free where the part is valid, keep a history good.
pub fn events_keep_good()
    ensures { EventsKeepGood }
{}

/// Law: a batch that comes next and fits keeps a history without change events good.
pub fn batches_keep_good()
    ensures { BatchesKeepGood }
{}

/// Law: an epoch that comes next keeps a history good.
pub fn epochs_keep_good()
    ensures { EpochsKeepGood }
{}

/// Law: a history stays good when the queue grows.
pub fn queues_may_grow()
    ensures { QueuesMayGrow }
{}

/// Law: a history stays good when batch files are made.
pub fn files_may_be_made()
    ensures { FilesMayBeMade }
{}

/// Law: a history stays good when the number of channels is set, while it has neither change events nor epochs.
pub fn counts_may_be_set()
    ensures { CountsMayBeSet }
{}

/// Law: change events that come next raise the mark of a history as they do one after the other.
pub fn events_raise_marks()
    ensures { EventsRaiseMarks }
{}

/// Law: behind every first part of a good history its tables are clean and those at its mark, which is closed where the part is
/// valid.
pub fn every_prefix_stands()
    ensures { EveryPrefixStands }
{}

/// Law: where all rows are there and the whole part is applied, a good history ends in the fold of the part.
pub fn applied_parts_are_folded()
    ensures { AppliedPartsAreFolded }
{}

/// Law: of lawful transactions the lists of rows that a store keeps are the tables of their history.
pub fn lists_are_standing()
    ensures { ListsAreStanding }
{
    folds_agree();
    empty_lists_have_no_rows();
}

/// Law: a lawful transaction has no violation exactly where its items fit the tables of the history, or for a load those
/// without rows.
pub fn taken_items_fit()
    ensures { TakenItemsFit }
{
    folds_agree();
    empty_lists_have_no_rows();
    lists_are_tables();
    misfit_is_none_where_it_fits();
}
