use voy_event::events_read_back;
use voy_journal::one_reading;
use voy_order as order;
use voy_txn::payloads_read_back;

#[test]
fn laws_can_be_called() {
    one_reading();
    events_read_back();
    payloads_read_back();
}

#[test]
fn laws_of_orders_can_be_called() {
    order::holding_back_is_decided();
    order::closed_marks_are_clean();
    order::one_step();
    order::last_releaser();
    order::items_fit();
    order::any_order();
    order::reached_needs_suffice();
    order::worker_commits();
    order::epochs_change_nothing();
}

#[test]
fn laws_of_runs_can_be_called() {
    order::some_channel_is_ready();
    order::ready_by_needs();
    order::ready_channels_run();
    order::runs_may_commit();
    order::runs_are_by_needs();
    order::runs_are_longest();
    order::windows_stay();
    order::commits_take_items();
    order::drains_end();
}

#[test]
fn laws_of_good_histories_can_be_called() {
    order::events_keep_good();
    order::batches_keep_good();
    order::epochs_keep_good();
    order::queues_may_grow();
    order::files_may_be_made();
    order::counts_may_be_set();
    order::events_raise_marks();
    order::every_prefix_stands();
    order::applied_parts_are_folded();
    order::lists_are_standing();
    order::taken_items_fit();
}
