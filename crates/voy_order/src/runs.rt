ghost use Rattle.voy_order.specs.RunLaws.{CommitsTakeItems, DrainsEnd, ReadyByNeeds, ReadyChannelsRun, RunsAreByNeeds, RunsAreLongest, RunsMayCommit, SomeChannelIsReady, WindowsStay};

/// Law: where an event of the window is pending, some channel is ready.
pub fn some_channel_is_ready()
    ensures { SomeChannelIsReady }
{}

/// Law: the first pending event of a channel is held back exactly where it has needs among the pending ones.
pub fn ready_by_needs()
    ensures { ReadyByNeeds }
{}

/// Law: the run of a ready channel has an event, where a run may have one and no line is longer than a run may be.
pub fn ready_channels_run()
    ensures { ReadyChannelsRun }
{}

/// Law: the run of a channel may be committed.
pub fn runs_may_commit()
    ensures { RunsMayCommit }
{}

/// Law: at a closed mark of a valid part the run of a channel ends in front of the first event that has needs.
pub fn runs_are_by_needs()
    ensures { RunsAreByNeeds }
{}

/// Law: the run of a channel is the longest list of its first pending events within both limits of which none is held back by
/// a pending event of another channel.
pub fn runs_are_longest()
    ensures { RunsAreLongest }
{}

/// Law: a window has the first pending events of the part also behind a commit.
pub fn windows_stay()
    ensures { WindowsStay }
{}

/// Law: runs of ready channels, picked in any order until nothing is pending, may be committed in turn, and have each event of
/// the window once.
pub fn drains_end()
    ensures { DrainsEnd }
{}

/// Law: a commit takes its items from its channel, and leaves the other channels.
pub fn commits_take_items()
    ensures { CommitsTakeItems }
{}
