ghost use Rattle.std.specs.Prelude.{◌≡◌};
ghost use Rattle.voy_words.specs.Table.{least_of, most_of, setting_name};

/// A number that the words behind a phrase can give: the value of an option, or a word of its own behind `rehearse`.
#[derive(Clone, Copy, Debug, PartialEq, Eq)]
pub enum Setting {
    MaxChanges,
    SegmentMaxBytes,
    BatchSize,
    EventChannels,
    MaxEventsPerBatch,
    Window,
    ParallelJobs,
    Number,
    Changes,
    Channels,
}

impl Setting {
    /// What stands behind `--`, and how the word is called where it stands alone.
    pub fn name(self) -> &'static str
        ensures { result.now ≡ setting_name self }
    {
        match self {
            Setting::MaxChanges => "max-changes",
            Setting::SegmentMaxBytes => "segment-max-bytes",
            Setting::BatchSize => "batch-size",
            Setting::EventChannels => "event-channels",
            Setting::MaxEventsPerBatch => "max-events-per-batch",
            Setting::Window => "window",
            Setting::ParallelJobs => "parallel-jobs",
            Setting::Number => "number",
            Setting::Changes => "changes",
            Setting::Channels => "channels",
        }
    }

    /// The least number that it takes.
    pub fn least(self) -> u32
        ensures { result ≡ least_of self }
    {
        match self {
            Setting::MaxChanges | Setting::Number | Setting::Changes => 0,
            _ => 1,
        }
    }

    /// The greatest number that it takes.
    pub fn most(self) -> u32
        ensures { result ≡ most_of self }
    {
        match self {
            Setting::MaxChanges | Setting::Number => u32::MAX,
            Setting::SegmentMaxBytes => 1_073_741_824,
            Setting::BatchSize | Setting::Changes => 1_000_000,
            Setting::EventChannels | Setting::Channels => 512,
            Setting::MaxEventsPerBatch => 1_000,
            Setting::Window => 65_536,
            Setting::ParallelJobs => 64,
        }
    }
}
