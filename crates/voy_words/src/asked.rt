use voy_tables::Side;

/// A command with all that its words say.
#[derive(Clone, Copy, Debug, PartialEq, Eq)]
pub enum Command {
    /// `export data from source`: at most `max` changes, where that is said, in segments of so many bytes.
    ExportSource {
        max: Option<u64>,
        segment_bytes: u64,
    },
    /// `export data from target`
    ExportTarget {
        max: Option<u64>,
        segment_bytes: u64,
    },
    /// `import data to target`; with `dry_run` it writes nothing.
    ImportTarget {
        options: Asked,
        dry_run: bool,
    },
    /// `import data to source`
    ImportSource {
        options: Asked,
    },
    /// `initiate cutover to target`; `fall_back` says whether a fall-back is prepared.
    CutoverTarget {
        fall_back: bool,
    },
    /// `initiate cutover to source`
    CutoverSource,
    /// `load source`
    LoadSource,
    /// `cutover status`
    Status,
    /// `get data-migration-report`
    Report,
    /// `show target` and `show source`
    Show {
        side: Side,
    },
    /// `rehearse NUMBER CHANGES CHANNELS`
    Rehearse {
        number: u64,
        changes: u64,
        channels: u32,
    },
}

/// What an import is asked to keep to. An option that was left out, or that the phrase lacks, has its default.
#[derive(Clone, Copy, Debug, PartialEq, Eq)]
pub struct Asked {
    /// Rows in a batch of the snapshot.
    pub batch_rows: u32,
    /// How many channels the events go by. Where it is left out, the store's own count holds.
    pub channels: Option<u32>,
    /// Events in one transaction.
    pub max_events: u32,
    /// Events in one window.
    pub window: u32,
    /// Jobs that work side by side.
    pub jobs: u32,
}
