use voy_schema::Items;
use voy_tables::{Role, Spot};

/// The recorded snapshot of one table.
#[derive(Clone, Copy, Debug, PartialEq, Eq)]
pub struct SnapshotState {
    pub bytes: u64,
    pub rows: u64,
}

/// What is recorded of one segment.
#[derive(Clone, Copy, Debug, PartialEq, Eq)]
pub struct SegmentState {
    /// Its committed bytes.
    pub bytes: u64,
    /// The vsn of its last committed event.
    pub last_vsn: u64,
    /// Whose events it has.
    pub role: Role,
    /// It takes no further line.
    pub closed: bool,
    /// Its last event is the cutover event of its exporter.
    pub ended: bool,
}

/// The recorded snapshots, by the number of their table.
pub type Snapshots = Items<SnapshotState>;

/// The recorded segments, by number.
pub type Segments = Items<SegmentState>;

/// What all records of `meta.journal` come to.
#[derive(Debug, Drop)]
pub struct MetaState {
    /// 1 or 2; 0 where no version is recorded.
    pub version: u8,
    /// How many tables there are; 0 where no snapshot is recorded.
    pub tables: u32,
    pub snapshots: Snapshots,
    pub segments: Segments,
    /// Where the last committed change of the source's exporter stands in the recording.
    pub last_source: Option<Spot>,
    /// The same of the target's exporter.
    pub last_target: Option<Spot>,
    /// The cutover event of the source's exporter is committed.
    pub ended_source: bool,
    /// The same of the target's exporter.
    pub ended_target: bool,
    /// The request of the cutover to the target, and whether it asked for a fall-back.
    pub request_target: Option<bool>,
    /// The same of the cutover to the source.
    pub request_source: Option<bool>,
    /// How many channels fill the target's store.
    pub channels_target: Option<u32>,
    /// The same of the source's store.
    pub channels_source: Option<u32>,
    /// The last segment whose changes are all in the target's store.
    pub finished_target: Option<u32>,
    /// The same of the source's store.
    pub finished_source: Option<u32>,
    /// The cutover to the target is done.
    pub done_target: bool,
    /// The same of the cutover to the source.
    pub done_source: bool,
    /// The source's store is loaded.
    pub loaded: bool,
}
