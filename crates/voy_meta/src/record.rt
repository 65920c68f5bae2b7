use voy_tables::{Role, Side, Spot};

/// One entry of `meta.journal`: something that was done, and is safe.
///
/// Tables are named by their place in the schema, segments by their number; both are counted from 0.
#[derive(Clone, Copy, Debug, PartialEq, Eq)]
pub enum MetaRecord {
    /// By which rules the records are kept: 1 or 2.
    Version {
        version: u8,
    },
    /// The snapshot of this table, one of so many, is whole: its file has so many bytes and rows.
    Snapshot {
        table: u32,
        of: u32,
        bytes: u64,
        rows: u64,
    },
    /// So many bytes of this segment are committed. They end with the event of `last_vsn`, from this exporter.
    Queue {
        segment: u32,
        bytes: u64,
        last_vsn: u64,
        role: Role,
        /// Where the exporter's last change up to there stands in the recording; none where it has no change yet.
        spot: Option<Spot>,
        /// No line comes behind these bytes.
        closed: bool,
        /// The last event is the cutover event of its exporter.
        ended: bool,
    },
    /// A cutover to this side was asked for, with or without a fall-back.
    Request {
        side: Side,
        fall_back: bool,
    },
    /// The store of this side is filled by so many channels.
    Channels {
        side: Side,
        count: u32,
    },
    /// All changes of this segment are in the store of this side.
    Finished {
        side: Side,
        segment: u32,
    },
    /// The cutover to this side is done.
    Done {
        side: Side,
    },
    /// The source's store is loaded.
    Loaded,
}
