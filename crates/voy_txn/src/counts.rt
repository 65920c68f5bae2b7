/// How many rows and changes a store has of one table. A count that would pass 64 bits stays at their
/// last value.
#[derive(Clone, Copy, Debug, PartialEq, Eq)]
pub struct Counts {
    /// The rows that stand now.
    pub rows: u64,
    /// The rows of all its batches, as they came.
    pub batch_rows: u64,
    /// The changes of it in all events.
    pub changes: u64,
}
