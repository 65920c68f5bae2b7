/// The most bytes of all recorded CSV files together, in the order of their tables. The first that takes the sum above it is refused.
pub const MAX_CSV_BYTES: u64 = 268_435_456;

/// After so many events of a call, and again after so many more, an export commits.
pub(crate) const COMMIT_EVENTS: u64 = 1000;
