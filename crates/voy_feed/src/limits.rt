/// The most bytes of a recorded change file. A longer one is refused as too large, and not read.
pub const MAX_CHANGE_FILE_BYTES: u64 = 268_435_456;
