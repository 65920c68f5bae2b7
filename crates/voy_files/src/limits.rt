/// How many bytes are read from a disk at a time.
pub const PIECE_BYTES: usize = 65536;
