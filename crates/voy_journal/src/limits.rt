/// The most bytes of a payload. A longer one is refused, and a file that states one is damaged.
pub const MAX_PAYLOAD_BYTES: u32 = 1_073_741_824;

/// The gate byte in front of a payload. Any other closes the journal.
pub(crate) const OPEN_GATE: u8 = 1;

/// The gate byte behind the last payload.
pub(crate) const CLOSED_GATE: u8 = 0;

/// How many bytes stand in front of a payload: its gate and its length.
pub const HEAD_BYTES: u64 = 5;

/// How many bytes an append writes behind the closed gate beside the payload: its length and the next gate.
pub(crate) const BLOCK_BYTES: usize = 5;
