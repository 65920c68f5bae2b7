/// The most bytes of one table's snapshot file.
pub const MAX_SNAPSHOT_BYTES: u64 = 1_073_741_824;

/// The greatest number of a segment.
pub const MAX_SEGMENT: u32 = 4_294_967_294;

/// An open segment has fewer committed bytes than this.
pub const OPEN_SEGMENT_BYTES: u64 = 1_073_741_824;

/// The most committed bytes of a closed segment: those of an open one, one line more, and the closing line.
pub const MAX_SEGMENT_BYTES: u64 = 1_077_937_155;

/// The greatest vsn.
pub const MAX_VSN: u64 = 9_223_372_036_854_775_807;

/// The most channels that fill a store.
pub const MAX_CHANNELS: u32 = 512;

/// The rules by which records are kept now.
pub const VERSION: u8 = 2;

/// The bytes in a payload of a number below 2 ^ 32.
pub(crate) const NUMBER_BYTES: usize = 4;

/// The bytes in a payload of any other number.
pub(crate) const LONG_BYTES: usize = 8;

/// The first byte of the payload of a version.
pub(crate) const VERSION_KIND: u8 = 1;

/// The first byte of the payload of a snapshot.
pub(crate) const SNAPSHOT_KIND: u8 = 2;

/// The first byte of the payload of a segment of the queue.
pub(crate) const QUEUE_KIND: u8 = 3;

/// The first byte of the payload of a request.
pub(crate) const REQUEST_KIND: u8 = 4;

/// The first byte of the payload of a count of channels.
pub(crate) const CHANNELS_KIND: u8 = 5;

/// The first byte of the payload of a finished segment.
pub(crate) const FINISHED_KIND: u8 = 6;

/// The first byte of the payload of a cutover that is done.
pub(crate) const DONE_KIND: u8 = 7;

/// The first byte of the payload of the load of the source's store.
pub(crate) const LOADED_KIND: u8 = 8;
