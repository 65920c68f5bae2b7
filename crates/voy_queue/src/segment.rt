use voy_files::LineReader;
use voy_meta::SegmentState;

/// A segment that is read, up to its committed size.
#[derive(Debug, Drop)]
pub(crate) struct OpenSegment {
    pub(crate) number: u32,
    pub(crate) state: SegmentState,
    /// Its lines that are left.
    pub(crate) lines: LineReader,
    /// Where the next one begins, in bytes from the segment's beginning.
    pub(crate) offset: u64,
}
