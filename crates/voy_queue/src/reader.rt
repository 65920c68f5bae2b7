ghost use Rattle.std.specs.Prelude.{◌≡◌, ◌≤◌, suc, length, Some};
ghost use Rattle.voy_meta.specs.declared.limits.TheConstants.{MAX_SEGMENT};
ghost use Rattle.voy_queue.specs.Segment.{IsAtLine};
ghost use Rattle.voy_queue.specs.declared.segment.OpenSegment.{OpenSegment};

use crate::segment::OpenSegment;
use std::alloc::Global;
use voy_meta::Segments;

/// The committed events of the queue, in order, from the beginning of a segment on.
///
/// It reads at most 65,536 bytes at a time and no byte twice, and holds one line and one piece.
#[derive(Debug, Drop)]
pub struct Reader {
    pub(crate) alloc: Global,
    /// All recorded segments.
    pub(crate) segments: Segments,
    /// The number of the segment behind the one that is read.
    pub(crate) next: u32,
    /// The vsn of the last event that was given; of the last in front of the first.
    pub(crate) vsn: u64,
    /// The segment that is read.
    pub(crate) current: Option<OpenSegment>,
    ghost few: { length segments ≤ suc MAX_SEGMENT },
    ghost stands: { (segment : OpenSegment) → current ≡ Some segment → IsAtLine segment },
}
