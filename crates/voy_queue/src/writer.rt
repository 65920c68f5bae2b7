ghost use Rattle.std.specs.Prelude.{◌<◌, ◌≤◌, ◌≡◌, false};
ghost use Rattle.voy_meta.specs.declared.limits.TheConstants.{OPEN_SEGMENT_BYTES};
ghost use Rattle.voy_queue.specs.Behind.{are_behind_prop, are_shut_prop};
ghost use Rattle.voy_queue.specs.Putting.{AreBehind, AreShut};

use crate::end::{End, Pending};
use std::alloc::Global;
use voy_tables::Role;

/// Puts events behind the queue, and commits them.
///
/// What is put is gathered in memory, and is no part of the queue until it is committed.
#[derive(Debug, Drop)]
pub struct Writer {
    pub(crate) alloc: Global,
    /// Whose events it puts.
    pub(crate) role: Role,
    /// At how many bytes of event lines a segment is closed.
    pub(crate) max_bytes: u64,
    /// Where the queue ends by the metadata.
    pub(crate) end: End,
    /// What was put behind it.
    pub(crate) pending: Pending,
    /// Whether events may be put and committed.
    pub(crate) live: bool,
    ghost behind: { AreBehind end pending } by { are_behind_prop end pending },
    ghost shut: { AreShut pending } by { are_shut_prop pending },
    ghost size: { max_bytes ≤ OPEN_SEGMENT_BYTES },
    ghost room: { end.closed ≡ false → end.bytes < OPEN_SEGMENT_BYTES },
}
