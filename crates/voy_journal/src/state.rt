ghost use Rattle.std.specs.Prelude.{◌+◌, ◌<◌, ◌^◌};

use std::alloc::Global;
use voy_disk::Name;

/// A journal that was opened. It knows its file's name and the place of its closed gate, and holds no
/// payload.
#[derive(Debug, Drop)]
pub struct Journal {
    pub(crate) alloc: Global,
    pub(crate) name: Name,
    /// The place of the closed gate, in bytes from the file's beginning.
    pub(crate) gate: u64,
    /// Whether the file is known to be as the last call left it.
    pub(crate) live: bool,
    ghost in_range: { gate + 1 < 2 ^ 63 },
}
