ghost use Rattle.std.specs.Prelude.{◌≡◌};
ghost use Rattle.voy_store.specs.Told.{told_contents};
ghost use Rattle.voy_contents.specs.Known.{known, schema_of};

use crate::log::Log;
use voy_contents::MemContents;

/// A store whose tables stand in memory, and whose transactions a log keeps.
#[derive(Drop)]
pub struct LogStore<L: Log> {
    pub(crate) contents: MemContents,
    pub(crate) log: L,
    ghost folds: { told_contents (schema_of contents) (L.history (schema_of contents) log) (known contents) ≡ known contents },
}
