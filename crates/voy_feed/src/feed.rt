ghost use Rattle.std.specs.Prelude.{◌≡◌, Some};
ghost use Rattle.voy_event.specs.declared.limits.TheConstants.{MAX_RECORDED_LINE_BYTES};
ghost use Rattle.voy_files.specs.Reader.{StandsAt, line_limit};
ghost use Rattle.voy_files.specs.declared.line_reader.LineReader.{LineReader};

use std::alloc::Global;
use voy_disk::Name;
use voy_files::LineReader;

/// The recorded changes of a file, line by line.
///
/// It reads at most 65,536 bytes at a time, and holds one line and one piece.
#[derive(Debug, Drop)]
pub struct Feed {
    pub(crate) alloc: Global,
    pub(crate) name: Name,
    /// Where the next line begins.
    pub(crate) at: u64,
    /// The length that the file had when it was opened.
    pub(crate) end: u64,
    /// How many lines were given.
    pub(crate) given: u64,
    /// Reads on from the next line; none behind an error.
    pub(crate) lines: Option<LineReader>,
    ghost place: { (reader : LineReader) → lines ≡ Some reader → StandsAt reader at },
    ghost limit: { (reader : LineReader) → lines ≡ Some reader → line_limit reader ≡ MAX_RECORDED_LINE_BYTES },
}
