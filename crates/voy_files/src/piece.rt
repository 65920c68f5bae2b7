ghost use Rattle.std.specs.Prelude.{◌≤◌, vec_len};
ghost use Rattle.voy_files.specs.declared.limits.TheConstants.{PIECE_BYTES};

/// Takes the bytes of a file one after the other, of which it holds a piece of at most
/// [`PIECE_BYTES`](crate::PIECE_BYTES) at a time.
///
/// Each call is given the disk and the name of the file. The reader reads from the offset and up to the
/// end that it was made with. After an error, and after a part or a number that was not whole, it is given up.
#[derive(Debug, Drop)]
pub struct ByteReader {
    /// The place in the file of the next piece.
    pub(crate) at: u64,
    /// Bytes from here on are not read.
    pub(crate) end: u64,
    /// The bytes that were read last, of which those from `from` on were not taken yet.
    pub(crate) piece: Vec<u8>,
    pub(crate) from: usize,
    ghost few: { vec_len piece ≤ PIECE_BYTES },
}
