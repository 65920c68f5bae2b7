ghost use Rattle.std.specs.Prelude.{◌≡◌, ◌==◌, position};

use crate::limits::PIECE_BYTES;
use crate::piece::ByteReader;
use std::alloc::{AllocError, Global};
use voy_disk::{Disk, DiskError, Name};

/// The byte that ends a line.
const LINE_FEED: u8 = 10;

/// What a reader found.
#[derive(Clone, Copy, Debug, PartialEq, Eq)]
pub enum Found {
    /// A line, which [`LineReader::line`] gives.
    Line,
    /// A line of more bytes than the reader's limit.
    TooLong,
    /// No further byte.
    End,
}

/// Goes through the lines of a file of any size, of which it holds one at a time.
///
/// A line is ended by LF, which is no part of it; the last line may lack it. The reader reads up to the
/// length that the file had when it was opened, or from one offset up to another.
#[derive(Debug, Drop)]
pub struct LineReader {
    pub(crate) name: Name,
    pub(crate) bytes: ByteReader,
    pub(crate) line: Vec<u8>,
    pub(crate) is_ended: bool,
    pub(crate) limit: usize,
}

impl LineReader {
    ghost use Rattle.std.specs.Prelude.{◌≡◌, ◌≢◌, ◌<◌, ◌≤◌, ◌^◌, ◌+◌, ◌-◌, ◌↔◌, ℕ, List, [], ◌∷◌, false, length, vec_len, is_some, IsTrue, IsFalse, IfOk, IfSome, MatchOption};
    ghost use Rattle.voy_disk.specs.Faults.{HasCause};
    ghost use Rattle.voy_disk.specs.Files.{Files, IfTold, bytes_now};
    ghost use Rattle.voy_files.specs.Bytes.{bytes_between};
    ghost use Rattle.voy_files.specs.Reader.{Finds, IsRead, IsSameFile, StandsAt, TakesLine, TakesPiece, bytes_left, bytes_taken, found_line, has_line_feed, held, line_limit, unread};

    /// A reader of the file's lines, of at most `limit` bytes each; `None` exactly where there is no such
    /// file.
    pub fn open<D: Disk>(
        alloc: Global,
        disk: &mut D,
        name: Name,
        limit: usize,
    ) -> Result<Option<LineReader>, DiskError>
        ensures absent { IfOk result (λ o. IfTold (D.files disk.old) (λ fs.
            MatchOption o (fs name ≡ None) (λ r. unread r fs ≡ bytes_now (fs name)))) }
        ensures found { IfOk result (λ o. IfTold (D.files disk.old) (λ fs. is_some o ≡ is_some (fs name))) }
        ensures limit { IfOk result (λ o. IfSome o (λ r. line_limit r ≡ limit)) }
        ensures few { IfOk result (λ o. IfSome o (λ r. bytes_left r < 2 ^ 63)) }
        ensures stands { IfOk result (λ o. IfSome o (λ r. StandsAt r 0)) }
        ensures same { D.files disk.new ≡ D.files disk.old }
        ensures cause { HasCause DiskError.Failed (D.faults disk.old) (D.faults disk.new) result }
        ensures lender { D.lender disk.new ≡ D.lender disk.old }
    {
        let Some(bytes) = ByteReader::open(alloc, disk, &name)? else {
            return Ok(None);
        };
        Ok(Some(LineReader::over(alloc, name, bytes, limit)))
    }

    /// A reader of the lines of the bytes from one offset up to another, as of those that were committed. A
    /// file that ends before has fewer; an absent one has none.
    pub fn between(alloc: Global, name: Name, start: u64, end: u64, limit: usize) -> LineReader
        ensures unread { (fs : Files) → unread result fs ≡ bytes_between start end (bytes_now (fs name)) }
        ensures limit { line_limit result ≡ limit }
        ensures left { bytes_left result ≡ end - start }
        ensures stands { StandsAt result start }
    {
        LineReader::over(alloc, name, ByteReader::between(alloc, start, end), limit)
    }

    /// A reader of the lines of what a reader of bytes has left.
    fn over(alloc: Global, name: Name, bytes: ByteReader, limit: usize) -> LineReader
        ensures name { result.name ≡ name }
        ensures bytes { result.bytes ≡ bytes }
        ensures limit { line_limit result ≡ limit }
    {
        LineReader {
            name,
            bytes,
            line: Vec::new(alloc),
            is_ended: false,
            limit,
        }
    }

    /// The line that was found last.
    pub fn line(&self) -> &[u8]
        ensures { result.now ≡ found_line self.now }
    {
        self.line.as_slice()
    }

    /// Whether LF ended the line that was found last. Only the last line may lack it.
    pub fn has_line_feed(&self) -> bool
        ensures { result ≡ has_line_feed self.now }
    {
        self.is_ended
    }

    /// The bytes that were read from the disk and not given yet, from where the next line begins. Between two calls of
    /// `next` there are at most [`PIECE_BYTES`](crate::PIECE_BYTES) of them.
    pub fn ahead(&self) -> &[u8]
        ensures bytes { result.now ≡ held self.now }
        ensures few { length result.now ≤ PIECE_BYTES }
    {
        self.bytes.ahead()
    }

    /// The offset in the file of the next line.
    pub fn offset(&self) -> u64
        ensures { (offset : ℕ) → StandsAt self.now offset → result ≡ offset }
    {
        self.bytes.offset()
    }

    /// Finds the next line. After an error, and after a line that is too long, the reader is given up.
    pub fn next<D: Disk>(&mut self, disk: &mut D) -> Result<Found, DiskError>
        ensures found { IfOk result (λ found. IfTold (D.files disk.old) (λ fs.
            Finds found (line_limit self.old) (found_line self.new) (unread self.old fs) (unread self.new fs))) }
        ensures takes { IfOk result (λ found. found ≡ Found.Line → IfTold (D.files disk.old) (λ fs.
            TakesLine (has_line_feed self.new) (found_line self.new) (unread self.old fs) (unread self.new fs))) }
        ensures stands { IfOk result (λ found. found ≡ Found.Line → (offset : ℕ) → StandsAt self.old offset →
            StandsAt self.new (offset + bytes_taken (has_line_feed self.new) (found_line self.new))) }
        ensures stays { IfOk result (λ found. found ≡ Found.End → (offset : ℕ) → StandsAt self.old offset → StandsAt self.new offset) }
        ensures shrinks { IfOk result (λ found. found ≡ Found.Line → bytes_left self.new < bytes_left self.old) }
        ensures limit { line_limit self.new ≡ line_limit self.old }
        ensures same { D.files disk.new ≡ D.files disk.old }
        ensures cause { HasCause DiskError.Failed (D.faults disk.old) (D.faults disk.new) result }
        ensures lender { D.lender disk.new ≡ D.lender disk.old }
    {
        self.line.clear();
        self.is_ended = false;
        while self.line.len() <= self.limit {
            if self.is_at_end(disk)? {
                return Ok(self.last_found());
            }
            if self.take_piece()? {
                return Ok(self.whole_found());
            }
        }
        Ok(Found::TooLong)
    }

    /// Whether no byte is left. It reads the next piece where the one at hand is used up.
    pub fn is_at_end<D: Disk>(&mut self, disk: &mut D) -> Result<bool, DiskError>
        ensures left { IfOk result (λ end. IfTold (D.files disk.old) (λ fs. IsTrue end ↔ (unread self.old fs ≡ []))) }
        ensures held { IfOk result (λ end. IsFalse end → 0 < length (held self.new)) }
        ensures fewer { IfOk result (λ end. bytes_left self.new ≤ bytes_left self.old) }
        ensures unread { IfOk result (λ end. IfTold (D.files disk.old) (λ fs. unread self.new fs ≡ unread self.old fs)) }
        ensures stands { IfOk result (λ end. (offset : ℕ) → StandsAt self.old offset → StandsAt self.new offset) }
        ensures line { found_line self.new ≡ found_line self.old }
        ensures ended { has_line_feed self.new ≡ has_line_feed self.old }
        ensures limit { line_limit self.new ≡ line_limit self.old }
        ensures same { D.files disk.new ≡ D.files disk.old }
        ensures cause { HasCause DiskError.Failed (D.faults disk.old) (D.faults disk.new) result }
        ensures lender { D.lender disk.new ≡ D.lender disk.old }
    {
        let some = self.bytes.fill(disk, &self.name)?;
        Ok(!some)
    }

    /// Moves bytes of the piece behind the line's front: those up to a line feed, which is dropped, or all.
    /// Whether there was a line feed.
    fn take_piece(&mut self) -> Result<bool, AllocError>
        requires { 0 < length (held self.old) }
        ensures took { IfOk result (λ ended. TakesPiece ended self.old self.new) }
        ensures file { IsSameFile self.old self.new }
    {
        let held = self.bytes.held();
        match line_feed_at(held) {
            Some(k) => {
                self.line.extend_from_slice(&held[..k])?;
                self.bytes.skip(k + 1);
                self.is_ended = true;
                Ok(true)
            }
            None => {
                let count = held.len();
                self.line.extend_from_slice(held)?;
                self.bytes.skip(count);
                Ok(false)
            }
        }
    }

    /// What the line is that a line feed ended.
    fn whole_found(&self) -> Found
        ensures finds { (start left : List ℕ) → IsRead start (found_line self.now) (10 ∷ left) →
            Finds result (line_limit self.now) (found_line self.now) start left }
        ensures some { result ≢ Found.End }
    {
        if self.line.len() <= self.limit {
            Found::Line
        } else {
            Found::TooLong
        }
    }

    /// What the line is that the file's end ended.
    fn last_found(&self) -> Found
        requires { vec_len self.now.line ≤ line_limit self.now }
        ensures finds { (start : List ℕ) → IsRead start (found_line self.now) [] →
            Finds result (line_limit self.now) (found_line self.now) start [] }
        ensures some { result ≡ Found.Line → 0 < length (found_line self.now) }
        ensures none { result ≡ Found.End → length (found_line self.now) ≡ 0 }
    {
        if self.line.is_empty() {
            Found::End
        } else {
            Found::Line
        }
    }
}

/// The place of the first line feed.
fn line_feed_at(bytes: &[u8]) -> Option<usize>
    ensures { result ≡ position (λ byte. byte == 10) bytes.now }
{
    bytes.iter().position(|byte| *byte == LINE_FEED)
}
