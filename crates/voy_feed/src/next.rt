ghost use Rattle.std.specs.Prelude.{◌≡◌, ◌≢◌, ◌<◌, ◌+◌, ◌-◌, ◌^◌, ℕ, None, Some, IfErr, IfOk, IfNone, IfSome, IsTrue, OnErr, min};
ghost use Rattle.voy_disk.specs.Faults.{HasCause};
ghost use Rattle.voy_disk.specs.Files.{Files, IfTold, bytes_now};
ghost use Rattle.voy_event.specs.LawfulEvent.{IsLawfulChange};
ghost use Rattle.voy_event.specs.declared.limits.TheConstants.{MAX_RECORDED_LINE_BYTES};
ghost use Rattle.voy_feed.specs.Feed.{FeedStands, StandsOn, bytes_behind, bytes_left, changes_left, last_kept, lines_given};
ghost use Rattle.voy_feed.specs.Kept.{behind_change, is_above, kept_reading, nothing_left, refused_at};
ghost use Rattle.voy_files.specs.Reader.{StandsAt, bytes_taken, found_line, has_line_feed, line_limit, unread, bytes_left as reader_left};

use crate::error::FeedError;
use crate::feed::Feed;
use crate::keep::Keep;
use std::alloc::AllocError;
use std::mem::replace;
use voy_disk::Disk;
use voy_event::{LineError, LineWhy, MAX_RECORDED_LINE_BYTES, Recorded, read_change};
use voy_files::{Found, LineReader};
use voy_schema::Schema;

impl Feed {
    /// The change of the next line; `None` exactly at the end. `Line` exactly where that line has no reading, with its first cause.
    ///
    /// After an error the feed stands before that line, and a next call tries it again.
    pub fn next<D: Disk>(
        &mut self,
        disk: &mut D,
        schema: &Schema,
    ) -> Result<Option<Recorded>, FeedError>
        requires stands { FeedStands self.old (D.files disk.old) }
        // a change
        ensures some { IfOk result (λ found. IfSome found (λ recorded. IfTold (D.files disk.old) (λ fs.
            changes_left schema.now.tables self.old fs ≡ behind_change (lines_given self.new) recorded (changes_left schema.now.tables self.new fs)))) }
        ensures lawful { IfOk result (λ found. IfSome found (λ recorded. IsLawfulChange schema.now.tables recorded.change)) }
        ensures shrinks { IfOk result (λ found. IfSome found (λ recorded. bytes_left self.new < bytes_left self.old)) }
        // the end
        ensures none { IfOk result (λ found. IfNone found (IfTold (D.files disk.old) (λ fs. changes_left schema.now.tables self.old fs ≡ nothing_left))) }
        ensures still { IfOk result (λ found. IfNone found (IfTold (D.files disk.old) (λ fs. changes_left schema.now.tables self.new fs ≡ nothing_left))) }
        // a line that has no reading
        ensures line { IfErr result (λ error. (line : _) (why : _) → error ≡ FeedError.Line line why → IfTold (D.files disk.old) (λ fs.
            changes_left schema.now.tables self.old fs ≡ refused_at line why)) }
        // after an error
        ensures before { OnErr result (IfTold (D.files disk.old) (λ fs. changes_left schema.now.tables self.new fs ≡ changes_left schema.now.tables self.old fs)) }
        // whatever it answers
        ensures stands { FeedStands self.new (D.files disk.new) }
        ensures same { D.files disk.new ≡ D.files disk.old }
        ensures lender { D.lender disk.new ≡ D.lender disk.old }
        // when other errors come
        ensures no_missing { IfErr result (λ error. error ≢ FeedError.Missing) }
        ensures no_large { IfErr result (λ error. error ≢ FeedError.TooLarge) }
        ensures cause { HasCause FeedError.Fault (D.faults disk.old) (D.faults disk.new) result }
    {
        let mut lines = self.take_lines()?;
        match lines.next(disk)? {
            Found::End => Ok(None),
            Found::TooLong => Err(self.refusal(LineWhy::TooLong)),
            Found::Line => match read_change(self.alloc, schema, lines.line()) {
                Ok(recorded) => {
                    self.pass(lines);
                    Ok(Some(recorded))
                }
                Err(LineError::Bad(why)) => Err(self.refusal(why)),
                Err(LineError::NoMemory) => Err(FeedError::NoMemory),
            },
        }
    }

    /// The next change at a place above the last kept one; `None` where the file has no further one. A change that is given again is
    /// passed over. `Line` where a line in front of the next kept change has no reading. After an error the feed stands before the line
    /// at which it came.
    pub fn next_kept<D: Disk>(
        &mut self,
        keep: &mut Keep,
        disk: &mut D,
        schema: &Schema,
    ) -> Result<Option<Recorded>, FeedError>
        requires stands { FeedStands self.old (D.files disk.old) }
        // a kept change
        ensures some { IfOk result (λ found. IfSome found (λ recorded. IfTold (D.files disk.old) (λ fs.
            kept_reading (last_kept keep.old) (changes_left schema.now.tables self.old fs)
            ≡ behind_change (lines_given self.new) recorded (kept_reading (last_kept keep.new) (changes_left schema.now.tables self.new fs))))) }
        ensures lawful { IfOk result (λ found. IfSome found (λ recorded. IsLawfulChange schema.now.tables recorded.change)) }
        ensures above { IfOk result (λ found. IfSome found (λ recorded. IsTrue (is_above (last_kept keep.old) recorded.spot))) }
        ensures last { IfOk result (λ found. IfSome found (λ recorded. last_kept keep.new ≡ Some recorded.spot)) }
        ensures shrinks { IfOk result (λ found. IfSome found (λ recorded. bytes_left self.new < bytes_left self.old)) }
        // the end
        ensures none { IfOk result (λ found. IfNone found (IfTold (D.files disk.old) (λ fs.
            kept_reading (last_kept keep.old) (changes_left schema.now.tables self.old fs) ≡ nothing_left))) }
        ensures still { IfOk result (λ found. IfNone found (IfTold (D.files disk.old) (λ fs.
            kept_reading (last_kept keep.new) (changes_left schema.now.tables self.new fs) ≡ nothing_left))) }
        // a line that has no reading
        ensures line { IfErr result (λ error. (line : _) (why : _) → error ≡ FeedError.Line line why → IfTold (D.files disk.old) (λ fs.
            kept_reading (last_kept keep.old) (changes_left schema.now.tables self.old fs) ≡ refused_at line why)) }
        // after an error
        ensures before { OnErr result (IfTold (D.files disk.old) (λ fs.
            kept_reading (last_kept keep.new) (changes_left schema.now.tables self.new fs) ≡ kept_reading (last_kept keep.old) (changes_left schema.now.tables self.old fs))) }
        ensures unmoved { OnErr result (last_kept keep.new ≡ last_kept keep.old) }
        // whatever it answers
        ensures stands { FeedStands self.new (D.files disk.new) }
        ensures same { D.files disk.new ≡ D.files disk.old }
        ensures lender { D.lender disk.new ≡ D.lender disk.old }
        // when other errors come
        ensures no_missing { IfErr result (λ error. error ≢ FeedError.Missing) }
        ensures no_large { IfErr result (λ error. error ≢ FeedError.TooLarge) }
        ensures cause { HasCause FeedError.Fault (D.faults disk.old) (D.faults disk.new) result }
    {
        'lines: loop {
            let Some(recorded) = self.next(disk, schema)? else {
                return Ok(None);
            };
            if keep.keep(recorded.spot) {
                return Ok(Some(recorded));
            }
        }
    }

    /// Takes out the reader of what is left; one that begins at the next line where there is none.
    fn take_lines(&mut self) -> Result<LineReader, AllocError>
        ensures unread { IfOk result (λ reader. (fs : Files) → StandsOn self.old fs → unread reader fs ≡ bytes_behind self.old (bytes_now (fs self.old.name))) }
        ensures limit { IfOk result (λ reader. line_limit reader ≡ MAX_RECORDED_LINE_BYTES) }
        ensures left { IfOk result (λ reader. reader_left reader ≡ bytes_left self.old) }
        ensures place { IfOk result (λ reader. StandsAt reader self.old.at) }
        ensures none { self.new.lines ≡ None }
        ensures name { self.new.name ≡ self.old.name }
        ensures at { self.new.at ≡ self.old.at }
        ensures end { self.new.end ≡ self.old.end }
        ensures given { self.new.given ≡ self.old.given }
    {
        match replace(&mut self.lines, None) {
            Some(lines) => Ok(lines),
            None => self.reader(),
        }
    }

    /// A reader that begins at the next line.
    fn reader(&self) -> Result<LineReader, AllocError>
        ensures unread { IfOk result (λ reader. (fs : Files) → unread reader fs ≡ bytes_behind self.now (bytes_now (fs self.now.name))) }
        ensures limit { IfOk result (λ reader. line_limit reader ≡ MAX_RECORDED_LINE_BYTES) }
        ensures left { IfOk result (λ reader. reader_left reader ≡ self.now.end - self.now.at) }
        ensures place { IfOk result (λ reader. StandsAt reader self.now.at) }
    {
        let name = self.name.copy()?;
        Ok(LineReader::between(self.alloc, name, self.at, self.end, MAX_RECORDED_LINE_BYTES))
    }

    /// Goes behind the line that was found, and keeps its reader.
    fn pass(&mut self, lines: LineReader)
        requires limit { line_limit lines ≡ MAX_RECORDED_LINE_BYTES }
        requires place { StandsAt lines (self.old.at + bytes_taken (has_line_feed lines) (found_line lines)) }
        ensures lines { self.new.lines ≡ Some lines }
        ensures name { self.new.name ≡ self.old.name }
        ensures at { self.new.at ≡ self.old.at + bytes_taken (has_line_feed lines) (found_line lines) }
        ensures end { self.new.end ≡ self.old.end }
        ensures given { self.new.given ≡ min (self.old.given + 1) (2 ^ 64 - 1) }
    {
        self.at = lines.offset();
        self.given = self.given.saturating_add(1);
        self.lines = Some(lines);
    }

    /// That the next line is refused.
    fn refusal(&self, why: LineWhy) -> FeedError
        ensures { result ≡ FeedError.Line (min (self.now.given + 1) (2 ^ 64 - 1)) why }
    {
        FeedError::Line {
            line: self.given.saturating_add(1),
            why,
        }
    }
}
