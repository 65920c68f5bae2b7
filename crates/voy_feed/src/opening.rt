ghost use Rattle.std.specs.Prelude.{◌≡◌, ◌≢◌, ◌≤◌, ◌<◌, List, None, Some, IfErr, IfOk, IfSome, IsTrue, false, is_some, true};
ghost use Rattle.voy_disk.specs.Faults.{HasCause};
ghost use Rattle.voy_disk.specs.Files.{IfTold, bytes_now};
ghost use Rattle.voy_disk.specs.Images.{now_image};
ghost use Rattle.voy_feed.specs.Feed.{FeedStands, changes_left, is_too_large, lines_given};
ghost use Rattle.voy_feed.specs.Kept.{changes_of};
ghost use Rattle.voy_feed.specs.declared.limits.TheConstants.{MAX_CHANGE_FILE_BYTES};
ghost use Rattle.voy_schema.specs.declared.table.Table.{Table};

use crate::error::FeedError;
use crate::feed::Feed;
use crate::limits::MAX_CHANGE_FILE_BYTES;
use std::alloc::Global;
use voy_disk::{Disk, Name};

impl Feed {
    /// Opens the recorded changes of a file. `Missing` exactly where the file is absent, `TooLarge` exactly where it is longer than
    /// [`MAX_CHANGE_FILE_BYTES`](crate::MAX_CHANGE_FILE_BYTES). No byte is read.
    pub fn open<D: Disk>(alloc: Global, disk: &mut D, name: Name) -> Result<Feed, FeedError>
        // after Ok
        ensures left { IfOk result (λ feed. IfTold (D.files disk.old) (λ fs. (schema : List Table) → changes_left schema feed fs ≡ changes_of schema (now_image fs name))) }
        ensures given { IfOk result (λ feed. lines_given feed ≡ 0) }
        ensures found { IfOk result (λ feed. IfTold (D.files disk.old) (λ fs. IsTrue (is_some (fs name)))) }
        ensures small { IfOk result (λ feed. IfTold (D.files disk.old) (λ fs. is_too_large (bytes_now (fs name)) ≡ false)) }
        ensures stands { IfOk result (λ feed. FeedStands feed (D.files disk.new)) }
        // whatever it answers
        ensures same { D.files disk.new ≡ D.files disk.old }
        ensures lender { D.lender disk.new ≡ D.lender disk.old }
        // when each error comes
        ensures missing { IfErr result (λ error. error ≡ FeedError.Missing → IfTold (D.files disk.old) (λ fs. fs name ≡ None)) }
        ensures large { IfErr result (λ error. error ≡ FeedError.TooLarge → IfTold (D.files disk.old) (λ fs. is_too_large (bytes_now (fs name)) ≡ true)) }
        ensures no_line { IfErr result (λ error. (line : _) (why : _) → error ≢ FeedError.Line line why) }
        ensures cause { HasCause FeedError.Fault (D.faults disk.old) (D.faults disk.new) result }
    {
        match end_of(disk.len(&name)?) {
            Ok(end) => Ok(Feed {
                alloc,
                name,
                at: 0,
                end,
                given: 0,
                lines: None,
            }),
            Err(error) => Err(error),
        }
    }

    /// The number of the line that was given last, from 1; 0 where none was.
    pub fn line(&self) -> u64
        ensures { result ≡ lines_given self.now }
    {
        self.given
    }
}

/// Where a file of this length ends, if it is there and not too large.
fn end_of(length: Option<u64>) -> Result<u64, FeedError>
    ensures some { IfOk result (λ end. length ≡ Some end) }
    ensures within { IfOk result (λ end. end ≤ MAX_CHANGE_FILE_BYTES) }
    ensures missing { IfErr result (λ error. error ≡ FeedError.Missing → length ≡ None) }
    ensures there { IfErr result (λ error. error ≡ FeedError.TooLarge → IsTrue (is_some length)) }
    ensures large { IfErr result (λ error. error ≡ FeedError.TooLarge → IfSome length (λ end. MAX_CHANGE_FILE_BYTES < end)) }
    ensures no_line { IfErr result (λ error. (line : _) (why : _) → error ≢ FeedError.Line line why) }
    ensures no_fault { IfErr result (λ error. error ≢ FeedError.Fault) }
{
    match length {
        None => Err(FeedError::Missing),
        Some(end) => {
            if end > MAX_CHANGE_FILE_BYTES {
                Err(FeedError::TooLarge)
            } else {
                Ok(end)
            }
        }
    }
}
