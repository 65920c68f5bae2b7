ghost use Rattle.std.specs.Prelude.{◌≡◌, [], ◌∷◌, IfOk, MatchOption};
ghost use Rattle.csv.specs.Reading.{default_config, records};
ghost use Rattle.csv.specs.Records.{fields_of};

use csv::{ByteRecord, ByteRecordsIntoIter, ReaderBuilder};
use std::alloc::{AllocError, Global};
use std::io::{Chain, Read};
use std::marker::Model;

/// A byte order mark. `csv` drops one at the start of what it reads, so it is given one more.
pub(crate) const MARK: &[u8] = b"\xEF\xBB\xBF";

/// The records of a text, one after the other, as `csv` finds them by default. Contracts see those that
/// are left. After an error there are none.
#[derive(Drop)]
pub(crate) struct Records<'a> {
    source: ByteRecordsIntoIter<Chain<&'a [u8], &'a [u8]>>,
    is_done: bool,
}

impl<'a> Model for Records<'a> {
    ghost use Rattle.std.specs.Prelude.{List, ℕ};
    ghost use Rattle.voy_tables.specs.Unread.{IsReadingUnlessDone, records_left};

    ghost Value = { List (List (List ℕ)) };

    ghost view = { λ r. records_left r.is_done r.source };

    ghost invariant = { λ r. IsReadingUnlessDone r.is_done r.source };
}

impl<'a> Records<'a> {
    /// The records of `text`. No mark is dropped from it.
    pub(crate) fn new(alloc: Global, text: &'a [u8]) -> Records<'a>
        ensures { result ≡ records default_config text.now }
    {
        let mark: &'a [u8] = MARK;
        let reader = ReaderBuilder::new()
            .has_headers(false)
            .flexible(true)
            .from_reader(alloc, mark.chain(text));
        Records {
            source: reader.into_byte_records(),
            is_done: false,
        }
    }

    /// The next record. A text in memory is read without fail, so an error is want of memory.
    pub(crate) fn next_record(&mut self) -> Result<Option<ByteRecord>, AllocError>
        ensures { IfOk result (λ found. MatchOption found (self.old ≡ []) (λ line. self.old ≡ fields_of line ∷ self.new)) }
    {
        if self.is_done {
            return Ok(None);
        }
        match self.source.next() {
            Some(Ok(line)) => Ok(Some(line)),
            Some(Err(_)) => {
                self.is_done = true;
                Err(AllocError)
            }
            None => {
                self.is_done = true;
                Ok(None)
            }
        }
    }
}
