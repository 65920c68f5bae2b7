ghost use Rattle.std.specs.Prelude.{◌≡◌, ◌≢◌, IfErr, IfOk};
ghost use Rattle.voy_disk.specs.Faults.{HasCause};
ghost use Rattle.voy_files.specs.Bytes.{OfBytes};
ghost use Rattle.voy_queue.specs.Opening.{behind_last_line};

use crate::error::QueueError;
use std::alloc::Global;
use voy_disk::{Disk, Name};
use voy_files::ByteReader;

/// The byte that ends a line.
const LINE_FEED: u8 = 10;

/// The offset behind the last LF of a file; 0 where it has none, or is absent.
pub(crate) fn behind_last_line<D: Disk>(
    alloc: Global,
    disk: &mut D,
    name: &Name,
) -> Result<u64, QueueError>
    ensures offset { IfOk result (λ offset. OfBytes (D.files disk.old) name.now (λ bytes. offset ≡ behind_last_line bytes)) }
    ensures same { D.files disk.new ≡ D.files disk.old }
    ensures lender { D.lender disk.new ≡ D.lender disk.old }
    ensures cause { HasCause QueueError.Fault (D.faults disk.old) (D.faults disk.new) result }
    ensures never_damaged { IfErr result (λ error. (segment : _) (offset : _) → error ≢ QueueError.Damaged segment offset) }
{
    let Some(mut reader) = ByteReader::open(alloc, disk, name)? else {
        return Ok(0);
    };
    let mut at: u64 = 0;
    let mut last: u64 = 0;
    'bytes: loop {
        let Some(byte) = reader.take_byte(disk, name)? else {
            return Ok(last);
        };
        at += 1;
        if byte == LINE_FEED {
            last = at;
        }
    }
}
