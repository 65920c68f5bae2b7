ghost use Rattle.std.specs.Prelude.{◌≡◌, IfOk, MatchOption, None, Some, is_some};
ghost use Rattle.voy_disk.specs.Faults.{HasCause};
ghost use Rattle.voy_disk.specs.Files.{IfTold, bytes_now};

use crate::limits::PIECE_BYTES;
use crate::piece::ByteReader;
use std::alloc::Global;
use voy_disk::{Disk, DiskError, Name};

/// The bytes of a file, whole; `None` exactly where there is no such file. For files that are small.
pub fn read_file<D: Disk>(
    alloc: Global,
    disk: &mut D,
    name: &Name,
) -> Result<Option<Vec<u8>>, DiskError>
    ensures whole { IfOk result (λ o. IfTold (D.files disk.old) (λ fs.
        MatchOption o (fs name.now ≡ None) (λ bytes. bytes.items ≡ bytes_now (fs name.now)))) }
    ensures found { IfOk result (λ o. IfTold (D.files disk.old) (λ fs. is_some o ≡ is_some (fs name.now))) }
    ensures same { D.files disk.new ≡ D.files disk.old }
    ensures cause { HasCause DiskError.Failed (D.faults disk.old) (D.faults disk.new) result }
    ensures lender { D.lender disk.new ≡ D.lender disk.old }
{
    let Some(mut reader) = ByteReader::open(alloc, disk, name)? else {
        return Ok(None);
    };
    let mut bytes = Vec::new(alloc);
    'pieces: loop {
        if !reader.fill(disk, name)? {
            return Ok(Some(bytes));
        }
        reader.take_held(PIECE_BYTES, &mut bytes)?;
    }
}
