ghost use Rattle.std.specs.Prelude.{IfOk};
ghost use Rattle.voy_disk.specs.Calls.{Lists};
ghost use Rattle.voy_disk.specs.MemFiles.{files_of};

use crate::memory::files::MemFiles;
use crate::name::Name;
use crate::names::Names;
use std::alloc::{AllocError, Global};

// The names of all files, in byte order.
pub(crate) fn names_in(alloc: Global, files: &MemFiles) -> Result<Names, AllocError>
    ensures { IfOk result (Lists (files_of files.now)) }
{
    let mut names = Names::new(alloc);
    for key in files.keys() {
        if let Some(name) = Name::new(alloc, key.as_str())? {
            names.push(name)?;
        }
    }
    Ok(names)
}
