ghost use Rattle.std.specs.Prelude.{◌≡◌, ◌≤◌, ◌<◌, ◌+◌, ◌^◌, OnErr, OnOk, IfOk, None, length};
ghost use Rattle.voy_disk.specs.Calls.{Changes, Created, IsThereWith, Renamed, Synced};
ghost use Rattle.voy_disk.specs.MemFiles.{KeptFront, Overwrote, files_of};

use crate::memory::file::MemFile;
use crate::memory::files::MemFiles;
use crate::name::Name;
use std::alloc::{AllocError, Global};

// Writes `bytes` at a place of the file, and touches `count` bytes from it. After an error nothing changed.
pub(crate) fn write_in(
    files: &mut MemFiles,
    name: &Name,
    at: u64,
    bytes: &[u8],
    count: u64,
) -> Result<(), AllocError>
    requires there { IsThereWith (λ file. at ≤ length file.now) (files_of files.old name.now) }
    requires count { length bytes.now ≤ count }
    ensures ok { OnOk result (Changes (Overwrote at bytes.now count) name.now (files_of files.old) (files_of files.new)) }
    ensures fits { OnOk result (at + length bytes.now < 2 ^ 63) }
    ensures err { OnErr result (files_of files.new ≡ files_of files.old) }
{
    let file = files.get_mut(name.as_str()).unwrap();
    file.write(at as usize, bytes, count)
}

// Keeps the first `keep` bytes of the file, and touches all from the place `to`. After an error nothing
// changed.
pub(crate) fn cut_in(
    files: &mut MemFiles,
    name: &Name,
    to: u64,
    keep: u64,
) -> Result<(), AllocError>
    requires there { IsThereWith (λ file. keep ≤ length file.now) (files_of files.old name.now) }
    requires to { to ≤ keep }
    ensures ok { OnOk result (Changes (KeptFront to keep) name.now (files_of files.old) (files_of files.new)) }
    ensures err { OnErr result (files_of files.new ≡ files_of files.old) }
{
    let file = files.get_mut(name.as_str()).unwrap();
    file.cut(to as usize, keep as usize)
}

// Makes all bytes of the file safe. After an error nothing changed.
pub(crate) fn sync_in(files: &mut MemFiles, name: &Name) -> Result<(), AllocError>
    requires there { IsThereWith (λ _. Unit {0}) (files_of files.old name.now) }
    ensures ok { OnOk result (Changes Synced name.now (files_of files.old) (files_of files.new)) }
    ensures err { OnErr result (files_of files.new ≡ files_of files.old) }
{
    let file = files.get_mut(name.as_str()).unwrap();
    file.sync()
}

// Makes an empty file where the name is free. After an error nothing changed.
pub(crate) fn create_in(alloc: Global, files: &mut MemFiles, name: &Name) -> Result<(), AllocError>
    ensures ok { OnOk result (Created name.now (files_of files.old) (files_of files.new)) }
    ensures err { OnErr result (files_of files.new ≡ files_of files.old) }
{
    if files.contains_key(name.as_str()) {
        return Ok(());
    }
    let file = MemFile::settled(alloc, &[])?;
    let key = String::from_str(alloc, name.as_str())?;
    files.insert(key, file)?;
    Ok(())
}

// Gives the file another name, which is free. It copies no bytes: an empty file takes the new name, which
// can fail, and then the file takes its place. After an error nothing changed.
pub(crate) fn rename_in(
    alloc: Global,
    files: &mut MemFiles,
    from: &Name,
    to: &Name,
) -> Result<(), AllocError>
    requires there { IsThereWith (λ _. Unit {0}) (files_of files.old from.now) }
    requires free { files_of files.old to.now ≡ None }
    ensures ok { OnOk result (Renamed from.now to.now (files_of files.old) (files_of files.new)) }
    ensures err { OnErr result (files_of files.new ≡ files_of files.old) }
{
    let empty = MemFile::settled(alloc, &[])?;
    let key = String::from_str(alloc, to.as_str())?;
    files.insert(key, empty)?;
    let file = files.remove(from.as_str()).unwrap();
    *files.get_mut(to.as_str()).unwrap() = file;
    Ok(())
}
