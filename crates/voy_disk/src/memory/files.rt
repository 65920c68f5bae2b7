ghost use Rattle.std.specs.Prelude.{◌≡◌, ◌↔◌, ◌<◌, ◌≤◌, ◌^◌, OnOk, OnErr, IfSome, None, length};
ghost use Rattle.std.specs.Option.{option_map};
ghost use Rattle.voy_disk.specs.Files.{Puts, length_of, bytes_now, Reads, NothingToRead};
ghost use Rattle.voy_disk.specs.MemFiles.{files_of, shown};

use crate::memory::file::MemFile;
use crate::name::Name;
use std::alloc::{AllocError, Global};
use std::collections::BTreeMap;

// The files of a disk in memory, by their names.
pub(crate) type MemFiles = BTreeMap<String, MemFile>;

// The file has exactly these bytes, all safe. After an error nothing changed.
pub(crate) fn put_in(
    alloc: Global,
    files: &mut MemFiles,
    name: &Name,
    bytes: &[u8],
) -> Result<(), AllocError>
    ensures ok { OnOk result (Puts name.now bytes.now (files_of files.old) (files_of files.new)) }
    ensures err { OnErr result (files_of files.new ≡ files_of files.old) }
{
    let file = MemFile::settled(alloc, bytes)?;
    let key = String::from_str(alloc, name.as_str())?;
    files.insert(key, file)?;
    Ok(())
}

// The bytes that the file reads now.
pub(crate) fn bytes_in<'a>(files: &'a MemFiles, name: &Name) -> Option<&'a [u8]>
    ensures { shown result ≡ option_map (λ file. file.now) (files_of files.now name.now) }
{
    let file = files.get(name.as_str())?;
    Some(file.bytes.as_slice())
}

// The length of the file.
pub(crate) fn length_in(files: &MemFiles, name: &Name) -> Option<u64>
    ensures length { result ≡ length_of (files_of files.now name.now) }
    ensures short { IfSome result (λ bytes. bytes < 2 ^ 63) }
{
    let file = files.get(name.as_str())?;
    Some(file.bytes.len() as u64)
}

// Fills the front of `into` with the bytes of the file from the place `at`, as many as there are
// and as there is room for, and answers how many.
pub(crate) fn read_in(files: &MemFiles, name: &Name, at: u64, into: &mut [u8]) -> usize
    ensures within { result ≤ length into.old }
    ensures bytes { Reads (bytes_now (files_of files.now name.now)) at result into.old into.new }
    ensures some { (result ≡ 0) ↔ NothingToRead (bytes_now (files_of files.now name.now)) at into.old }
{
    match bytes_in(files, name) {
        None => 0,
        Some(bytes) => copy_from(bytes, at, into),
    }
}

// The same of the bytes of one file.
fn copy_from(bytes: &[u8], at: u64, into: &mut [u8]) -> usize
    ensures within { result ≤ length into.old }
    ensures bytes { Reads bytes.now at result into.old into.new }
    ensures some { (result ≡ 0) ↔ NothingToRead bytes.now at into.old }
{
    if at >= bytes.len() as u64 {
        return 0;
    }
    let start = at as usize;
    let count = into.len().min(bytes.len() - start);
    into[..count].copy_from_slice(&bytes[start..start + count]);
    count
}
