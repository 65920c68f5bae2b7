//! Calls of a disk as lines of text, each with its answer behind ` = `.
//!
//! `list`, `len NAME`, `read NAME PLACE` (into four bytes), `peek NAME PLACE` (into none), `create NAME`,
//! `write NAME PLACE TEXT`, `cut NAME LENGTH`, `sync NAME`, `rename NAME NAME`, and `faults`. What a writing
//! call asks for is tried first where the disk tells its files; a test fails where it does not stand.

ghost use Rattle.std.specs.Prelude.{◌≡◌, ◌≤◌, None, length, IsTrue, MatchOption};
ghost use Rattle.std.specs.Option.{option_map};
ghost use Rattle.voy_disk.specs.Calls.{IsThereWith};
ghost use Rattle.voy_disk.specs.Files.{IfTold};
ghost use Rattle.voy_disk.specs.MemFiles.{shown};

use std::alloc::{AllocError, Global};
use std::rt::Files;
use std::test::Fail;
use voy_disk::{Disk, DiskError, HostDisk, MemDisk, Name, SureDisk};
use voy_test_disks::name_of;

/// A disk of which what its calls ask for can be tried first.
pub(crate) trait Tried: Disk {
    /// What the file reads now, if it is there; `None` where the disk does not tell.
    fn told(&self, name: &Name) -> Option<Option<&[u8]>>
        ensures { MatchOption result (Self.files self.now ≡ None) (λ found.
            IfTold (Self.files self.now) (λ fs. shown found ≡ option_map (λ file. file.now) (fs name.now))) };

    /// How many faults there were, where the disk tells its callers.
    fn fault_count(&self) -> Option<u64>;
}

impl Tried for MemDisk {
    fn told(&self, name: &Name) -> Option<Option<&[u8]>> {
        Some(self.file(name))
    }

    fn fault_count(&self) -> Option<u64> {
        None
    }
}

impl Tried for SureDisk {
    fn told(&self, name: &Name) -> Option<Option<&[u8]>> {
        Some(self.file(name))
    }

    fn fault_count(&self) -> Option<u64> {
        None
    }
}

impl<R: Files + Drop> Tried for HostDisk<R> {
    fn told(&self, _name: &Name) -> Option<Option<&[u8]>> {
        None
    }

    fn fault_count(&self) -> Option<u64> {
        Some(self.faults())
    }
}

/// Whether the file is there and has so many bytes, as far as the disk tells.
fn reaches<D: Tried>(disk: &D, name: &Name, count: u64) -> bool
    ensures { IsTrue result → IfTold (D.files disk.now) (λ fs. IsThereWith (λ file. count ≤ length file.now) (fs name.now)) }
{
    match disk.told(name) {
        None => true,
        Some(None) => false,
        Some(Some(now)) => count <= now.len() as u64,
    }
}

/// Whether the file is there, as far as the disk tells.
fn has<D: Tried>(disk: &D, name: &Name) -> bool
    ensures { IsTrue result → IfTold (D.files disk.now) (λ fs. IsThereWith (λ _. Unit {0}) (fs name.now)) }
{
    match disk.told(name) {
        None => true,
        Some(found) => found.is_some(),
    }
}

/// Whether the name is free, as far as the disk tells.
fn is_free<D: Tried>(disk: &D, name: &Name) -> bool
    ensures { IsTrue result → IfTold (D.files disk.now) (λ fs. fs name.now ≡ None) }
{
    match disk.told(name) {
        None => true,
        Some(found) => found.is_none(),
    }
}

/// The lines with the answers that the disk gives to their calls.
pub(crate) fn answered<D: Tried>(alloc: Global, disk: &mut D, lines: &str) -> Result<String, Fail> {
    let mut all = String::new(alloc);
    for line in lines.lines() {
        let call = call_of(line);
        let answer = answer(alloc, disk, call)?;
        push_line(alloc, &mut all, call, answer.as_str())?;
    }
    Ok(all)
}

/// Appends a line for the call.
pub(crate) fn push_line(
    alloc: Global,
    to: &mut String,
    call: &str,
    answer: &str,
) -> Result<(), AllocError> {
    let line = format!(in alloc; "{call} = {answer}\n")?;
    to.push_str(line.as_str())
}

/// What stands in front of the answer.
pub(crate) fn call_of(line: &str) -> &str {
    match line.split_once(" = ") {
        Some((call, _answer)) => call,
        None => line,
    }
}

/// What the disk answers to the call.
pub(crate) fn answer<D: Tried>(alloc: Global, disk: &mut D, call: &str) -> Result<String, Fail> {
    let mut words = call.split(' ');
    let kind = words.next().unwrap_or("");
    let first = words.next().unwrap_or("");
    let second = words.next().unwrap_or("");
    match kind {
        "list" => list(alloc, disk),
        "len" => len(alloc, disk, first),
        "read" => read(alloc, disk, first, second),
        "peek" => peek(alloc, disk, first, second),
        "faults" => faults(alloc, disk),
        _ => {
            let third = words.next().unwrap_or("");
            let done = change(alloc, disk, kind, [first, second, third])?;
            Ok(String::from_str(alloc, text_of(done))?)
        }
    }
}

/// Makes a writing call.
fn change<D: Tried>(
    alloc: Global,
    disk: &mut D,
    kind: &str,
    words: [&str; 3],
) -> Result<Result<(), DiskError>, Fail> {
    let [first, second, third] = words;
    let name = name_of(alloc, first)?;
    match kind {
        "create" => Ok(disk.create(&name)),
        "write" => write(disk, &name, second.parse()?, third.as_bytes()),
        "cut" => cut(disk, &name, second.parse()?),
        "sync" => sync(disk, &name),
        "rename" => rename(disk, &name, &name_of(alloc, second)?),
        _ => Err("no such call".into()),
    }
}

fn text_of(answer: Result<(), DiskError>) -> &'static str {
    match answer {
        Ok(()) => "ok",
        Err(DiskError::Failed) => "failed",
        Err(DiskError::NoMemory) => "no memory",
    }
}

fn faults<D: Tried>(alloc: Global, disk: &mut D) -> Result<String, Fail> {
    let count = disk.fault_count().ok_or("no count of faults")?;
    Ok(format!(in alloc; "{count}")?)
}

/// The names in brackets, with `;` behind each.
fn list<D: Disk>(alloc: Global, disk: &mut D) -> Result<String, Fail> {
    match disk.list() {
        Ok(names) => bracketed(alloc, names.as_slice()),
        Err(error) => Ok(String::from_str(alloc, text_of(Err(error)))?),
    }
}

fn bracketed(alloc: Global, names: &[Name]) -> Result<String, Fail> {
    let mut text = String::from_str(alloc, "[")?;
    for name in names {
        text.push_str(name.as_str())?;
        text.push_str(";")?;
    }
    text.push_str("]")?;
    Ok(text)
}

fn len<D: Disk>(alloc: Global, disk: &mut D, name: &str) -> Result<String, Fail> {
    let name = name_of(alloc, name)?;
    let text = match disk.len(&name) {
        Ok(Some(bytes)) => format!(in alloc; "{bytes}")?,
        Ok(None) => String::from_str(alloc, "none")?,
        Err(error) => String::from_str(alloc, text_of(Err(error)))?,
    };
    Ok(text)
}

/// What is read into four bytes, in quotes.
fn read<D: Disk>(alloc: Global, disk: &mut D, name: &str, at: &str) -> Result<String, Fail> {
    let name = name_of(alloc, name)?;
    let mut into = [b'-'; 4];
    match disk.read_at(&name, at.parse()?, &mut into) {
        Ok(count) => quoted(alloc, into.get(..count).ok_or("too many bytes")?),
        Err(error) => Ok(String::from_str(alloc, text_of(Err(error)))?),
    }
}

pub(crate) fn quoted(alloc: Global, bytes: &[u8]) -> Result<String, Fail> {
    let text = std::str::from_utf8(bytes)?;
    Ok(format!(in alloc; "'{text}'")?)
}

/// How many bytes are read where there is no room.
fn peek<D: Disk>(alloc: Global, disk: &mut D, name: &str, at: &str) -> Result<String, Fail> {
    let name = name_of(alloc, name)?;
    match disk.read_at(&name, at.parse()?, &mut []) {
        Ok(count) => Ok(format!(in alloc; "{count}")?),
        Err(error) => Ok(String::from_str(alloc, text_of(Err(error)))?),
    }
}

fn write<D: Tried>(
    disk: &mut D,
    name: &Name,
    at: u32,
    bytes: &[u8],
) -> Result<Result<(), DiskError>, Fail> {
    if !reaches(disk, name, u64::from(at)) {
        return Err("a write behind the end".into());
    }
    Ok(disk.write_at(name, u64::from(at), bytes))
}

fn cut<D: Tried>(disk: &mut D, name: &Name, to: u32) -> Result<Result<(), DiskError>, Fail> {
    if !reaches(disk, name, u64::from(to)) {
        return Err("a cut behind the end".into());
    }
    Ok(disk.cut(name, u64::from(to)))
}

fn sync<D: Tried>(disk: &mut D, name: &Name) -> Result<Result<(), DiskError>, Fail> {
    if !has(disk, name) {
        return Err("a sync of no file".into());
    }
    Ok(disk.sync(name))
}

fn rename<D: Tried>(disk: &mut D, from: &Name, to: &Name) -> Result<Result<(), DiskError>, Fail> {
    if !has(disk, from) || !is_free(disk, to) {
        return Err("a renaming of no file, or to a name that is taken".into());
    }
    Ok(disk.rename(from, to))
}
