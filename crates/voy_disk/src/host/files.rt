// What a real folder is asked for, by the paths of its files.
ghost use Rattle.std.specs.Prelude.{◌≡◌, ◌++◌, ◌∷◌, IfOk, string_bytes};

use crate::host::opened::plain_length;
use crate::name::Name;
use crate::names::Names;
use std::alloc::{AllocError, Global};
use std::fs::{Metadata, OpenFile, OpenOptions};
use std::io::ErrorKind;
use std::rt::Files;
use std::{fs, io};

// The path of what has this name in a folder.
pub(crate) fn path_in(alloc: Global, folder: &str, name: &str) -> Result<String, AllocError>
    ensures { IfOk result (λ path. string_bytes path ≡ folder.now ++ (47 ∷ name.now)) }
{
    let mut path = String::from_str(alloc, folder)?;
    path.push_str("/")?;
    path.push_str(name)?;
    Ok(path)
}

// Makes the folder where it is absent.
pub(crate) fn find_or_make_folder<R: Files>(host: &R, folder: &str) -> io::Result<()> {
    match find(host, folder)? {
        Some(about) if about.is_dir() => Ok(()),
        Some(_) => Err(io::Error::from(ErrorKind::NotADirectory)),
        None => host.create_dir(folder),
    }
}

// Makes the names in a folder safe.
pub(crate) fn sync_folder<R: Files>(host: &R, folder: &str) -> io::Result<()> {
    fs::open(host, folder)?.sync_all()
}

// The names of all plain files, each once, in byte order. An error of the kind `OutOfMemory` says that
// memory was refused.
pub(crate) fn list_files<R: Files>(host: &R, alloc: Global, folder: &str) -> io::Result<Names> {
    let mut texts = texts_in(host, alloc, folder)?;
    texts.sort()?;
    texts.dedup();
    let mut names = Names::new(alloc);
    for text in texts {
        if let Some(name) = name_of_file(host, alloc, folder, text.as_str())? {
            names.push(name)?;
        }
    }
    Ok(names)
}

// All that the folder has, by names that are texts, in no order.
fn texts_in<R: Files>(host: &R, alloc: Global, folder: &str) -> io::Result<Vec<String>> {
    let mut texts = Vec::new(alloc);
    for entry in fs::read_dir(&(host, alloc), folder)? {
        match entry {
            Ok(entry) => texts.push(String::from_str(alloc, entry.file_name())?)?,
            Err(error) if tells_of_no_text(&error) => {}
            Err(error) => return Err(error),
        }
    }
    Ok(texts)
}

// An entry whose name is no text has this error, which is none of the system's.
fn tells_of_no_text(error: &io::Error) -> bool {
    error.kind() == ErrorKind::InvalidFilename && error.raw_os_error().is_none()
}

// The text as a name, or `None` where it is none or goes with no plain file.
fn name_of_file<R: Files>(
    host: &R,
    alloc: Global,
    folder: &str,
    text: &str,
) -> io::Result<Option<Name>> {
    let Some(name) = Name::new(alloc, text)? else {
        return Ok(None);
    };
    let path = path_in(alloc, folder, name.as_str())?;
    if !is_plain_file(host, path.as_str())? {
        return Ok(None);
    }
    Ok(Some(name))
}

// Makes an empty file where there is none, and its name safe in either case.
pub(crate) fn create_file<R: Files>(host: &R, folder: &str, path: &str) -> io::Result<()> {
    if !is_plain_file(host, path)? {
        OpenOptions::new()
            .write(true)
            .create_new(true)
            .open(host, path)?;
    }
    sync_folder(host, folder)
}

// Gives a file a path that nothing has, and makes both names safe.
pub(crate) fn rename_file<R: Files>(
    host: &R,
    folder: &str,
    from: &str,
    to: &str,
) -> io::Result<()> {
    if !is_plain_file(host, from)? {
        return Err(io::Error::from(ErrorKind::NotFound));
    }
    match host.symlink_metadata(to) {
        Ok(_) => return Err(io::Error::from(ErrorKind::AlreadyExists)),
        Err(error) if error.kind() == ErrorKind::NotFound => {}
        Err(error) => return Err(error),
    }
    host.rename(from, to)?;
    sync_folder(host, folder)
}

// Opens a plain file for reads, or answers `None` where nothing has this path.
pub(crate) fn open_to_read<R: Files>(host: &R, path: &str) -> io::Result<Option<R::File>> {
    let Some(about) = find(host, path)? else {
        return Ok(None);
    };
    plain_length(&about)?;
    Ok(Some(fs::open(host, path)?))
}

// Opens a plain file that is there, for reads and writes.
pub(crate) fn open_to_write<R: Files>(host: &R, path: &str) -> io::Result<R::File> {
    plain_length(&host.metadata(path)?)?;
    OpenOptions::new().read(true).write(true).open(host, path)
}

fn is_plain_file<R: Files>(host: &R, path: &str) -> io::Result<bool> {
    match find(host, path)? {
        Some(about) => Ok(about.is_file()),
        None => Ok(false),
    }
}

// What the system tells of a path, or `None` where nothing has it.
fn find<R: Files>(host: &R, path: &str) -> io::Result<Option<Metadata>> {
    match host.metadata(path) {
        Ok(about) => Ok(Some(about)),
        Err(error) if error.kind() == ErrorKind::NotFound => Ok(None),
        Err(error) => Err(error),
    }
}
