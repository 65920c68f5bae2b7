// A plain file of a real folder that is open, and what it is asked for.
ghost use Rattle.std.specs.Prelude.{◌≡◌, ◌≤◌, ◌<◌, ◌+◌, ◌^◌, length, IfOk, OnOk};

use crate::name::Name;
use std::fmt::{Debug, Formatter};
use std::fs::{Metadata, OpenFile};
use std::io::{ErrorKind, Read, Seek, SeekFrom, Write};
use std::{fmt, io};

// The greatest length of a file on a disk: that of a vector of bytes. A longer one is a fault.
const MAX_FILE_BYTES: u64 = 0x7fff_ffff_ffff_ffff;

// A plain file that is open, with the name that it goes by.
#[derive(Drop)]
pub(crate) struct Opened<F> {
    pub(crate) name: Name,
    pub(crate) file: F,
    // Whether it was opened for writes too.
    pub(crate) writes: bool,
}

impl<F> Opened<F> {
    // Whether it is the file of this name, opened for what is wanted of it.
    pub(crate) fn serves(&self, name: &Name, to_write: bool) -> bool {
        self.name.as_str() == name.as_str() && (self.writes || !to_write)
    }
}

impl<F: Read + Write + Seek + OpenFile> Opened<F> {
    // Its length in bytes.
    pub(crate) fn length(&self) -> io::Result<u64>
        ensures { IfOk result (λ bytes. bytes < 2 ^ 63) }
    {
        plain_length(&self.file.metadata()?)
    }

    // Reads from a place, or nothing where the file ends before it.
    pub(crate) fn read_at(&mut self, at: u64, into: &mut [u8]) -> io::Result<usize>
        ensures { IfOk result (λ count. count ≤ length into.old) }
    {
        if at >= self.length()? || into.is_empty() {
            return Ok(0);
        }
        self.file.seek(SeekFrom::Start(at))?;
        self.file.read(into)
    }

    // Writes all bytes at a place that is not behind the end, where the file stays short enough.
    pub(crate) fn write_at(&mut self, at: u64, bytes: &[u8]) -> io::Result<()>
        ensures fits { OnOk result (at + length bytes.now < 2 ^ 63) }
    {
        if at > self.length()? || bytes.len() as u64 > MAX_FILE_BYTES - at {
            return Err(io::Error::from(ErrorKind::InvalidInput));
        }
        self.file.seek(SeekFrom::Start(at))?;
        self.file.write_all(bytes)
    }

    // Cuts the file, where it is not shorter.
    pub(crate) fn cut(&mut self, to: u64) -> io::Result<()> {
        if to > self.length()? {
            return Err(io::Error::from(ErrorKind::InvalidInput));
        }
        self.file.set_len(to)
    }

    // Makes its bytes safe.
    pub(crate) fn sync(&mut self) -> io::Result<()> {
        self.file.sync_all()
    }
}

impl<F> Debug for Opened<F> {
    fn fmt<W: fmt::Write>(&self, f: &mut Formatter<W>) -> fmt::Result {
        write!(f, "{:?}", &self.name)
    }
}

// The length of a plain file.
pub(crate) fn plain_length(about: &Metadata) -> io::Result<u64>
    ensures { IfOk result (λ bytes. bytes < 2 ^ 63) }
{
    let bytes = about.len();
    if !about.is_file() || bytes > MAX_FILE_BYTES {
        return Err(io::Error::from(ErrorKind::InvalidInput));
    }
    Ok(bytes)
}
