use std::alloc::Allocator;
use std::cell::Cell;
use std::fs::{Metadata, OpenFile, OpenOptions};
use std::io;
use std::io::{ErrorKind, Read, Seek, SeekFrom, Write};
use std::rt::Files;

/// What a host was asked for, and how it is to answer.
#[derive(Drop)]
pub struct Notes {
    pub syncs: Cell<u64>,
    pub opens: Cell<u64>,
    pub fails: Cell<bool>,
}

impl Notes {
    pub fn new() -> Notes {
        Notes {
            syncs: Cell::new(0),
            opens: Cell::new(0),
            fails: Cell::new(false),
        }
    }

    fn answer(&self) -> io::Result<()> {
        if self.fails.get() {
            return Err(io::Error::from(ErrorKind::Other));
        }
        Ok(())
    }

    fn note_sync(&self) {
        self.syncs.set(self.syncs.get().saturating_add(1));
    }

    fn note_opening(&self) {
        self.opens.set(self.opens.get().saturating_add(1));
    }
}

/// A host that counts its openings and syncs, and whose reads, writes, cuts and syncs fail while its notes say so.
#[derive(Drop)]
pub struct FlakyHost<'a, R> {
    pub host: R,
    pub notes: &'a Notes,
}

#[derive(Drop)]
pub struct FlakyFile<'a, F> {
    file: F,
    notes: &'a Notes,
}

impl<F: Read> Read for FlakyFile<'_, F> {
    fn read(&mut self, buf: &mut [u8]) -> io::Result<usize> {
        self.notes.answer()?;
        self.file.read(buf)
    }
}

impl<F: Write> Write for FlakyFile<'_, F> {
    fn write(&mut self, buf: &[u8]) -> io::Result<usize> {
        self.notes.answer()?;
        self.file.write(buf)
    }

    fn flush(&mut self) -> io::Result<()> {
        self.file.flush()
    }
}

impl<F: Seek> Seek for FlakyFile<'_, F> {
    fn seek(&mut self, to: SeekFrom) -> io::Result<u64> {
        self.file.seek(to)
    }
}

impl<F: OpenFile> OpenFile for FlakyFile<'_, F> {
    fn metadata(&self) -> io::Result<Metadata> {
        self.file.metadata()
    }

    fn set_len(&self, size: u64) -> io::Result<()> {
        self.notes.answer()?;
        self.file.set_len(size)
    }

    fn sync_all(&self) -> io::Result<()> {
        self.notes.answer()?;
        self.notes.note_sync();
        self.file.sync_all()
    }

    fn sync_data(&self) -> io::Result<()> {
        self.file.sync_data()
    }
}

impl<'a, R: Files> Files for FlakyHost<'a, R> {
    type File = FlakyFile<'a, R::File>;

    type Dir = R::Dir;

    fn open_file(&self, how: &OpenOptions, path: &str) -> io::Result<FlakyFile<'a, R::File>> {
        self.notes.note_opening();
        let file = self.host.open_file(how, path)?;
        let notes = self.notes;
        Ok(FlakyFile { file, notes })
    }

    fn open_dir(&self, path: &str) -> io::Result<R::Dir> {
        self.notes.answer()?;
        self.host.open_dir(path)
    }

    fn metadata(&self, path: &str) -> io::Result<Metadata> {
        self.host.metadata(path)
    }

    fn symlink_metadata(&self, path: &str) -> io::Result<Metadata> {
        self.host.symlink_metadata(path)
    }

    fn copy(&self, from: &str, to: &str) -> io::Result<u64> {
        self.host.copy(from, to)
    }

    fn rename(&self, from: &str, to: &str) -> io::Result<()> {
        self.host.rename(from, to)
    }

    fn remove_file(&self, path: &str) -> io::Result<()> {
        self.host.remove_file(path)
    }

    fn create_dir(&self, path: &str) -> io::Result<()> {
        self.host.create_dir(path)
    }

    fn remove_dir(&self, path: &str) -> io::Result<()> {
        self.host.remove_dir(path)
    }

    fn remove_dir_all<B: Allocator>(&self, alloc: B, path: &str) -> io::Result<()> {
        self.host.remove_dir_all(alloc, path)
    }
}
