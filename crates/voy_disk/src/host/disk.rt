ghost use Rattle.std.specs.Prelude.{◌≡◌, ◌≤◌, ◌<◌, ◌+◌, ◌^◌, [], None, Ok, Err, IfOk, IfErr, IsErr, IsErrOf, IsTrue, OnOk, length, string_bytes, vec_capacity, vec_len};
ghost use Rattle.voy_disk.specs.Faults.{HasCause, Rose};

use crate::disk::{Disk, DiskError};
use crate::host::files::{
    create_file, find_or_make_folder, list_files, open_to_read, open_to_write, path_in,
    rename_file, sync_folder,
};
use crate::host::opened::Opened;
use crate::name::Name;
use crate::names::Names;
use std::alloc::{AllocError, Global};
use std::io;
use std::io::ErrorKind;
use std::rt::Files;

/// A real folder. It tells nothing of its files; that the folder keeps what is written to it, and
/// keeps it through a stop once it is synced, is trusted.
///
/// The folder is made by the first call where it is absent. A file that is no plain file, as a
/// folder, or that cannot be read, is a fault; `list` passes over what is no plain file or has no
/// `Name`. A write behind the end, a write past 2^63 - 1 bytes, a cut that would lengthen, and a new
/// name that is taken are faults too. Each read, write and sync goes to the file itself, which stays
/// open for the next call where that is of the same file. `create` and `rename` sync the folder, and
/// the first of them also the folder above, so that the folder's own name is safe. The count of faults
/// stays at the end of its type.
///
/// After a write, a cut or a sync of a file failed, each later sync of that name is a fault, for as long
/// as the disk lives: the system may have dropped what it could not write, and would then answer the next
/// sync as if all were safe. A file that is renamed takes this along.
#[derive(Debug, Drop)]
pub struct HostDisk<R: Files> {
    host: R,
    alloc: Global,
    folder: String,
    has_folder: bool,
    is_folder_safe: bool,
    faults: u64,
    // The file of the last call.
    opened: Option<Opened<R::File>>,
    // The names of the files of which a write, a cut or a sync failed.
    lost: Vec<Name>,
}

impl<R: Files + Drop> HostDisk<R> {
    ghost use Rattle.voy_disk.specs.HostDisk.{KeepsLost, has_lost, host_disk_folder, host_disk_faults, host_disk_path};

    /// The folder with this path. Nothing is read or made yet.
    pub fn new(host: R, alloc: Global, folder: &str) -> Result<HostDisk<R>, AllocError>
        ensures folder { IfOk result (λ disk. host_disk_folder disk ≡ folder.now) }
        ensures faults { IfOk result (λ disk. host_disk_faults disk ≡ 0) }
    {
        Ok(HostDisk {
            host,
            alloc,
            folder: String::from_str(alloc, folder)?,
            has_folder: false,
            is_folder_safe: false,
            faults: 0,
            opened: None,
            lost: Vec::new(alloc),
        })
    }

    /// How many of its calls failed.
    pub fn faults(&self) -> u64
        ensures { result ≡ host_disk_faults self.now }
    {
        self.faults
    }

    // The path of a file. The folder is there, and made where it was absent.
    fn reach(&mut self, name: &Name) -> Result<String, DiskError>
        ensures path { IfOk result (λ path. string_bytes path ≡ host_disk_path self.old name.now) }
        ensures folder { host_disk_folder self.new ≡ host_disk_folder self.old }
        ensures lost { self.new.lost ≡ self.old.lost }
        ensures cause { HasCause DiskError.Failed (host_disk_faults self.old) (host_disk_faults self.new) result }
    {
        let path = path_in(self.alloc, self.folder.as_str(), name.as_str())?;
        self.reach_folder()?;
        Ok(path)
    }

    // Makes the folder where it is absent.
    fn reach_folder(&mut self) -> Result<(), DiskError>
        ensures folder { host_disk_folder self.new ≡ host_disk_folder self.old }
        ensures lost { self.new.lost ≡ self.old.lost }
        ensures cause { HasCause DiskError.Failed (host_disk_faults self.old) (host_disk_faults self.new) result }
    {
        if !self.has_folder {
            let found = find_or_make_folder(&self.host, self.folder.as_str());
            self.counted(found)?;
            self.has_folder = true;
        }
        Ok(())
    }

    // Makes the folder's own name safe in the folder above, before the first name in it has to be.
    fn keep_folder(&mut self) -> Result<(), DiskError>
        ensures folder { host_disk_folder self.new ≡ host_disk_folder self.old }
        ensures lost { self.new.lost ≡ self.old.lost }
        ensures cause { HasCause DiskError.Failed (host_disk_faults self.old) (host_disk_faults self.new) result }
    {
        if !self.is_folder_safe {
            let above = path_in(self.alloc, self.folder.as_str(), "..")?;
            let synced = sync_folder(&self.host, above.as_str());
            self.counted(synced)?;
            self.is_folder_safe = true;
        }
        Ok(())
    }

    // The answer of the host, where each error counts as a fault.
    fn counted<T: Drop>(&mut self, answer: io::Result<T>) -> Result<T, DiskError>
        ensures ok { IfOk answer (λ value. result ≡ Ok value) }
        ensures err { IfErr answer (λ _. result ≡ Err DiskError.Failed) }
        ensures folder { host_disk_folder self.new ≡ host_disk_folder self.old }
        ensures lost { self.new.lost ≡ self.old.lost }
        ensures cause { HasCause DiskError.Failed (host_disk_faults self.old) (host_disk_faults self.new) result }
    {
        match answer {
            Ok(value) => Ok(value),
            Err(_) => Err(self.fail()),
        }
    }

    // The file of the last call, where it is the one of this name, opened for what is wanted of it.
    fn take_opened(&mut self, name: &Name, to_write: bool) -> Option<Opened<R::File>>
        ensures folder { host_disk_folder self.new ≡ host_disk_folder self.old }
        ensures faults { host_disk_faults self.new ≡ host_disk_faults self.old }
        ensures lost { self.new.lost ≡ self.old.lost }
    {
        let opened = self.opened.take()?;
        if !opened.serves(name, to_write) {
            return None;
        }
        Some(opened)
    }

    // The file, open for reads, or `None` where there is none.
    fn open_to_read(&mut self, name: &Name) -> Result<Option<Opened<R::File>>, DiskError>
        ensures lost { self.new.lost ≡ self.old.lost }
        ensures folder { host_disk_folder self.new ≡ host_disk_folder self.old }
        ensures cause { HasCause DiskError.Failed (host_disk_faults self.old) (host_disk_faults self.new) result }
    {
        if let Some(opened) = self.take_opened(name, false) {
            return Ok(Some(opened));
        }
        let path = self.reach(name)?;
        let name = name.copy()?;
        let found = open_to_read(&self.host, path.as_str());
        let Some(file) = self.counted(found)? else {
            return Ok(None);
        };
        Ok(Some(Opened {
            name,
            file,
            writes: false,
        }))
    }

    // The file that is there, open for writes.
    fn open_to_write(&mut self, name: &Name) -> Result<Opened<R::File>, DiskError>
        ensures folder { host_disk_folder self.new ≡ host_disk_folder self.old }
        ensures lost { self.new.lost ≡ self.old.lost }
        ensures cause { HasCause DiskError.Failed (host_disk_faults self.old) (host_disk_faults self.new) result }
    {
        if let Some(opened) = self.take_opened(name, true) {
            return Ok(opened);
        }
        let path = self.reach(name)?;
        let name = name.copy()?;
        let found = open_to_write(&self.host, path.as_str());
        let file = self.counted(found)?;
        Ok(Opened {
            name,
            file,
            writes: true,
        })
    }

    // A copy of the name, and room to remember it, so that no memory is wanted after a failure.
    fn spare(&mut self, name: &Name) -> Result<Name, AllocError>
        ensures name { IfOk result (λ spare. spare ≡ name.now) }
        ensures room { OnOk result (vec_len self.new.lost < vec_capacity self.new.lost) }
        ensures lost { self.new.lost.items ≡ self.old.lost.items }
        ensures folder { host_disk_folder self.new ≡ host_disk_folder self.old }
        ensures faults { host_disk_faults self.new ≡ host_disk_faults self.old }
    {
        self.lost.reserve(1)?;
        name.copy()
    }

    // Whether a write, a cut or a sync of the file of this name failed.
    fn has_lost(&self, name: &Name) -> bool
        ensures { result ≡ has_lost self.now name.now }
    {
        self.lost.iter().any(|lost| lost.as_str() == name.as_str())
    }

    // The answer of a call that was to write to the file of this name, which is remembered where it failed.
    fn remembered(&mut self, name: Name, answer: Result<(), DiskError>) -> Result<(), DiskError>
        requires room { vec_len self.old.lost < vec_capacity self.old.lost }
        ensures answer { result ≡ answer }
        ensures lost { IsErrOf result DiskError.Failed → IsTrue (has_lost self.new name) }
        ensures stays { KeepsLost self.old self.new }
        ensures folder { host_disk_folder self.new ≡ host_disk_folder self.old }
        ensures faults { host_disk_faults self.new ≡ host_disk_faults self.old }
    {
        if let Err(DiskError::Failed) = &answer {
            self.remember(name);
        }
        answer
    }

    // Remembers that the file of this name may have lost bytes.
    fn remember(&mut self, name: Name)
        requires room { vec_len self.old.lost < vec_capacity self.old.lost }
        ensures lost { IsTrue (has_lost self.new name) }
        ensures stays { KeepsLost self.old self.new }
        ensures folder { host_disk_folder self.new ≡ host_disk_folder self.old }
        ensures faults { host_disk_faults self.new ≡ host_disk_faults self.old }
    {
        if !self.has_lost(&name) {
            self.lost.push_reserved(name);
        }
    }

    // Writes at a place of the file.
    fn write_in(&mut self, name: &Name, at: u64, bytes: &[u8]) -> Result<(), DiskError>
        ensures fits { OnOk result (at + length bytes.now < 2 ^ 63) }
        ensures lost { self.new.lost ≡ self.old.lost }
        ensures cause { HasCause DiskError.Failed (host_disk_faults self.old) (host_disk_faults self.new) result }
    {
        let mut opened = self.open_to_write(name)?;
        let written = opened.write_at(at, bytes);
        self.counted(written)?;
        self.opened = Some(opened);
        Ok(())
    }

    // Cuts the file.
    fn cut_in(&mut self, name: &Name, to: u64) -> Result<(), DiskError>
        ensures lost { self.new.lost ≡ self.old.lost }
        ensures cause { HasCause DiskError.Failed (host_disk_faults self.old) (host_disk_faults self.new) result }
    {
        let mut opened = self.open_to_write(name)?;
        let shortened = opened.cut(to);
        self.counted(shortened)?;
        self.opened = Some(opened);
        Ok(())
    }

    // Syncs the file, where no write, cut or sync of it failed before.
    fn sync_in(&mut self, name: &Name) -> Result<(), DiskError>
        ensures never { IsTrue (has_lost self.old name.now) → IsErr result }
        ensures lost { self.new.lost ≡ self.old.lost }
        ensures cause { HasCause DiskError.Failed (host_disk_faults self.old) (host_disk_faults self.new) result }
    {
        if self.has_lost(name) {
            return Err(self.fail());
        }
        let mut opened = self.open_to_write(name)?;
        let synced = opened.sync();
        self.counted(synced)?;
        self.opened = Some(opened);
        Ok(())
    }

    // Counts a fault.
    fn fail(&mut self) -> DiskError
        ensures error { result ≡ DiskError.Failed }
        ensures folder { host_disk_folder self.new ≡ host_disk_folder self.old }
        ensures lost { self.new.lost ≡ self.old.lost }
        ensures later { host_disk_faults self.old ≤ host_disk_faults self.new }
        ensures rose { Rose (host_disk_faults self.old) (host_disk_faults self.new) }
    {
        self.faults = self.faults.saturating_add(1);
        DiskError::Failed
    }
}

#[tactic(auto, using(crate::proofs::Untold::leaves_untold))]
impl<R: Files + Drop> Disk for HostDisk<R> {
    ghost use Rattle.voy_disk.specs.Files.{AreShort, ReadsImages, told_none};
    ghost use Rattle.voy_disk.specs.HostDisk.{host_disk_faults};

    ghost files = { λ _. None };

    ghost faults = { λ disk. host_disk_faults disk };

    ghost lender = { λ _. [] };

    fn list(&mut self) -> Result<Names, DiskError> {
        self.reach_folder()?;
        match list_files(&self.host, self.alloc, self.folder.as_str()) {
            Ok(names) => Ok(names),
            Err(error) if error.kind() == ErrorKind::OutOfMemory => Err(DiskError::NoMemory),
            Err(_) => Err(self.fail()),
        }
    }

    fn len(&mut self, name: &Name) -> Result<Option<u64>, DiskError> {
        let Some(opened) = self.open_to_read(name)? else {
            return Ok(None);
        };
        let length = opened.length();
        let length = self.counted(length)?;
        self.opened = Some(opened);
        Ok(Some(length))
    }

    fn read_at(&mut self, name: &Name, at: u64, into: &mut [u8]) -> Result<usize, DiskError> {
        let Some(mut opened) = self.open_to_read(name)? else {
            return Ok(0);
        };
        let read = opened.read_at(at, into);
        let count = self.counted(read)?;
        self.opened = Some(opened);
        Ok(count)
    }

    fn create(&mut self, name: &Name) -> Result<(), DiskError> {
        self.opened = None;
        let path = self.reach(name)?;
        self.keep_folder()?;
        let created = create_file(&self.host, self.folder.as_str(), path.as_str());
        self.counted(created)
    }

    fn write_at(&mut self, name: &Name, at: u64, bytes: &[u8]) -> Result<(), DiskError> {
        let spare = self.spare(name)?;
        let written = self.write_in(name, at, bytes);
        self.remembered(spare, written)
    }

    fn cut(&mut self, name: &Name, to: u64) -> Result<(), DiskError> {
        let spare = self.spare(name)?;
        let shortened = self.cut_in(name, to);
        self.remembered(spare, shortened)
    }

    fn sync(&mut self, name: &Name) -> Result<(), DiskError> {
        let spare = self.spare(name)?;
        let synced = self.sync_in(name);
        self.remembered(spare, synced)
    }

    fn rename(&mut self, from: &Name, to: &Name) -> Result<(), DiskError> {
        self.opened = None;
        let spare = self.spare(to)?;
        if self.has_lost(from) {
            self.remember(spare);
        }
        let old_path = self.reach(from)?;
        let new_path = self.reach(to)?;
        self.keep_folder()?;
        let renamed = rename_file(
            &self.host,
            self.folder.as_str(),
            old_path.as_str(),
            new_path.as_str(),
        );
        self.counted(renamed)
    }

    ghost reads_an_image = { λ _. told_none ReadsImages };

    ghost has_short_files = { λ _. told_none AreShort };
}
