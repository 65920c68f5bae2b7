ghost use base.Fml.{GName};
ghost use Rattle.std.specs.Prelude.{◌≡◌, ◌≤◌, ◌<◌, ◌+◌, ◌^◌, ◌↔◌, ℕ, [], Some, None, length, IfErr, IfOk, IfSome, OnOk, OnErr, IsOk};
ghost use Rattle.std.specs.Option.{option_map};
ghost use Rattle.voy_disk.specs.Calls.{Changes, Created, CutFailed, DoneOrNot, IsThereWith, Leaves, Lists, Renamed, Smeared, SyncFailed, Synced, WasCut, Wrote};
ghost use Rattle.voy_disk.specs.Files.{Files, IfTold, Puts, length_of, bytes_now, Reads, NothingToRead};
ghost use Rattle.voy_disk.specs.MemFiles.{shown, files_read_images, files_are_short};

use crate::disk::{Disk, DiskError};
use crate::memory::answering::answer;
use crate::memory::changes::{create_in, cut_in, rename_in, sync_in, write_in};
use crate::memory::files::{MemFiles, bytes_in, length_in, put_in, read_in};
use crate::memory::listing::names_in;
use crate::name::Name;
use crate::names::Names;
use std::alloc::{AllocError, Global};
use std::collections::BTreeMap;

/// A disk in memory that never fails. It tells its files, and its count of faults stands at 0.
#[derive(Debug, Drop)]
pub struct SureDisk {
    alloc: Global,
    files: MemFiles,
}

impl SureDisk {
    ghost use Rattle.voy_disk.specs.SureDisk.{sure_disk_files};

    /// A disk without files.
    pub fn new(alloc: Global) -> SureDisk
        ensures { (name : _) → sure_disk_files result name ≡ None }
    {
        SureDisk {
            alloc,
            files: BTreeMap::new(alloc),
        }
    }

    /// Puts a file with exactly these bytes on the disk, safe at once, in place of one of that name.
    /// It fails only where memory is refused; then nothing changed.
    pub fn put_file(&mut self, name: &Name, bytes: &[u8]) -> Result<(), AllocError>
        ensures ok { OnOk result (Puts name.now bytes.now (sure_disk_files self.old) (sure_disk_files self.new)) }
        ensures err { OnErr result (sure_disk_files self.new ≡ sure_disk_files self.old) }
    {
        put_in(self.alloc, &mut self.files, name, bytes)
    }

    /// The bytes that the file reads now, or `None` where there is no such file.
    pub fn file(&self, name: &Name) -> Option<&[u8]>
        ensures { shown result ≡ option_map (λ file. file.now) (sure_disk_files self.now name.now) }
    {
        bytes_in(&self.files, name)
    }
}

impl Disk for SureDisk {
    ghost use Rattle.voy_disk.specs.SureDisk.{sure_disk_files};

    ghost files = { λ disk. Some (sure_disk_files disk) };

    ghost faults = { λ _. 0 };

    ghost lender = { λ _. [] };

    fn list(&mut self) -> Result<Names, DiskError>
        ensures names { IfOk result (λ names. Lists (sure_disk_files self.old) names) }
        ensures same { sure_disk_files self.new ≡ sure_disk_files self.old }
        ensures sure { IfErr result (λ error. error ≡ DiskError.NoMemory) }
    {
        Ok(names_in(self.alloc, &self.files)?)
    }

    fn len(&mut self, name: &Name) -> Result<Option<u64>, DiskError>
        ensures length { IfOk result (λ n. n ≡ length_of (sure_disk_files self.old name.now)) }
        ensures short { IfOk result (λ n. IfSome n (λ bytes. bytes < 2 ^ 63)) }
        ensures same { sure_disk_files self.new ≡ sure_disk_files self.old }
        ensures sure { IsOk result }
    {
        Ok(length_in(&self.files, name))
    }

    fn read_at(&mut self, name: &Name, at: u64, into: &mut [u8]) -> Result<usize, DiskError>
        ensures within { IfOk result (λ n. n ≤ length into.old) }
        ensures bytes { IfOk result (λ n. Reads (bytes_now (sure_disk_files self.old name.now)) at n into.old into.new) }
        ensures some { IfOk result (λ n. (n ≡ 0) ↔ NothingToRead (bytes_now (sure_disk_files self.old name.now)) at into.old) }
        ensures same { sure_disk_files self.new ≡ sure_disk_files self.old }
        ensures sure { IsOk result }
    {
        Ok(read_in(&self.files, name, at, into))
    }

    fn create(&mut self, name: &Name) -> Result<(), DiskError>
        ensures files { Leaves result (Created name.now) (DoneOrNot (Created name.now)) (Some (sure_disk_files self.old)) (Some (sure_disk_files self.new)) }
        ensures sure { IfErr result (λ error. error ≡ DiskError.NoMemory) }
    {
        let done = create_in(self.alloc, &mut self.files, name);
        answer(Ok(()), done)
    }

    fn write_at(&mut self, name: &Name, at: u64, bytes: &[u8]) -> Result<(), DiskError>
        requires there { IsThereWith (λ file. at ≤ length file.now) (sure_disk_files self.old name.now) }
        ensures files { Leaves result (Changes (Wrote at bytes.now) name.now) (Changes (Smeared at (length bytes.now)) name.now) (Some (sure_disk_files self.old)) (Some (sure_disk_files self.new)) }
        ensures fits { OnOk result (at + length bytes.now < 2 ^ 63) }
        ensures sure { IfErr result (λ error. error ≡ DiskError.NoMemory) }
    {
        let done = write_in(&mut self.files, name, at, bytes, bytes.len() as u64);
        answer(Ok(()), done)
    }

    fn cut(&mut self, name: &Name, to: u64) -> Result<(), DiskError>
        requires there { IsThereWith (λ file. to ≤ length file.now) (sure_disk_files self.old name.now) }
        ensures files { Leaves result (Changes (WasCut to) name.now) (Changes (CutFailed to) name.now) (Some (sure_disk_files self.old)) (Some (sure_disk_files self.new)) }
        ensures sure { IfErr result (λ error. error ≡ DiskError.NoMemory) }
    {
        let done = cut_in(&mut self.files, name, to, to);
        answer(Ok(()), done)
    }

    fn sync(&mut self, name: &Name) -> Result<(), DiskError>
        requires there { IsThereWith (λ _. Unit {0}) (sure_disk_files self.old name.now) }
        ensures files { Leaves result (Changes Synced name.now) (Changes SyncFailed name.now) (Some (sure_disk_files self.old)) (Some (sure_disk_files self.new)) }
        ensures sure { IfErr result (λ error. error ≡ DiskError.NoMemory) }
    {
        let done = sync_in(&mut self.files, name);
        answer(Ok(()), done)
    }

    fn rename(&mut self, from: &Name, to: &Name) -> Result<(), DiskError>
        requires there { IsThereWith (λ _. Unit {0}) (sure_disk_files self.old from.now) }
        requires free { sure_disk_files self.old to.now ≡ None }
        ensures files { Leaves result (Renamed from.now to.now) (DoneOrNot (Renamed from.now to.now)) (Some (sure_disk_files self.old)) (Some (sure_disk_files self.new)) }
        ensures sure { IfErr result (λ error. error ≡ DiskError.NoMemory) }
    {
        let done = rename_in(self.alloc, &mut self.files, from, to);
        answer(Ok(()), done)
    }

    ghost reads_an_image = { λ disk. files_read_images disk.files };

    ghost has_short_files = { λ disk. files_are_short disk.files };
}
