ghost use base.Fml.{GName};
ghost use Rattle.std.specs.Prelude.{◌≡◌, ◌≤◌, ◌<◌, ◌+◌, ◌^◌, ◌↔◌, ◌||◌, ℕ, [], Some, None, false, is_ok, length, true, IfOk, IfSome, IfErr, IsErr, IsErrOf, OnOk, OnErr, IsTrue, take};
ghost use Rattle.std.specs.Option.{option_map};
ghost use Rattle.voy_disk.specs.Calls.{Changes, Created, CutFailed, DoneOrNot, IsThereWith, Leaves, Lists, Renamed, Smeared, SyncFailed, Synced, WasCut, Wrote};
ghost use Rattle.voy_disk.specs.Faults.{HasCause};
ghost use Rattle.voy_disk.specs.Images.{Outage};
ghost use Rattle.voy_disk.specs.Files.{Files, IfTold, Puts, length_of, bytes_now, Reads, NothingToRead};
ghost use Rattle.voy_disk.specs.MemFiles.{shown, files_read_images, files_are_short};

use crate::disk::{Disk, DiskError};
use crate::memory::answering::answer;
use crate::memory::changes::{create_in, cut_in, rename_in, sync_in, write_in};
use crate::memory::crash::left_of;
use crate::memory::files::{MemFiles, bytes_in, length_in, put_in, read_in};
use crate::memory::listing::names_in;
use crate::memory::plan::FaultPlan;
use crate::name::Name;
use crate::names::Names;
use std::alloc::{AllocError, Global};
use std::collections::BTreeMap;

/// A disk in memory whose calls fail by a plan. It tells its files.
///
/// The number of its calls and its count of faults stay at the end of their type.
#[derive(Debug, Drop)]
pub struct MemDisk {
    alloc: Global,
    files: MemFiles,
    plan: FaultPlan,
    calls: u64,
    faults: u64,
    dead: bool,
}

impl MemDisk {
    ghost use Rattle.voy_disk.specs.MemDisk.{mem_disk_files, mem_disk_calls, mem_disk_plan, mem_disk_faults, mem_disk_dead, fails_next, faults_after, CountsCall, KeepsPlan};

    /// A disk without files, whose calls fail by this plan.
    pub fn new(alloc: Global, plan: FaultPlan) -> MemDisk
        ensures empty { (name : _) → mem_disk_files result name ≡ None }
        ensures plan { mem_disk_plan result ≡ plan }
        ensures calls { mem_disk_calls result ≡ 0 }
        ensures faults { mem_disk_faults result ≡ 0 }
        ensures dead { mem_disk_dead result ≡ false }
    {
        MemDisk {
            alloc,
            files: BTreeMap::new(alloc),
            plan,
            calls: 0,
            faults: 0,
            dead: false,
        }
    }

    /// Puts a file with exactly these bytes on the disk, safe at once, in place of one of that name.
    /// This is no call of a disk: it is not counted, and fails only where memory is refused; then
    /// nothing changed.
    pub fn put_file(&mut self, name: &Name, bytes: &[u8]) -> Result<(), AllocError>
        ensures ok { OnOk result (Puts name.now bytes.now (mem_disk_files self.old) (mem_disk_files self.new)) }
        ensures err { OnErr result (mem_disk_files self.new ≡ mem_disk_files self.old) }
        ensures keeps { KeepsPlan self.old self.new }
    {
        put_in(self.alloc, &mut self.files, name, bytes)
    }

    /// The bytes that the file reads now, or `None` where there is no such file.
    pub fn file(&self, name: &Name) -> Option<&[u8]>
        ensures { shown result ≡ option_map (λ file. file.now) (mem_disk_files self.now name.now) }
    {
        bytes_in(&self.files, name)
    }

    /// How many calls of a disk it had, failed ones with them.
    pub fn calls(&self) -> u64
        ensures { result ≡ mem_disk_calls self.now }
    {
        self.calls
    }

    /// Whether a call has failed by the plan's `dead_from` since the last `crash`.
    pub fn dead(&self) -> bool
        ensures { result ≡ mem_disk_dead self.now }
    {
        self.dead
    }

    /// An outage: each file becomes an image of it that `choice` picks, and the plan is emptied. This is
    /// no call of a disk. It fails only where memory is refused; then nothing changed.
    pub fn crash(&mut self, choice: u64) -> Result<(), AllocError>
        ensures outage { OnOk result (Outage (mem_disk_files self.old) (mem_disk_files self.new)) }
        ensures plan { OnOk result (mem_disk_plan self.new ≡ record { fail = []; dead_from = 0; leaves = 0 }) }
        ensures dead { OnOk result (mem_disk_dead self.new ≡ false) }
        ensures calls { mem_disk_calls self.new ≡ mem_disk_calls self.old }
        ensures faults { mem_disk_faults self.new ≡ mem_disk_faults self.old }
        ensures err { OnErr result (self.new ≡ self.old) }
    {
        self.files = left_of(self.alloc, &self.files, choice)?;
        self.plan = FaultPlan::none(self.alloc);
        self.dead = false;
        Ok(())
    }

    // How many of `count` bytes a call changes that was begun so: all, or where it failed as many as the
    // plan leaves.
    fn part(&self, begun: &Result<(), DiskError>, count: u64) -> u64
        requires { count < 2 ^ 63 }
        ensures within { result ≤ count }
        ensures all { is_ok begun.now ≡ true → result ≡ count }
    {
        match begun {
            Ok(()) => count,
            Err(_) => self.plan.leaves % (count + 1),
        }
    }

    // Whether the plan leaves a failed change done.
    fn leaves_done(&self) -> bool {
        self.plan.leaves % 2 == 1
    }

    // Counts a call, and fails it where the plan has its number.
    fn begin(&mut self) -> Result<(), DiskError>
        ensures planned { IsErr result ↔ IsTrue (fails_next self.old) }
        ensures failed { IfErr result (λ error. error ≡ DiskError.Failed) }
        ensures counted { CountsCall self.old self.new }
        ensures files { self.new.files ≡ self.old.files }
        ensures faults { mem_disk_faults self.new ≡ mem_disk_faults self.old }
    {
        self.calls = self.calls.saturating_add(1);
        self.dead = self.dead || self.plan.is_dead_at(self.calls);
        if self.plan.fails_at(self.calls) {
            return Err(DiskError::Failed);
        }
        Ok(())
    }

    // Counts a call that reads, and a fault where the plan has its number.
    fn begin_to_read(&mut self) -> Result<(), DiskError>
        ensures planned { IsErr result ↔ IsTrue (fails_next self.old) }
        ensures failed { IfErr result (λ error. error ≡ DiskError.Failed) }
        ensures counted { CountsCall self.old self.new }
        ensures files { self.new.files ≡ self.old.files }
        ensures faults { mem_disk_faults self.new ≡ faults_after (mem_disk_faults self.old) result }
        ensures cause { HasCause DiskError.Failed (mem_disk_faults self.old) (mem_disk_faults self.new) result }
    {
        let begun = self.begin();
        self.counted(begun)
    }

    // The answer of a call, whose fault is counted.
    fn counted(&mut self, answer: Result<(), DiskError>) -> Result<(), DiskError>
        ensures answer { result ≡ answer }
        ensures faults { mem_disk_faults self.new ≡ faults_after (mem_disk_faults self.old) result }
        ensures cause { HasCause DiskError.Failed (mem_disk_faults self.old) (mem_disk_faults self.new) result }
        ensures files { self.new.files ≡ self.old.files }
        ensures calls { mem_disk_calls self.new ≡ mem_disk_calls self.old }
        ensures plan { mem_disk_plan self.new ≡ mem_disk_plan self.old }
        ensures dead { mem_disk_dead self.new ≡ mem_disk_dead self.old }
    {
        if let Err(DiskError::Failed) = &answer {
            self.faults = self.faults.saturating_add(1);
        }
        answer
    }
}

impl Disk for MemDisk {
    ghost use Rattle.voy_disk.specs.MemDisk.{mem_disk_files, mem_disk_faults, fails_next, faults_after, CountsCall};

    ghost files = { λ disk. Some (mem_disk_files disk) };

    ghost faults = { λ disk. mem_disk_faults disk };

    ghost lender = { λ _. [] };

    fn list(&mut self) -> Result<Names, DiskError>
        ensures names { IfOk result (λ names. Lists (mem_disk_files self.old) names) }
        ensures same { mem_disk_files self.new ≡ mem_disk_files self.old }
        ensures cause { HasCause DiskError.Failed (mem_disk_faults self.old) (mem_disk_faults self.new) result }
        ensures faults { mem_disk_faults self.new ≡ faults_after (mem_disk_faults self.old) result }
        ensures planned { IsTrue (fails_next self.old) → IsErr result }
        ensures failed { IsErrOf result DiskError.Failed → IsTrue (fails_next self.old) }
        ensures counted { CountsCall self.old self.new }
    {
        self.begin_to_read()?;
        Ok(names_in(self.alloc, &self.files)?)
    }

    fn len(&mut self, name: &Name) -> Result<Option<u64>, DiskError>
        ensures length { IfOk result (λ n. n ≡ length_of (mem_disk_files self.old name.now)) }
        ensures short { IfOk result (λ n. IfSome n (λ bytes. bytes < 2 ^ 63)) }
        ensures same { mem_disk_files self.new ≡ mem_disk_files self.old }
        ensures cause { HasCause DiskError.Failed (mem_disk_faults self.old) (mem_disk_faults self.new) result }
        ensures faults { mem_disk_faults self.new ≡ faults_after (mem_disk_faults self.old) result }
        ensures planned { IsErr result ↔ IsTrue (fails_next self.old) }
        ensures failed { IfErr result (λ error. error ≡ DiskError.Failed) }
        ensures counted { CountsCall self.old self.new }
    {
        self.begin_to_read()?;
        Ok(length_in(&self.files, name))
    }

    fn read_at(&mut self, name: &Name, at: u64, into: &mut [u8]) -> Result<usize, DiskError>
        ensures within { IfOk result (λ n. n ≤ length into.old) }
        ensures bytes { IfOk result (λ n. Reads (bytes_now (mem_disk_files self.old name.now)) at n into.old into.new) }
        ensures some { IfOk result (λ n. (n ≡ 0) ↔ NothingToRead (bytes_now (mem_disk_files self.old name.now)) at into.old) }
        ensures same { mem_disk_files self.new ≡ mem_disk_files self.old }
        ensures cause { HasCause DiskError.Failed (mem_disk_faults self.old) (mem_disk_faults self.new) result }
        ensures faults { mem_disk_faults self.new ≡ faults_after (mem_disk_faults self.old) result }
        ensures planned { IsErr result ↔ IsTrue (fails_next self.old) }
        ensures failed { IfErr result (λ error. error ≡ DiskError.Failed) }
        ensures counted { CountsCall self.old self.new }
    {
        self.begin_to_read()?;
        Ok(read_in(&self.files, name, at, into))
    }

    fn create(&mut self, name: &Name) -> Result<(), DiskError>
        ensures created { Leaves result (Created name.now) (DoneOrNot (Created name.now)) (Some (mem_disk_files self.old)) (Some (mem_disk_files self.new)) }
        ensures cause { HasCause DiskError.Failed (mem_disk_faults self.old) (mem_disk_faults self.new) result }
        ensures faults { mem_disk_faults self.new ≡ faults_after (mem_disk_faults self.old) result }
        ensures planned { IsTrue (fails_next self.old) → IsErr result }
        ensures failed { IsErrOf result DiskError.Failed → IsTrue (fails_next self.old) }
        ensures counted { CountsCall self.old self.new }
    {
        let begun = self.begin();
        if begun.is_err() && !self.leaves_done() {
            return self.counted(begun);
        }
        let done = create_in(self.alloc, &mut self.files, name);
        self.counted(answer(begun, done))
    }

    fn write_at(&mut self, name: &Name, at: u64, bytes: &[u8]) -> Result<(), DiskError>
        requires there { IsThereWith (λ file. at ≤ length file.now) (mem_disk_files self.old name.now) }
        ensures written { Leaves result (Changes (Wrote at bytes.now) name.now) (Changes (Smeared at (length bytes.now)) name.now) (Some (mem_disk_files self.old)) (Some (mem_disk_files self.new)) }
        ensures fits { OnOk result (at + length bytes.now < 2 ^ 63) }
        ensures cause { HasCause DiskError.Failed (mem_disk_faults self.old) (mem_disk_faults self.new) result }
        ensures faults { mem_disk_faults self.new ≡ faults_after (mem_disk_faults self.old) result }
        ensures planned { IsTrue (fails_next self.old) → IsErr result }
        ensures failed { IsErrOf result DiskError.Failed → IsTrue (fails_next self.old) }
        ensures counted { CountsCall self.old self.new }
    {
        let begun = self.begin();
        let count = bytes.len() as u64;
        let part = self.part(&begun, count);
        let done = write_in(&mut self.files, name, at, &bytes[..part as usize], count);
        self.counted(answer(begun, done))
    }

    fn cut(&mut self, name: &Name, to: u64) -> Result<(), DiskError>
        requires there { IsThereWith (λ file. to ≤ length file.now) (mem_disk_files self.old name.now) }
        ensures cut { Leaves result (Changes (WasCut to) name.now) (Changes (CutFailed to) name.now) (Some (mem_disk_files self.old)) (Some (mem_disk_files self.new)) }
        ensures cause { HasCause DiskError.Failed (mem_disk_faults self.old) (mem_disk_faults self.new) result }
        ensures faults { mem_disk_faults self.new ≡ faults_after (mem_disk_faults self.old) result }
        ensures planned { IsTrue (fails_next self.old) → IsErr result }
        ensures failed { IsErrOf result DiskError.Failed → IsTrue (fails_next self.old) }
        ensures counted { CountsCall self.old self.new }
    {
        let begun = self.begin();
        let length = length_in(&self.files, name).unwrap();
        let gone = self.part(&begun, length - to);
        let done = cut_in(&mut self.files, name, to, length - gone);
        self.counted(answer(begun, done))
    }

    fn sync(&mut self, name: &Name) -> Result<(), DiskError>
        requires there { IsThereWith (λ _. Unit {0}) (mem_disk_files self.old name.now) }
        ensures synced { Leaves result (Changes Synced name.now) (Changes SyncFailed name.now) (Some (mem_disk_files self.old)) (Some (mem_disk_files self.new)) }
        ensures cause { HasCause DiskError.Failed (mem_disk_faults self.old) (mem_disk_faults self.new) result }
        ensures faults { mem_disk_faults self.new ≡ faults_after (mem_disk_faults self.old) result }
        ensures planned { IsTrue (fails_next self.old) → IsErr result }
        ensures failed { IsErrOf result DiskError.Failed → IsTrue (fails_next self.old) }
        ensures counted { CountsCall self.old self.new }
    {
        let begun = self.begin();
        if begun.is_err() && !self.leaves_done() {
            return self.counted(begun);
        }
        let done = sync_in(&mut self.files, name);
        self.counted(answer(begun, done))
    }

    fn rename(&mut self, from: &Name, to: &Name) -> Result<(), DiskError>
        requires there { IsThereWith (λ _. Unit {0}) (mem_disk_files self.old from.now) }
        requires free { mem_disk_files self.old to.now ≡ None }
        ensures renamed { Leaves result (Renamed from.now to.now) (DoneOrNot (Renamed from.now to.now)) (Some (mem_disk_files self.old)) (Some (mem_disk_files self.new)) }
        ensures cause { HasCause DiskError.Failed (mem_disk_faults self.old) (mem_disk_faults self.new) result }
        ensures faults { mem_disk_faults self.new ≡ faults_after (mem_disk_faults self.old) result }
        ensures planned { IsTrue (fails_next self.old) → IsErr result }
        ensures failed { IsErrOf result DiskError.Failed → IsTrue (fails_next self.old) }
        ensures counted { CountsCall self.old self.new }
    {
        let begun = self.begin();
        if begun.is_err() && !self.leaves_done() {
            return self.counted(begun);
        }
        let done = rename_in(self.alloc, &mut self.files, from, to);
        self.counted(answer(begun, done))
    }

    ghost reads_an_image = { λ disk. files_read_images disk.files };

    ghost has_short_files = { λ disk. files_are_short disk.files };
}
