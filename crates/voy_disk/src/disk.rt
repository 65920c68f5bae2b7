ghost use base.Fml.{GName};
ghost use Rattle.std.specs.Prelude.{◌≡◌, ◌≤◌, ◌<◌, ◌+◌, ◌^◌, ◌↔◌, ℕ, List, ◌∷◌, Option, None, length, IfOk, IfSome, OnOk};
ghost use Rattle.voy_disk.specs.Calls.{Changes, Created, CutFailed, DoneOrNot, IsThereWith, Leaves, Lists, Renamed, Smeared, SyncFailed, Synced, WasCut, Wrote};
ghost use Rattle.voy_disk.specs.Faults.{HasCause};
ghost use Rattle.voy_disk.specs.Files.{Files, IfTold, length_of, bytes_now, Reads, NothingToRead, ReadsImages, AreShort};

use crate::name::Name;
use crate::names::Names;

/// Why a call of a disk did not do its work.
#[derive(Debug, Clone, Copy, PartialEq, Eq)]
pub enum DiskError {
    /// The disk failed. Its count of faults rose.
    Failed,
    /// Memory was refused. Nothing changed.
    NoMemory,
}

/// A folder of files, which may fail at any call and may be stopped between two.
///
/// A disk tells its files to contracts, or does not: a disk in memory does, and a real folder
/// cannot. What is said of files holds for disks that tell them.
pub trait Disk {
    /// The files, where the disk tells them.
    ghost files: { Self → Option Files };

    /// How many faults there were, in 64 bits; the count stays at its type's end.
    ghost faults: { Self → ℕ };

    /// Through which references the disk is lent, the outermost first; none for a disk that is owned.
    ///
    /// A struct over a lent disk could swap its reference for another one, and its caller, when the loan ends,
    /// would know nothing of the disk that it lent. So each call says that the lender stays, as does each
    /// call of a store over a disk: then what a call says of the disk is said of the caller's own.
    ghost lender: { Self → List GName };

    /// The names of all files, each once, in byte order. No file changes.
    fn list(&mut self) -> Result<Names, DiskError>
        ensures names { IfOk result (λ names. IfTold (files self.old) (λ fs. Lists fs names)) }
        ensures same { files self.new ≡ files self.old }
        ensures cause { HasCause DiskError.Failed (faults self.old) (faults self.new) result }
        ensures lender { lender self.new ≡ lender self.old };

    /// The length in bytes of the file, or `None` where there is no such file. No file changes.
    fn len(&mut self, name: &Name) -> Result<Option<u64>, DiskError>
        ensures length { IfOk result (λ n. IfTold (files self.old) (λ fs. n ≡ length_of (fs name.now))) }
        ensures short { IfOk result (λ n. IfSome n (λ bytes. bytes < 2 ^ 63)) }
        ensures same { files self.new ≡ files self.old }
        ensures cause { HasCause DiskError.Failed (faults self.old) (faults self.new) result }
        ensures lender { lender self.new ≡ lender self.old };

    /// Fills the front of `into` with the bytes of the file from the place `at`, and answers how many
    /// bytes it read. That may be fewer than there is room for; it is 0 exactly where `into` is empty,
    /// the file is absent or `at` is not below its length. No file changes. After an error `into` has
    /// its length still, and nothing is known of its bytes.
    fn read_at(&mut self, name: &Name, at: u64, into: &mut [u8]) -> Result<usize, DiskError>
        ensures within { IfOk result (λ n. n ≤ length into.old) }
        ensures bytes { IfOk result (λ n. IfTold (files self.old) (λ fs. Reads (bytes_now (fs name.now)) at n into.old into.new)) }
        ensures some { IfOk result (λ n. IfTold (files self.old) (λ fs. (n ≡ 0) ↔ NothingToRead (bytes_now (fs name.now)) at into.old)) }
        ensures same { files self.new ≡ files self.old }
        ensures cause { HasCause DiskError.Failed (faults self.old) (faults self.new) result }
        ensures lender { lender self.new ≡ lender self.old };

    /// Makes an empty file where the name is free; a file that is there stays. After Ok the name is
    /// safe. After `Failed` the file was made, or was not.
    fn create(&mut self, name: &Name) -> Result<(), DiskError>
        ensures created { Leaves result (Created name.now) (DoneOrNot (Created name.now)) (files self.old) (files self.new) }
        ensures cause { HasCause DiskError.Failed (faults self.old) (faults self.new) result }
        ensures lender { lender self.new ≡ lender self.old };

    /// Writes `bytes` at the place `at`, over those that stand there and on behind the end. They are not
    /// safe until a `sync`. After `Failed` any bytes read where they were to stand.
    ///
    /// No file grows past 2^63 - 1 bytes: a write that would is `NoMemory` in memory and `Failed` on a real folder.
    fn write_at(&mut self, name: &Name, at: u64, bytes: &[u8]) -> Result<(), DiskError>
        requires there { IfTold (files self.old) (λ fs. IsThereWith (λ file. at ≤ length file.now) (fs name.now)) }
        requires low { at < 2 ^ 63 }
        ensures written { Leaves result (Changes (Wrote at bytes.now) name.now) (Changes (Smeared at (length bytes.now)) name.now) (files self.old) (files self.new) }
        ensures fits { OnOk result (at + length bytes.now < 2 ^ 63) }
        ensures cause { HasCause DiskError.Failed (faults self.old) (faults self.new) result }
        ensures lender { lender self.new ≡ lender self.old };

    /// Cuts the file to `to` bytes, which is not safe until a `sync`. After `Failed` any bytes, or none, read
    /// from there on.
    fn cut(&mut self, name: &Name, to: u64) -> Result<(), DiskError>
        requires there { IfTold (files self.old) (λ fs. IsThereWith (λ file. to ≤ length file.now) (fs name.now)) }
        ensures cut { Leaves result (Changes (WasCut to) name.now) (Changes (CutFailed to) name.now) (files self.old) (files self.new) }
        ensures cause { HasCause DiskError.Failed (faults self.old) (faults self.new) result }
        ensures lender { lender self.new ≡ lender self.old };

    /// Makes all bytes of the file safe. After `Failed` it reads as before, and a stop leaves nothing that it
    /// could not have left before.
    fn sync(&mut self, name: &Name) -> Result<(), DiskError>
        requires there { IfTold (files self.old) (λ fs. IsThereWith (λ _. Unit {0}) (fs name.now)) }
        ensures synced { Leaves result (Changes Synced name.now) (Changes SyncFailed name.now) (files self.old) (files self.new) }
        ensures cause { HasCause DiskError.Failed (faults self.old) (faults self.new) result }
        ensures lender { lender self.new ≡ lender self.old };

    /// Gives the file `from` the name `to`. After Ok the names are safe. After `Failed` it was done, or was not.
    fn rename(&mut self, from: &Name, to: &Name) -> Result<(), DiskError>
        requires there { IfTold (files self.old) (λ fs. IsThereWith (λ _. Unit {0}) (fs from.now)) }
        requires free { IfTold (files self.old) (λ fs. fs to.now ≡ None) }
        ensures renamed { Leaves result (Renamed from.now to.now) (DoneOrNot (Renamed from.now to.now)) (files self.old) (files self.new) }
        ensures cause { HasCause DiskError.Failed (faults self.old) (faults self.new) result }
        ensures lender { lender self.new ≡ lender self.old };

    /// The bytes that a file reads now are one of its images.
    ghost reads_an_image: { (disk : Self) → IfTold (files disk) ReadsImages };

    /// No file is longer than a vector of bytes can be.
    ghost has_short_files: { (disk : Self) → IfTold (files disk) AreShort };
}

impl<D: Disk> Disk for &mut D {
    ghost files = { λ disk. D.files disk.now };

    ghost faults = { λ disk. D.faults disk.now };

    ghost lender = { λ disk. disk.ghost_name ∷ D.lender disk.now };

    fn list(&mut self) -> Result<Names, DiskError> {
        (**self).list()
    }

    fn len(&mut self, name: &Name) -> Result<Option<u64>, DiskError> {
        (**self).len(name)
    }

    fn read_at(&mut self, name: &Name, at: u64, into: &mut [u8]) -> Result<usize, DiskError> {
        (**self).read_at(name, at, into)
    }

    fn create(&mut self, name: &Name) -> Result<(), DiskError> {
        (**self).create(name)
    }

    fn write_at(&mut self, name: &Name, at: u64, bytes: &[u8]) -> Result<(), DiskError> {
        (**self).write_at(name, at, bytes)
    }

    fn cut(&mut self, name: &Name, to: u64) -> Result<(), DiskError> {
        (**self).cut(name, to)
    }

    fn sync(&mut self, name: &Name) -> Result<(), DiskError> {
        (**self).sync(name)
    }

    fn rename(&mut self, from: &Name, to: &Name) -> Result<(), DiskError> {
        (**self).rename(from, to)
    }

    ghost reads_an_image = { λ disk. D.reads_an_image disk.now };

    ghost has_short_files = { λ disk. D.has_short_files disk.now };
}
