ghost use Rattle.std.specs.Prelude.{◌≡◌, ◌-◌, ◌^◌, ◌+◌, ◌≤◌, ◌<◌, ◌++◌, ℕ, List, [], ◌∷◌, None, length, take, drop, min, vec_len, is_some, IsTrue, IsFalse, IfOk, OnOk, IfSome, MatchOption};
ghost use Rattle.std.specs.Int.{w32, to_be_bytes};
ghost use Rattle.voy_disk.specs.Faults.{HasCause};
ghost use Rattle.voy_disk.specs.Files.{IfTold, bytes_now};
ghost use Rattle.voy_files.specs.Bytes.{OfBytes, StandsAt, bytes_between, bytes_left, held, unread};

use crate::limits::PIECE_BYTES;
use crate::piece::ByteReader;
use std::alloc::{AllocError, Global};
use voy_disk::{Disk, DiskError, Name};

impl ByteReader {
    /// A reader of the first `end` bytes of a file.
    pub fn new(alloc: Global, end: u64) -> ByteReader
        ensures unread { (bytes : List ℕ) → unread result bytes ≡ take end bytes }
        ensures left { bytes_left result ≡ end }
        ensures stands { StandsAt result 0 }
    {
        ByteReader::between(alloc, 0, end)
    }

    /// A reader of the bytes of a file from one offset up to another. A file that ends before has fewer.
    pub fn between(alloc: Global, start: u64, end: u64) -> ByteReader
        ensures unread { (bytes : List ℕ) → unread result bytes ≡ bytes_between start end bytes }
        ensures left { bytes_left result ≡ end - start }
        ensures stands { StandsAt result start }
    {
        ByteReader {
            at: start,
            end,
            piece: Vec::new(alloc),
            from: 0,
        }
    }

    /// A reader of all bytes that a file has now; `None` exactly where there is no such file.
    pub fn open<D: Disk>(
        alloc: Global,
        disk: &mut D,
        name: &Name,
    ) -> Result<Option<ByteReader>, DiskError>
        ensures absent { IfOk result (λ found. IfTold (D.files disk.old) (λ fs.
            MatchOption found (fs name.now ≡ None) (λ reader. unread reader (bytes_now (fs name.now)) ≡ bytes_now (fs name.now)))) }
        ensures found { IfOk result (λ found. IfTold (D.files disk.old) (λ fs. is_some found ≡ is_some (fs name.now))) }
        ensures few { IfOk result (λ found. IfSome found (λ reader. bytes_left reader < 2 ^ 63)) }
        ensures stands { IfOk result (λ found. IfSome found (λ reader. StandsAt reader 0)) }
        ensures same { D.files disk.new ≡ D.files disk.old }
        ensures cause { HasCause DiskError.Failed (D.faults disk.old) (D.faults disk.new) result }
        ensures lender { D.lender disk.new ≡ D.lender disk.old }
    {
        let Some(end) = disk.len(name)? else {
            return Ok(None);
        };
        Ok(Some(ByteReader::new(alloc, end)))
    }

    /// Whether a byte is at hand. The next piece is read where the last one is used up.
    pub fn fill<D: Disk>(&mut self, disk: &mut D, name: &Name) -> Result<bool, DiskError>
        ensures held { IfOk result (λ some. IsTrue some → 0 < length (held self.new)) }
        ensures none { IfOk result (λ some. OfBytes (D.files disk.old) name.now (λ bytes. IsFalse some → unread self.old bytes ≡ [])) }
        ensures unread { IfOk result (λ some. OfBytes (D.files disk.old) name.now (λ bytes. unread self.new bytes ≡ unread self.old bytes)) }
        ensures stands { IfOk result (λ some. (offset : ℕ) → StandsAt self.old offset → StandsAt self.new offset) }
        ensures fewer { IfOk result (λ some. bytes_left self.new ≤ bytes_left self.old) }
        ensures same { D.files disk.new ≡ D.files disk.old }
        ensures cause { HasCause DiskError.Failed (D.faults disk.old) (D.faults disk.new) result }
        ensures lender { D.lender disk.new ≡ D.lender disk.old }
    {
        if self.from < self.piece.len() {
            return Ok(true);
        }
        self.from = 0;
        self.piece.clear();
        if self.at >= self.end {
            return Ok(false);
        }
        let room = smaller(self.end - self.at, PIECE_BYTES);
        self.piece.resize(room, 0)?;
        let count = disk.read_at(name, self.at, &mut self.piece)?;
        self.piece.truncate(count);
        self.at += count as u64;
        Ok(count > 0)
    }

    /// The next byte, or `None` where none is left.
    pub fn take_byte<D: Disk>(&mut self, disk: &mut D, name: &Name) -> Result<Option<u8>, DiskError>
        ensures taken { IfOk result (λ taken. OfBytes (D.files disk.old) name.now (λ bytes.
            MatchOption taken (unread self.old bytes ≡ []) (λ byte. unread self.old bytes ≡ byte ∷ unread self.new bytes))) }
        ensures stands { IfOk result (λ taken. IfSome taken (λ _. (offset : ℕ) → StandsAt self.old offset → StandsAt self.new (offset + 1))) }
        ensures fewer { IfOk result (λ taken. IfSome taken (λ _. bytes_left self.new + 1 ≤ bytes_left self.old)) }
        ensures same { D.files disk.new ≡ D.files disk.old }
        ensures cause { HasCause DiskError.Failed (D.faults disk.old) (D.faults disk.new) result }
        ensures lender { D.lender disk.new ≡ D.lender disk.old }
    {
        if !self.fill(disk, name)? {
            return Ok(None);
        }
        let byte = self.piece[self.from];
        self.from += 1;
        Ok(Some(byte))
    }

    /// The number in the next four bytes, the highest first, or `None` where fewer are left.
    pub fn take_number<D: Disk>(
        &mut self,
        disk: &mut D,
        name: &Name,
    ) -> Result<Option<u32>, DiskError>
        ensures taken { IfOk result (λ taken. OfBytes (D.files disk.old) name.now (λ bytes.
            MatchOption taken (length (unread self.old bytes) < 4) (λ number. unread self.old bytes ≡ to_be_bytes w32 number ++ unread self.new bytes))) }
        ensures stands { IfOk result (λ taken. IfSome taken (λ _. (offset : ℕ) → StandsAt self.old offset → StandsAt self.new (offset + 4))) }
        ensures fewer { IfOk result (λ taken. IfSome taken (λ _. bytes_left self.new + 4 ≤ bytes_left self.old)) }
        ensures same { D.files disk.new ≡ D.files disk.old }
        ensures cause { HasCause DiskError.Failed (D.faults disk.old) (D.faults disk.new) result }
        ensures lender { D.lender disk.new ≡ D.lender disk.old }
    {
        let Some(first) = self.take_byte(disk, name)? else {
            return Ok(None);
        };
        let Some(second) = self.take_byte(disk, name)? else {
            return Ok(None);
        };
        let Some(third) = self.take_byte(disk, name)? else {
            return Ok(None);
        };
        let Some(fourth) = self.take_byte(disk, name)? else {
            return Ok(None);
        };
        Ok(Some(u32::from_be_bytes([first, second, third, fourth])))
    }

    /// The next `size` bytes, or `None` where fewer are left. No memory is taken for bytes that the file
    /// has not.
    pub fn take<D: Disk>(
        &mut self,
        disk: &mut D,
        name: &Name,
        size: usize,
    ) -> Result<Option<Vec<u8>>, DiskError>
        ensures taken { IfOk result (λ taken. OfBytes (D.files disk.old) name.now (λ bytes.
            MatchOption taken (length (unread self.old bytes) < size) (λ part. unread self.old bytes ≡ part.items ++ unread self.new bytes))) }
        ensures size { IfOk result (λ taken. IfSome taken (λ part. vec_len part ≡ size)) }
        ensures stands { IfOk result (λ taken. IfSome taken (λ _. (offset : ℕ) → StandsAt self.old offset → StandsAt self.new (offset + size))) }
        ensures fewer { IfOk result (λ taken. IfSome taken (λ _. bytes_left self.new + size ≤ bytes_left self.old)) }
        ensures same { D.files disk.new ≡ D.files disk.old }
        ensures cause { HasCause DiskError.Failed (D.faults disk.old) (D.faults disk.new) result }
        ensures lender { D.lender disk.new ≡ D.lender disk.old }
    {
        if self.left() < size as u64 {
            return Ok(None);
        }
        let mut part = Vec::with_capacity(*self.piece.allocator(), size)?;
        while part.len() < size {
            if !self.fill(disk, name)? {
                return Ok(None);
            }
            self.take_held(size - part.len(), &mut part)?;
        }
        Ok(Some(part))
    }

    /// The bytes at hand that were not taken yet.
    pub(crate) fn held(&self) -> &[u8]
        requires { 0 < length (held self.now) }
        ensures { result.now ≡ held self.now }
    {
        bytes_from(&self.piece, self.from)
    }

    /// Takes that many of the bytes at hand.
    pub(crate) fn skip(&mut self, count: usize)
        requires { count ≤ length (held self.old) }
        ensures held { held self.new ≡ drop count (held self.old) }
        ensures at { self.new.at ≡ self.old.at }
        ensures end { self.new.end ≡ self.old.end }
    {
        self.from += count;
    }

    /// Moves bytes at hand behind those of `to`, as many as there are and are wanted.
    pub(crate) fn take_held(&mut self, wanted: usize, to: &mut Vec<u8>) -> Result<(), AllocError>
        requires { 0 < length (held self.old) }
        ensures moves { OnOk result (to.new.items ++ held self.new ≡ to.old.items ++ held self.old) }
        ensures count { OnOk result (vec_len to.new ≡ vec_len to.old + min wanted (length (held self.old))) }
        ensures at { self.new.at ≡ self.old.at }
        ensures end { self.new.end ≡ self.old.end }
    {
        let held = self.held();
        let count = smaller(wanted as u64, held.len());
        to.extend_from_slice(&held[..count])?;
        self.skip(count);
        Ok(())
    }

    /// The bytes that were read from the disk and not taken yet, from the next one on.
    pub fn ahead(&self) -> &[u8]
        ensures bytes { result.now ≡ held self.now }
        ensures few { length result.now ≤ PIECE_BYTES }
    {
        self.piece.as_slice().get(self.from..).unwrap_or(&[])
    }

    /// The offset in the file of the next byte.
    pub fn offset(&self) -> u64
        ensures { (offset : ℕ) → StandsAt self.now offset → result ≡ offset }
    {
        let held = self.piece.len().saturating_sub(self.from) as u64;
        self.at.saturating_sub(held)
    }

    /// At most how many bytes are left; the last number of its type where they are more.
    fn left(&self) -> u64
        ensures { result ≡ min (bytes_left self.now) (2 ^ 64 - 1) }
    {
        let held = self.piece.len().saturating_sub(self.from) as u64;
        self.end.saturating_sub(self.at).saturating_add(held)
    }
}

/// The smaller of a number of bytes and the room for them.
fn smaller(left: u64, room: usize) -> usize
    ensures { result ≡ min left room }
{
    if left < room as u64 {
        left as usize
    } else {
        room
    }
}

/// The bytes from a place on.
fn bytes_from(bytes: &[u8], from: usize) -> &[u8]
    requires { from ≤ length bytes.now }
    ensures { result.now ≡ drop from bytes.now }
{
    &bytes[from..]
}
