ghost use Rattle.std.specs.Prelude.{◌≡◌, ◌≤◌, ◌<◌, ◌+◌, ◌-◌, ◌^◌, IfOk, OnOk, OnErr, drop, length, take};
ghost use Rattle.voy_disk.specs.File.{settled, touch, written};
ghost use Rattle.voy_disk.specs.Lowest.{lowest_of};
ghost use Rattle.voy_disk.specs.MemFiles.{file_of};

use crate::memory::file::MemFile;
use std::alloc::{AllocError, Global};

impl MemFile {
    // Writes `bytes` at a place, and touches `count` bytes from it. After an error nothing changed.
    pub(crate) fn write(&mut self, at: usize, bytes: &[u8], count: u64) -> Result<(), AllocError>
        requires at { at ≤ length self.old.bytes.items }
        requires count { length bytes.now ≤ count }
        ensures ok { OnOk result (file_of self.new ≡ touch (file_of self.old) at count (written self.old.bytes.items at bytes.now)) }
        ensures fits { OnOk result (at + length bytes.now < 2 ^ 63) }
        ensures err { OnErr result (file_of self.new ≡ file_of self.old) }
    {
        self.touched.reserve(1)?;
        overwrite(&mut self.bytes, at, bytes)?;
        self.touched.push_reserved((at as u64, count));
        Ok(())
    }

    // Keeps the first `keep` bytes, and touches all from the place `to`. After an error nothing changed.
    pub(crate) fn cut(&mut self, to: usize, keep: usize) -> Result<(), AllocError>
        requires to { to ≤ keep }
        requires keep { keep ≤ length self.old.bytes.items }
        ensures ok { OnOk result (file_of self.new ≡ touch (file_of self.old) to (length self.old.bytes.items - to) (take keep self.old.bytes.items)) }
        ensures err { OnErr result (file_of self.new ≡ file_of self.old) }
    {
        self.touched.reserve(1)?;
        let count = self.bytes.len() - to;
        self.bytes.truncate(keep);
        self.touched.push_reserved((to as u64, count as u64));
        Ok(())
    }

    // Makes all bytes safe, which takes no longer than those from the lowest touched place on. After an
    // error nothing changed.
    pub(crate) fn sync(&mut self) -> Result<(), AllocError>
        ensures ok { OnOk result (file_of self.new ≡ settled self.old.bytes.items) }
        ensures err { OnErr result (file_of self.new ≡ file_of self.old) }
    {
        let low = lowest(&self.touched, self.bytes.len() as u64) as usize;
        self.safe
            .reserve_exact(self.bytes.len().saturating_sub(self.safe.len()))?;
        self.safe.truncate(low);
        self.safe.extend_from_slice(&self.bytes[low..])?;
        self.touched.clear();
        Ok(())
    }
}

// Puts bytes in place of those that stand at a place and behind it, with room for no more. After an error
// nothing changed.
fn overwrite(bytes: &mut Vec<u8>, at: usize, new: &[u8]) -> Result<(), AllocError>
    requires { at ≤ length bytes.old.items }
    ensures ok { OnOk result (bytes.new.items ≡ written bytes.old.items at new.now) }
    ensures fits { OnOk result (at + length new.now < 2 ^ 63) }
    ensures err { OnErr result (bytes.new.items ≡ bytes.old.items) }
{
    let over = new.len().min(bytes.len() - at);
    bytes.reserve_exact(new.len() - over)?;
    bytes.extend_from_slice(&new[over..])?;
    bytes[at..at + over].copy_from_slice(&new[..over]);
    Ok(())
}

// The lowest start of the ranges, or `end` where none is below it.
fn lowest(touched: &[(u64, u64)], end: u64) -> u64
    ensures { result ≡ lowest_of end touched.now }
{
    let mut low = end;
    for range in touched {
        low = low.min(range.0);
    }
    low
}
