ghost use Rattle.std.specs.Prelude.{◌≡◌, ◌≤◌, ◌+◌, ◌%◌, ◌++◌, ℕ, List, IfOk, OnOk, Some, string_bytes, drop, length, take};
ghost use Rattle.std.specs.BTreeMap.{get_by_text};
ghost use Rattle.std.specs.Map.{update};
ghost use Rattle.std.specs.Str.{bytes_eq};
ghost use Rattle.voy_disk.specs.File.{settled};
ghost use Rattle.voy_disk.specs.Images.{Outage};
ghost use Rattle.voy_disk.specs.MemFiles.{IsLeftOf, file_of, files_of};

use crate::memory::file::MemFile;
use crate::memory::files::MemFiles;
use std::alloc::{AllocError, Global};
use std::collections::BTreeMap;

// What an outage leaves of the files: of each an image that `choice` picks.
pub(crate) fn left_of(alloc: Global, files: &MemFiles, choice: u64) -> Result<MemFiles, AllocError>
    ensures { IfOk result (λ left. Outage (files_of files.now) (files_of left)) }
{
    let mut left = BTreeMap::new(alloc);
    let mut draw = choice;
    for (name, file) in files {
        draw = next_draw(draw);
        let file = file.left(alloc, draw)?;
        let name = name.clone()?;
        insert(&mut left, name, file)?;
    }
    Ok(left)
}

fn insert(files: &mut MemFiles, name: String, file: MemFile) -> Result<(), AllocError>
    ensures { OnOk result ((q : List ℕ) → get_by_text files.new q ≡ update bytes_eq (get_by_text files.old) (string_bytes name) (Some file) q) }
{
    files.insert(name, file)?;
    Ok(())
}

// The next of a row of numbers whose upper bits look as if they were drawn (Knuth's MMIX generator).
fn next_draw(draw: u64) -> u64 {
    draw.wrapping_mul(6_364_136_223_846_793_005)
        .wrapping_add(1_442_695_040_888_963_407)
}

impl MemFile {
    // An image of the file that the upper bits of `draw` pick: what reads now up to a place and what is
    // safe behind it, or the other way round.
    fn left(&self, alloc: Global, draw: u64) -> Result<MemFile, AllocError>
        ensures { IfOk result (IsLeftOf (file_of self.now)) }
    {
        let place = draw >> 33;
        if place % 2 == 0 {
            mixed(alloc, &self.bytes, &self.safe, place / 2)
        } else {
            mixed(alloc, &self.safe, &self.bytes, place / 2)
        }
    }
}

// The bytes of one list up to a place of it, and those of another from there on, all safe.
fn mixed(alloc: Global, front: &[u8], behind: &[u8], place: u64) -> Result<MemFile, AllocError>
    ensures { IfOk result (λ file. file_of file ≡ settled (take (place % (length front.now + 1)) front.now ++ drop (place % (length front.now + 1)) behind.now)) }
{
    let at = (place % (front.len() as u64 + 1)) as usize;
    let mut bytes = Vec::from_slice(alloc, &front[..at])?;
    if at < behind.len() {
        bytes.extend_from_slice(&behind[at..])?;
    }
    MemFile::settled(alloc, &bytes)
}
