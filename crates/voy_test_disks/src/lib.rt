//! The disks of tests: in memory, with a plan of calls that fail, or with a file.
#![tactic(auto)]

use std::alloc::Global;
use std::test::Fail;
use voy_disk::{FaultPlan, MemDisk, Name, Numbers, SureDisk};

/// The name of a file.
pub fn name_of(alloc: Global, text: &str) -> Result<Name, Fail> {
    let name = Name::new(alloc, text)?.ok_or("the text is no file name")?;
    Ok(name)
}

/// A disk all of whose calls fail from this one on, and leave what `leaves` picks; 0 for no such call.
pub fn stopping_disk(alloc: Global, call: u64, leaves: u64) -> MemDisk {
    let plan = FaultPlan {
        fail: Numbers::from_vec(Vec::new(alloc)),
        dead_from: call,
        leaves,
    };
    MemDisk::new(alloc, plan)
}

/// A disk of which just this call fails, and leaves what `leaves` picks.
pub fn failing_disk(alloc: Global, call: u64, leaves: u64) -> Result<MemDisk, Fail> {
    let mut calls = Vec::new(alloc);
    calls.push(call)?;
    let plan = FaultPlan {
        fail: Numbers::from_vec(calls),
        dead_from: 0,
        leaves,
    };
    Ok(MemDisk::new(alloc, plan))
}

/// A disk with this file alone.
pub fn disk_with(alloc: Global, name: &str, bytes: &[u8]) -> Result<SureDisk, Fail> {
    let mut disk = SureDisk::new(alloc);
    disk.put_file(&name_of(alloc, name)?, bytes)?;
    Ok(disk)
}
