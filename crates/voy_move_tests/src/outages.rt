use crate::metadata::SNAPSHOT;
use std::alloc::{AllocGlobal, Global};
use std::process::Abort;
use std::test::Fail;
use voy_disk::MemDisk;
use voy_journal::Journal;
use voy_meta::Meta;
use voy_tables::Side;
use voy_test_disks::{failing_disk, name_of, stopping_disk};

/// How many calls of a disk the opening of absent metadata takes, and each further record.
const OPENING_CALLS: u64 = 9;

const PUT_CALLS: u64 = 4;

/// How many outages are tried at each call, and how many ways in which a call that fails leaves its file.
const CHOICES: u64 = 50;

const LEAVES: u64 = 10;

/// The payloads that are put, in order: the version, the snapshot and the request.
const PAYLOADS: [&str; 3] = [
    "[1, 2]",
    "[2, 0, 0, 0, 0, 0, 0, 0, 1, 0, 0, 0, 0, 0, 0, 0, 0, 0, 0, 0, 0, 0, 0, 0, 0]",
    "[4, 116, 1]",
];

/// Opens absent metadata, puts the snapshot and asks for the cutover to the target, up to the first error.
fn work(alloc: Global, disk: &mut MemDisk) {
    let Ok(mut meta) = Meta::open(alloc, disk) else {
        return;
    };
    if !meta.allowed(&SNAPSHOT) {
        return;
    }
    let Ok(()) = meta.put(disk, SNAPSHOT) else {
        return;
    };
    let _ = meta.request_cutover(disk, Side::Target, true);
}

/// The payloads of `meta.journal`, one behind the other.
fn payloads_on(alloc: Global, disk: &mut MemDisk) -> Result<String, Fail> {
    let opened = Journal::open(alloc, disk, name_of(alloc, "meta.journal")?)?;
    let mut shown = String::new(alloc);
    for payload in opened.payloads.as_slice() {
        let bytes = payload.as_slice();
        let next = format!(in alloc; "{bytes:?}")?;
        shown.push_str(next.as_str())?;
    }
    Ok(shown)
}

/// The first of the payloads that are put, so many.
fn first_payloads(alloc: Global, count: usize) -> Result<String, Fail> {
    let mut shown = String::new(alloc);
    for payload in PAYLOADS.iter().take(count) {
        shown.push_str(payload)?;
    }
    Ok(shown)
}

/// Whether the payloads are the first so many that are put, or one more.
fn are_first(alloc: Global, stand: &str, count: usize) -> Result<bool, Fail> {
    let (old, new) = (
        first_payloads(alloc, count)?,
        first_payloads(alloc, count.saturating_add(1))?,
    );
    Ok(stand == old.as_str() || stand == new.as_str())
}

/// How many records were acknowledged before this call of the disk.
fn acknowledged(call: u64) -> usize {
    if call <= OPENING_CALLS {
        0
    } else if call <= OPENING_CALLS + PUT_CALLS {
        1
    } else {
        2
    }
}

/// The work, which this call stops, an outage, and what stands then.
fn try_stop(rt: &(impl Abort + AllocGlobal), call: u64, choice: u64) -> Result<(), Fail> {
    let alloc = rt.alloc();
    let mut disk = stopping_disk(alloc, call, choice);
    work(alloc, &mut disk);
    disk.crash(choice)?;
    let stand = payloads_on(alloc, &mut disk)?;
    let is_so = are_first(alloc, stand.as_str(), acknowledged(call))?;
    assert!(rt; is_so, "stopped at call {call}, outage {choice}");
    Ok(())
}

/// The work, of which this call alone fails, and what stands then on the same disk.
fn try_fault(rt: &(impl Abort + AllocGlobal), call: u64, leaves: u64) -> Result<(), Fail> {
    let alloc = rt.alloc();
    let mut disk = failing_disk(alloc, call, leaves)?;
    work(alloc, &mut disk);
    let stand = payloads_on(alloc, &mut disk)?;
    let is_so = are_first(alloc, stand.as_str(), acknowledged(call))?;
    assert!(rt; is_so, "call {call} failed, and left {leaves}");
    Ok(())
}

#[test]
fn with_no_stop_all_records_stand(rt: HostRuntime) -> Result<(), Fail> {
    let alloc = rt.alloc();
    let mut disk = stopping_disk(alloc, 0, 0);
    work(alloc, &mut disk);
    let calls = disk.calls();
    let stand = payloads_on(alloc, &mut disk)?;
    let all = first_payloads(alloc, PAYLOADS.len())?;
    assert_eq!(rt; calls, OPENING_CALLS + 2 * PUT_CALLS);
    assert_eq!(rt; stand.as_str(), all.as_str());
    Ok(())
}

#[test]
fn a_stop_leaves_the_old_records_or_these_and_the_new_one(rt: HostRuntime) -> Result<(), Fail> {
    for call in 1..=OPENING_CALLS + 2 * PUT_CALLS {
        for choice in 0..CHOICES {
            try_stop(&rt, call, choice)?;
        }
    }
    Ok(())
}

#[test]
fn a_fault_leaves_the_old_records_or_these_and_the_new_one(rt: HostRuntime) -> Result<(), Fail> {
    for call in 1..=OPENING_CALLS + 2 * PUT_CALLS {
        for leaves in 0..LEAVES {
            try_fault(&rt, call, leaves)?;
        }
    }
    Ok(())
}
