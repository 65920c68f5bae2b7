use crate::disk_calls::answer;
use std::alloc::{AllocGlobal, Global};
use std::process::Abort;
use std::test::Fail;
use voy_disk::{Disk, MemDisk};
use voy_test_disks::{name_of, stopping_disk};

/// How many outages are tried.
const CHOICES: u64 = 50;

/// Eight calls.
const WORK: &str = "\
create table.batch.tmp
write table.batch.tmp 0 0123
sync table.batch.tmp
write table.batch.tmp 4 45
cut table.batch.tmp 5
write table.batch.tmp 5 XY
sync table.batch.tmp
rename table.batch.tmp table.batch.1
";

/// What may be left where so many of the calls of [`WORK`] have ended and the next one may have begun: the first
/// bytes, the greatest length, and under which names.
struct Case {
    ended: usize,
    front: &'static str,
    longest: usize,
    names: &'static str,
}

fn cases() -> &'static [Case] {
    &[
        Case {
            ended: 1,
            front: "",
            longest: 4,
            names: "old",
        },
        Case {
            ended: 2,
            front: "",
            longest: 4,
            names: "old",
        },
        Case {
            ended: 3,
            front: "0123",
            longest: 6,
            names: "old",
        },
        Case {
            ended: 4,
            front: "0123",
            longest: 6,
            names: "old",
        },
        Case {
            ended: 5,
            front: "0123",
            longest: 7,
            names: "old",
        },
        Case {
            ended: 6,
            front: "0123",
            longest: 7,
            names: "old",
        },
        Case {
            ended: 7,
            front: "01234XY",
            longest: 7,
            names: "either",
        },
        Case {
            ended: 8,
            front: "01234XY",
            longest: 7,
            names: "new",
        },
    ]
}

#[test]
fn a_stop_after_each_call_leaves_images_alone(rt: HostRuntime) -> Result<(), Fail> {
    for case in cases() {
        try_stops(&rt, case)?;
    }
    Ok(())
}

/// The shortest and the longest of what outages leave.
fn try_stops(rt: &(impl Abort + AllocGlobal), case: &Case) -> Result<(), Fail> {
    let (mut least, mut most) = (usize::MAX, 0);
    for choice in 0..CHOICES {
        let plain = left_by(rt, case, None, choice)?;
        let failed = left_by(rt, case, Some(choice % 5), choice)?;
        least = least.min(plain).min(failed);
        most = most.max(plain).max(failed);
    }
    let ended = case.ended;
    assert_eq!(rt; least, case.front.len(), "after {ended} calls");
    assert_eq!(rt; most, case.longest, "after {ended} calls");
    Ok(())
}

/// The length of what an outage leaves, once it is found to be one of the things that may be left.
fn left_by(
    rt: &(impl Abort + AllocGlobal),
    case: &Case,
    leaves: Option<u64>,
    choice: u64,
) -> Result<usize, Fail> {
    let mut disk = stopped(rt.alloc(), case.ended, leaves)?;
    disk.crash(choice)?;
    let ended = case.ended;
    let old = file_of(rt.alloc(), &disk, "table.batch.tmp")?;
    let new = file_of(rt.alloc(), &disk, "table.batch.1")?;
    let (left, name) = match (old, new) {
        (Some(left), None) => (left, "old"),
        (None, Some(left)) => (left, "new"),
        _ => return Err("not one file".into()),
    };
    assert!(rt;
        may_be_left(case, name, left.as_slice()),
        "after {ended} calls"
    );
    Ok(left.len())
}

fn may_be_left(case: &Case, name: &str, left: &[u8]) -> bool {
    (case.names == name || case.names == "either")
        && left.starts_with(case.front.as_bytes())
        && left.len() <= case.longest
}

/// A disk on which so many calls of [`WORK`] have ended; the next one fails where `leaves` says what it leaves.
fn stopped(alloc: Global, ended: usize, leaves: Option<u64>) -> Result<MemDisk, Fail> {
    let (dead_from, most) = match leaves {
        Some(_leaves) => (ended.saturating_add(1), 8),
        None => (0, ended),
    };
    let mut disk = stopping_disk(alloc, dead_from as u64, leaves.unwrap_or(0));
    work(alloc, &mut disk, most)?;
    Ok(disk)
}

/// So many of the calls, up to the first that fails.
fn work(alloc: Global, disk: &mut MemDisk, most: usize) -> Result<(), Fail> {
    for call in WORK.lines().take(most) {
        let answer = answer(alloc, disk, call)?;
        if answer.as_str() != "ok" {
            return Ok(());
        }
    }
    Ok(())
}

/// A copy of the bytes of a file, if it is there.
fn file_of(alloc: Global, disk: &MemDisk, name: &str) -> Result<Option<Vec<u8>>, Fail> {
    match disk.file(&name_of(alloc, name)?) {
        Some(bytes) => Ok(Some(Vec::from_slice(alloc, bytes)?)),
        None => Ok(None),
    }
}

/// What an outage may leave where the bytes at places 4 to 6 were written and not made safe.
fn is_image(bytes: &[u8]) -> bool {
    bytes.starts_with(b"0123") && bytes.len() >= 4 && bytes.len() <= 7
}

/// A safe file, and then three bytes behind the safe ones of another.
const TAIL: &str = "\
create meta.journal
write meta.journal 0 safe
sync meta.journal
write segment.0.ndjson 4 456
";

/// The disk after the calls of [`TAIL`], of which the last fails where the disk is dead from its fourth call.
fn before_an_outage(alloc: Global, dead_from: u64) -> Result<MemDisk, Fail> {
    let mut disk = stopping_disk(alloc, dead_from, 0);
    disk.put_file(&name_of(alloc, "segment.0.ndjson")?, b"0123")?;
    for call in TAIL.lines() {
        let _answer = answer(alloc, &mut disk, call)?;
    }
    Ok(disk)
}

/// How long an outage leaves the file that was touched, once each file is found to be an image.
fn tail_left(rt: &(impl Abort + AllocGlobal), dead_from: u64, choice: u64) -> Result<usize, Fail> {
    let alloc = rt.alloc();
    let mut disk = before_an_outage(alloc, dead_from)?;
    assert_eq!(rt; disk.dead(), dead_from > 0);
    disk.crash(choice)?;
    assert_eq!(rt; disk.dead(), false);
    let safe = file_of(alloc, &disk, "meta.journal")?.ok_or("the safe file is gone")?;
    assert_eq!(rt;
        safe.as_slice(),
        b"safe".as_slice(),
        "after choice {choice}"
    );
    let left = file_of(alloc, &disk, "segment.0.ndjson")?.ok_or("the file is gone")?;
    assert!(rt; is_image(left.as_slice()), "after choice {choice}");
    assert_eq!(rt; disk.list()?.as_slice().len(), 2);
    Ok(left.len())
}

#[test]
fn an_outage_leaves_an_image_of_each_file(rt: HostRuntime) -> Result<(), Fail> {
    let mut lengths = [false; 8];
    for choice in 0..CHOICES {
        tail_left(&rt, 4, choice)?;
        let length = tail_left(&rt, 0, choice)?;
        if let Some(was_left) = lengths.get_mut(length) {
            *was_left = true;
        }
    }
    assert_eq!(rt;
        lengths,
        [false, false, false, false, true, true, true, true]
    );
    Ok(())
}
