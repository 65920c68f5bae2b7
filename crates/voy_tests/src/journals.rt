ghost use Rattle.std.specs.Prelude.{IsTrue};
ghost use Rattle.voy_journal.specs.Journal.{StandsOn, is_live};

use std::alloc::{AllocGlobal, Global};
use std::process::Abort;
use std::test::Fail;
use voy_disk::{Disk, MemDisk, SureDisk};
use voy_journal::{Journal, JournalError, Payloads};
use voy_test_disks::{failing_disk, name_of, stopping_disk};

/// The name of the journal's file.
const NAME: &str = "meta.journal";

/// How many calls of a disk the opening of an absent journal takes, and an append.
const OPENING_CALLS: u64 = 5;

const APPEND_CALLS: u64 = 4;

/// How many outages are tried at each call.
const CHOICES: u64 = 50;

fn payloads_on<D: Disk>(alloc: Global, disk: &mut D) -> Result<Payloads, Fail> {
    let opened = Journal::open(alloc, disk, name_of(alloc, NAME)?)?;
    Ok(opened.payloads)
}

/// Appends the payloads 1 1, 2 2 and so on, up to the first error. How many were acknowledged.
fn append_pairs<D: Disk>(journal: &mut Journal, disk: &mut D, count: u8) -> u8
    requires live { IsTrue (is_live journal.old) }
    requires stands { StandsOn journal.old (D.files disk.old) }
{
    let mut acknowledged = 0;
    'pairs: for byte in 1..=count {
        match journal.append(disk, &[byte, byte]) {
            Ok(()) => acknowledged = byte,
            Err(_) => return acknowledged,
        }
    }
    acknowledged
}

/// Appends as many of the letter a as the first length says, as many of b as the second, and so on.
fn append_letters<D: Disk>(
    alloc: Global,
    journal: &mut Journal,
    disk: &mut D,
    lengths: &[usize],
) -> Result<(), Fail>
    requires live { IsTrue (is_live journal.old) }
    requires stands { StandsOn journal.old (D.files disk.old) }
{
    'letters: for (length, letter) in lengths.iter().zip(b'a'..=b'z') {
        let mut payload = Vec::new(alloc);
        payload.resize(*length, letter)?;
        journal.append(disk, &payload)?;
    }
    Ok(())
}

/// They are the first of 1 1, 2 2 and so on.
fn are_pairs(payloads: &[Vec<u8>]) -> bool {
    payloads.iter().zip(1..=u8::MAX).all(|(payload, byte)| payload.as_slice()
        == [byte, byte].as_slice())
}

/// What an outage leaves of a disk that stopped at a call of some appends.
#[derive(Drop)]
struct Left {
    disk: MemDisk,
    acknowledged: u8,
}

fn stopped_at(alloc: Global, call: u64, choice: u64, appends: u8) -> Result<Left, Fail> {
    let mut disk = stopping_disk(alloc, OPENING_CALLS.saturating_add(call), choice);
    let mut opened = Journal::open(alloc, &mut disk, name_of(alloc, NAME)?)?;
    let acknowledged = append_pairs(&mut opened.journal, &mut disk, appends);
    disk.crash(choice)?;
    Ok(Left { disk, acknowledged })
}

/// Three appends, of which this call stops, an outage, an opening and one more append.
fn try_outage(rt: &(impl Abort + AllocGlobal), call: u64, choice: u64) -> Result<(), Fail> {
    let mut left = stopped_at(rt.alloc(), call, choice, 3)?;
    let stood = append_new(rt.alloc(), &mut left.disk)?;
    let stand = payloads_on(rt.alloc(), &mut left.disk)?;
    assert!(rt;
        goes_on(left.acknowledged, &stood, stand.as_slice()),
        "stopped at call {call}, outage {choice}"
    );
    Ok(())
}

/// Appends `new`, and gives the payloads that stood before.
fn append_new(alloc: Global, disk: &mut MemDisk) -> Result<Vec<Vec<u8>>, Fail> {
    let mut opened = Journal::open(alloc, disk, name_of(alloc, NAME)?)?;
    opened.journal.append(disk, b"new")?;
    Ok(opened.payloads.into_vec())
}

/// At most three pairs stood and at least those that were acknowledged, and `new` behind them now.
fn goes_on(acknowledged: u8, stood: &[Vec<u8>], stand: &[Vec<u8>]) -> bool {
    let Some((last, others)) = stand.split_last() else {
        return false;
    };
    stood.len() >= acknowledged as usize
        && stood.len() <= 3
        && are_pairs(stood)
        && others == stood
        && last.as_slice() == b"new".as_slice()
}

fn try_fault_at_opening(rt: &(impl Abort + AllocGlobal), call: u64) -> Result<(), Fail> {
    let alloc = rt.alloc();
    let mut disk = stopping_disk(alloc, call, 0);
    let opened = Journal::open(alloc, &mut disk, name_of(alloc, NAME)?);
    assert!(rt;
        matches!(opened, Err(JournalError::Fault)),
        "at call {call}"
    );
    Ok(())
}

fn try_fault_at_append(rt: &(impl Abort + AllocGlobal), call: u64) -> Result<(), Fail> {
    let alloc = rt.alloc();
    let mut disk = stopping_disk(alloc, OPENING_CALLS.saturating_add(call), 0);
    let mut opened = Journal::open(alloc, &mut disk, name_of(alloc, NAME)?)?;
    let appended = opened.journal.append(&mut disk, &[1, 1]);
    assert_eq!(rt; appended, Err(JournalError::Fault), "at call {call}");
    assert!(rt; !opened.journal.live());
    Ok(())
}

/// One append that this call stops, and an outage: at most so many payloads stand.
fn try_stop(
    rt: &(impl Abort + AllocGlobal),
    call: u64,
    choice: u64,
    most: usize,
) -> Result<(), Fail> {
    let mut left = stopped_at(rt.alloc(), call, choice, 1)?;
    let stand = payloads_on(rt.alloc(), &mut left.disk)?;
    let found = stand.as_slice();
    assert!(rt;
        left.acknowledged == 0 && found.len() <= most && are_pairs(found),
        "stopped at call {call}, outage {choice}"
    );
    Ok(())
}

/// One append of which this call alone fails, an opening of the same disk, and one more append: at most so many
/// payloads stood before.
fn try_fault(
    rt: &(impl Abort + AllocGlobal),
    call: u64,
    leaves: u64,
    most: usize,
) -> Result<(), Fail> {
    let alloc = rt.alloc();
    let mut disk = failing_disk(alloc, OPENING_CALLS.saturating_add(call), leaves)?;
    let mut opened = Journal::open(alloc, &mut disk, name_of(alloc, NAME)?)?;
    let appended = opened.journal.append(&mut disk, &[1, 1]);
    let stood = append_new(alloc, &mut disk)?;
    let stand = payloads_on(alloc, &mut disk)?;
    assert!(rt;
        appended.is_err() && stood.len() <= most && goes_on(0, &stood, stand.as_slice()),
        "call {call} failed, and left {leaves}"
    );
    Ok(())
}

#[test]
fn an_append_is_an_open_gate_a_length_the_payload_and_a_closed_gate(
    rt: HostRuntime,
) -> Result<(), Fail> {
    let alloc = rt.alloc();
    let mut disk = stopping_disk(alloc, 0, 0);
    let mut opened = Journal::open(alloc, &mut disk, name_of(alloc, NAME)?)?;
    let made = told(alloc, &disk)?;
    opened.journal.append(&mut disk, &[1, 1])?;
    let appended = told(alloc, &disk)?;
    let is_live = opened.journal.live();
    let stood = opened.payloads.as_slice().len();
    let stand = payloads_on(alloc, &mut disk)?;
    assert_eq!(rt; made.as_str(), "5 calls, [0]");
    assert_eq!(rt; appended.as_str(), "9 calls, [1, 0, 0, 0, 2, 1, 1, 0]");
    assert!(rt; is_live && stood == 0);
    assert!(rt; stand.as_slice().len() == 1 && are_pairs(stand.as_slice()));
    Ok(())
}

/// How many calls the disk had, and the bytes of the journal.
fn told(alloc: Global, disk: &MemDisk) -> Result<String, Fail> {
    let name = name_of(alloc, NAME)?;
    let (calls, bytes) = (disk.calls(), disk.file(&name).unwrap_or(&[]));
    Ok(format!(in alloc; "{calls} calls, {bytes:?}")?)
}

#[test]
fn an_append_that_stops_leaves_its_payload_only_once_the_gate_is_written(
    rt: HostRuntime,
) -> Result<(), Fail> {
    for (call, most) in [(1, 0), (2, 0), (3, 1), (4, 1)] {
        for choice in 0..CHOICES {
            try_stop(&rt, call, choice, most)?;
        }
    }
    Ok(())
}

#[test]
fn after_an_outage_each_acknowledged_payload_stands_and_appends_go_on(
    rt: HostRuntime,
) -> Result<(), Fail> {
    let alloc = rt.alloc();
    for call in 1..=3 * APPEND_CALLS {
        for choice in 0..CHOICES {
            try_outage(&rt, call, choice)?;
        }
    }
    Ok(())
}

#[test]
fn a_fault_is_handed_on_and_ends_the_journal(rt: HostRuntime) -> Result<(), Fail> {
    for call in 1..=OPENING_CALLS {
        try_fault_at_opening(&rt, call)?;
    }
    for call in 1..=APPEND_CALLS {
        try_fault_at_append(&rt, call)?;
    }
    Ok(())
}

#[test]
fn a_journal_opens_again_on_the_disk_where_one_call_of_an_append_failed(
    rt: HostRuntime,
) -> Result<(), Fail> {
    for (call, most) in [(1, 0), (2, 0), (3, 1), (4, 1)] {
        for leaves in 0..10 {
            try_fault(&rt, call, leaves, most)?;
        }
    }
    Ok(())
}

#[test]
fn payloads_may_span_the_pieces_that_are_read(rt: HostRuntime) -> Result<(), Fail> {
    let alloc = rt.alloc();
    let lengths = [65_525, 0, 3, 200_000, 1, 65_536, 2];
    let mut disk = SureDisk::new(alloc);
    let mut opened = Journal::open(alloc, &mut disk, name_of(alloc, NAME)?)?;
    append_letters(alloc, &mut opened.journal, &mut disk, &lengths)?;
    let payloads = payloads_on(alloc, &mut disk)?;
    let found = payloads.as_slice();
    assert_eq!(rt; found.len(), lengths.len());
    for ((payload, length), letter) in found.iter().zip(lengths.iter()).zip(b'a'..=b'z') {
        assert_eq!(rt; payload.len(), *length);
        assert!(rt; payload.iter().all(|byte| *byte == letter));
    }
    Ok(())
}

#[test]
fn payloads_are_a_vector_of_vectors(rt: HostRuntime) -> Result<(), Fail> {
    let alloc = rt.alloc();
    let mut payloads = Payloads::new(alloc);
    payloads.push(Vec::from_slice(alloc, &[1, 1])?)?;
    let again = Payloads::from_vec(payloads.into_vec());
    assert_eq!(rt; again.as_slice().len(), 1);
    assert!(rt; are_pairs(again.as_slice()));
    Ok(())
}
