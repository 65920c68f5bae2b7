ghost use Rattle.std.specs.Prelude.{◌≡◌, true, IfOk};

use crate::made::users;
use crate::store_texts::{BATCH, commit, events, told};
use std::alloc::{AllocGlobal, Global};
use std::process::Abort;
use std::test::Fail;
use voy_disk::{Disk, SureDisk};
use voy_schema::{Copies, Schema};
use voy_store::{JournalStore, NotOpened, OpenError};
use voy_test_disks::{disk_with, name_of, stopping_disk};
use voy_txn::Store;

/// The name of the journal's file.
const NAME: &str = "store.journal";

/// How many calls of a disk the opening of an absent journal takes, and a commit.
pub(crate) const OPENING_CALLS: u64 = 5;

pub(crate) const COMMIT_CALLS: u64 = 4;

/// How many outages are tried at each call.
pub(crate) const CHOICES: u64 = 50;

/// The journal of a store that took the batch: an open gate, 25 bytes, and a closed gate.
const BATCH_JOURNAL: &[u8] = b"\x01\0\0\0\x19B\0\0\0\0\0\0\0\x01\0\0\0\x02\0\0\0\x081,a\n2,b\n\0";

/// What a store tells after none, one, two and three of the commits of [`commit_three`].
const AFTER: [&str; 4] = [
    "ok  0/0/0 0",
    "ok 1|a;2|b; 2/2/0 0",
    "ok 1|a;2|b;3|c; 3/2/1 1",
    "ok 1|a;3|b; 2/2/3 3",
];

#[test]
fn a_commit_is_one_payload_of_the_journal(rt: HostRuntime) -> Result<(), Fail> {
    let alloc = rt.alloc();
    let schema = users(alloc)?;
    let mut store = opened(alloc, &schema, SureDisk::new(alloc))?;
    let answer = commit(alloc, &schema, &mut store, BATCH)?;
    let committed = told(alloc, &store, answer)?;
    let disk = store.into_disk();
    let written = journal_of(alloc, &disk)?;
    let again = opened(alloc, &schema, disk)?;
    let stands = told(alloc, &again, Ok(()))?;
    assert_eq!(rt; committed.as_str(), AFTER[1]);
    assert_eq!(rt; written.as_slice(), BATCH_JOURNAL);
    assert_eq!(rt; stands.as_str(), AFTER[1]);
    assert!(rt; again.live() && again.has_batch(0, 1));
    Ok(())
}

#[test]
fn a_refused_commit_leaves_the_journal(rt: HostRuntime) -> Result<(), Fail> {
    let alloc = rt.alloc();
    let schema = users(alloc)?;
    let mut store = opened(alloc, &schema, disk_with(alloc, NAME, BATCH_JOURNAL)?)?;
    let payload = events(alloc, 1, "c 1 3 c,c 2 1 d")?;
    let answer = commit(alloc, &schema, &mut store, payload.as_slice())?;
    let refused = told(alloc, &store, answer)?;
    let is_live = store.live();
    let written = journal_of(alloc, &store.into_disk())?;
    assert_eq!(rt; refused.as_str(), "1 key taken 1|a;2|b; 2/2/0 0");
    assert!(rt; is_live);
    assert_eq!(rt; written.as_slice(), BATCH_JOURNAL);
    Ok(())
}

/// A copy of the bytes of the journal.
fn journal_of(alloc: Global, disk: &SureDisk) -> Result<Vec<u8>, Fail> {
    let name = name_of(alloc, NAME)?;
    Ok(Vec::from_slice(alloc, disk.file(&name).unwrap_or(&[]))?)
}

#[test]
fn after_an_outage_each_acknowledged_commit_stands(rt: HostRuntime) -> Result<(), Fail> {
    for call in 1..=3 * COMMIT_CALLS {
        for choice in 0..CHOICES {
            try_outage(&rt, call, choice)?;
        }
    }
    Ok(())
}

#[test]
fn a_fault_is_handed_on_and_ends_the_store(rt: HostRuntime) -> Result<(), Fail> {
    for call in 1..=OPENING_CALLS {
        try_fault_at_opening(&rt, call)?;
    }
    for call in 1..=COMMIT_CALLS {
        try_fault_at_commit(&rt, call)?;
    }
    Ok(())
}

/// Three commits of which this call stops, an outage, and an opening: the store is as after some of them, and
/// at least those that were acknowledged.
fn try_outage(rt: &(impl Abort + AllocGlobal), call: u64, choice: u64) -> Result<(), Fail> {
    let alloc = rt.alloc();
    let disk = stopping_disk(alloc, OPENING_CALLS.saturating_add(call), choice);
    let schema = users(alloc)?;
    let mut store = opened(alloc, &schema, disk)?;
    let acknowledged = commit_three(alloc, &schema, &mut store)?;
    let mut disk = store.into_disk();
    disk.crash(choice)?;
    let again = opened(alloc, &schema, disk)?;
    let found = told(alloc, &again, Ok(()))?;
    assert!(rt;
        AFTER
            .iter()
            .skip(acknowledged)
            .any(|after| *after == found.as_str()),
        "stopped at call {call}, outage {choice}: {found}"
    );
    Ok(())
}

/// A batch and two runs of changes of channel 1, up to the first error. How many were acknowledged.
fn commit_three<S: Store>(alloc: Global, schema: &Schema, store: &mut S) -> Result<usize, Fail>
    requires schema { S.schema store.old ≡ schema.now.tables }
    requires live { S.is_live store.old ≡ true }
    requires stands { S.stands store.old }
{
    if commit(alloc, schema, store, BATCH)?.is_err() {
        return Ok(0);
    }
    let second = events(alloc, 1, "c 1 3 c")?;
    if commit(alloc, schema, store, second.as_slice())?.is_err() {
        return Ok(1);
    }
    let third = events(alloc, 1, "d 2 2 b,u 3 3 c b")?;
    if commit(alloc, schema, store, third.as_slice())?.is_err() {
        return Ok(2);
    }
    Ok(3)
}

fn try_fault_at_opening(rt: &(impl Abort + AllocGlobal), call: u64) -> Result<(), Fail> {
    let alloc = rt.alloc();
    let disk = stopping_disk(alloc, call, 0);
    match JournalStore::open(alloc, users(alloc)?, disk) {
        Ok(_store) => return Err("opened".into()),
        Err(NotOpened { disk, why }) => {
            assert_eq!(rt; why, OpenError::Fault);
            assert_eq!(rt; disk.calls(), call);
        }
    }
    Ok(())
}

fn try_fault_at_commit(rt: &(impl Abort + AllocGlobal), call: u64) -> Result<(), Fail> {
    let alloc = rt.alloc();
    let disk = stopping_disk(alloc, OPENING_CALLS.saturating_add(call), 0);
    let schema = users(alloc)?;
    let mut store = opened(alloc, &schema, disk)?;
    let answer = commit(alloc, &schema, &mut store, BATCH)?;
    assert_eq!(rt; told(alloc, &store, answer)?.as_str(), "fault  0/0/0 0");
    assert!(rt; !store.live());
    Ok(())
}

pub(crate) fn opened<D: Disk + Drop>(
    alloc: Global,
    schema: &Schema,
    disk: D,
) -> Result<JournalStore<D>, Fail>
    ensures schema { IfOk result (λ store. ⟦<JournalStore<D> as Store>⟧.schema store ≡ schema.now.tables) }
    ensures live { IfOk result (λ store. ⟦<JournalStore<D> as Store>⟧.is_live store ≡ true) }
    ensures stands { IfOk result (λ store. ⟦<JournalStore<D> as Store>⟧.stands store) }
{
    match JournalStore::open(alloc, schema.copy()?, disk) {
        Ok(store) => Ok(store),
        Err(_refused) => Err("no store".into()),
    }
}

/// A store over a lent disk may be given to another thread: that this compiles is the test.
fn is_sent<T: Send>(_store: &T) {}

fn _lent_stores_are_sent<D: Disk + Send>(store: &JournalStore<&mut D>) {
    is_sent(store);
}
