ghost use Rattle.std.specs.Prelude.{◌≡◌, true, OnOk};

use crate::made::users;
use crate::plain_tables::{apply, drawn_change, next, only_change};
use crate::store_texts::{commit, epoch, events, told};
use crate::stores::{CHOICES, COMMIT_CALLS, OPENING_CALLS, opened};
use std::alloc::{AllocError, AllocGlobal, Global};
use std::process::Abort;
use std::test::Fail;
use voy_disk::SureDisk;
use voy_schema::{Bytes, Copies, Schema};
use voy_store::MemStore;
use voy_tables::{Misfit, Plain};
use voy_test_disks::stopping_disk;
use voy_txn::{Store, StoreError, Txn, is_next, read_txn};

/// How many transactions are drawn.
const DRAWS: u64 = 300;

/// What a store tells after none to four of the commits of [`commit_four`].
const AFTER: [&str; 5] = [
    "ok  0/0/0 0, no epoch",
    "ok 1|a; 1/0/1 1, no epoch",
    "ok 1|a; 1/0/1 1, 7 channels",
    "ok 1|a;2|b; 2/0/2 1, 7 channels",
    "ok 1|a;2|b; 2/0/2 2, 512 channels",
];

/// What is wanted of a store's marks: the vsn of each of the first four channels, and how many channels the last
/// epoch said.
#[derive(Clone, Copy)]
struct Marks {
    vsns: [u64; 4],
    channels: Option<u32>,
}

/// A transaction that is drawn, and the marks once it was taken.
#[derive(Drop)]
struct Step {
    payload: Bytes,
    is_epoch: bool,
    after: Marks,
}

#[test]
fn stores_with_epochs_between_agree_with_plain_tables(rt: HostRuntime) -> Result<(), Fail> {
    let alloc = rt.alloc();
    let schema = users(alloc)?;
    let mut memory = MemStore::new(alloc, schema.copy()?)?;
    let in_memory = play(alloc, &schema, &mut memory)?;
    let mut store = opened(alloc, &schema, SureDisk::new(alloc))?;
    let in_journal = play(alloc, &schema, &mut store)?;
    let again = opened(alloc, &schema, store.into_disk())?;
    let opened_again = told_with_channels(alloc, &again, Ok(()))?;
    assert_eq!(rt; in_memory.as_str(), in_journal.as_str());
    assert_eq!(rt; in_memory.as_str(), opened_again.as_str());
    Ok(())
}

/// Plays the drawn transactions on the store and on plain tables, and gives what the store tells at the end.
fn play<S: Store>(alloc: Global, schema: &Schema, store: &mut S) -> Result<String, Fail>
    requires schema { S.schema store.old ≡ schema.now.tables }
    requires live { S.is_live store.old ≡ true }
    requires stands { S.stands store.old }
    ensures schema { S.schema store.new ≡ S.schema store.old }
{
    let mut plain = Plain::new(alloc, schema.copy()?)?;
    let mut marks = Marks {
        vsns: [0, 0, 0, 0],
        channels: None,
    };
    let mut draw = 1;
    'draws: for _at in 0..DRAWS {
        marks = play_next(alloc, schema, store, &mut plain, marks, &mut draw)?;
    }
    Ok(told_with_channels(alloc, store, Ok(()))?)
}

/// The next transaction goes into both, with the same rows after it, or its only change has the same misfit in both.
/// The marks then, which are those that the store tells.
fn play_next<S: Store>(
    alloc: Global,
    schema: &Schema,
    store: &mut S,
    plain: &mut Plain,
    marks: Marks,
    draw: &mut u64,
) -> Result<Marks, Fail>
    requires schema { S.schema store.old ≡ schema.now.tables }
    requires live { S.is_live store.old ≡ true }
    requires stands { S.stands store.old }
    ensures schema { S.schema store.new ≡ S.schema store.old }
    ensures live { OnOk result (S.is_live store.new ≡ true) }
    ensures stands { OnOk result (S.stands store.new) }
{
    let step = drawn(alloc, marks, draw)?;
    if takes_a_lower_epoch(store, marks) {
        return Err("an epoch below a channel is the next one".into());
    }
    let found = take(alloc, schema, store, step.payload.as_slice())?;
    let wanted = done_in(alloc, schema, plain, &step)?;
    if found != wanted {
        return Err("another answer than that of plain tables".into());
    }
    let marks = if found.is_none() { step.after } else { marks };
    if !tells(store, plain, marks)? {
        return Err("other rows or marks".into());
    }
    Ok(marks)
}

/// A change of one of the first four channels, or an epoch in one of eight cases.
fn drawn(alloc: Global, marks: Marks, draw: &mut u64) -> Result<Step, Fail> {
    let mut after = marks;
    if next(draw, 8) == 0 {
        let vsn = highest(marks).saturating_add(next(draw, 2) as u64);
        let channels = [1, 4, 100, 512][next(draw, 4)];
        after.vsns = [vsn, vsn, vsn, vsn];
        after.channels = Some(channels);
        let payload = epoch(alloc, vsn, channels)?;
        return Ok(Step {
            payload,
            is_epoch: true,
            after,
        });
    }
    let channel = next(draw, 4);
    let vsn = marks.vsns[channel].saturating_add(1);
    after.vsns[channel] = vsn;
    let change = drawn_change(alloc, vsn, draw)?;
    let payload = events(alloc, channel as u32, change.as_str())?;
    Ok(Step {
        payload,
        is_epoch: false,
        after,
    })
}

fn highest(marks: Marks) -> u64 {
    let [a, b, c, d] = marks.vsns;
    a.max(b).max(c).max(d)
}

/// Whether the store would take an epoch below its highest channel.
fn takes_a_lower_epoch<S: Store>(store: &S, marks: Marks) -> bool {
    let highest = highest(marks);
    if highest == 0 {
        return false;
    }
    let lower = Txn::Epoch {
        vsn: highest.saturating_sub(1),
        channels: 1,
    };
    is_next(store, &lower)
}

/// Commits the transaction whose payload this is: the misfit of its only item, or none where it was taken.
fn take<S: Store>(
    alloc: Global,
    schema: &Schema,
    store: &mut S,
    payload: &[u8],
) -> Result<Option<Misfit>, Fail>
    requires schema { S.schema store.old ≡ schema.now.tables }
    requires live { S.is_live store.old ≡ true }
    requires stands { S.stands store.old }
    ensures schema { S.schema store.new ≡ S.schema store.old }
    ensures live { OnOk result (S.is_live store.new ≡ true) }
    ensures stands { OnOk result (S.stands store.new) }
{
    let Some(txn) = read_txn(alloc, schema, payload)? else {
        return Err("no transaction".into());
    };
    if payload.len() > 1000 || !is_next(store, &txn) {
        return Err("no transaction that may be next".into());
    }
    match store.commit(&txn) {
        Ok(()) => Ok(None),
        Err(StoreError::Violation { item: 0, why }) => Ok(Some(why)),
        Err(_other) => Err("no answer on the only item".into()),
    }
}

/// The misfit of the step's change in plain tables, or none once it is done there. An epoch changes no row.
fn done_in(
    alloc: Global,
    schema: &Schema,
    plain: &mut Plain,
    step: &Step,
) -> Result<Option<Misfit>, Fail> {
    if step.is_epoch {
        return Ok(None);
    }
    let change = only_change(alloc, schema, step.payload.as_slice())?;
    if let Err(misfit) = plain.fits(&change) {
        return Ok(Some(misfit));
    }
    let _one = apply(plain, change)?;
    Ok(None)
}

/// Whether the store tells the rows of the plain tables, and these marks.
fn tells<S: Store>(store: &S, plain: &Plain, marks: Marks) -> Result<bool, AllocError> {
    let rows = store.rows(0)?;
    let [a, b, c, d] = marks.vsns;
    Ok(
        rows.as_slice() == plain.table_rows(0)
            && store.channels() == marks.channels
            && store.last(0) == a
            && store.last(1) == b
            && store.last(2) == c
            && store.last(3) == d,
    )
}

/// What a store tells, and how many channels the last epoch said.
fn told_with_channels<S: Store>(
    alloc: Global,
    store: &S,
    answer: Result<(), StoreError>,
) -> Result<String, AllocError> {
    let told = told(alloc, store, answer)?;
    match store.channels() {
        Some(channels) => format!(in alloc; "{told}, {channels} channels"),
        None => format!(in alloc; "{told}, no epoch"),
    }
}

#[test]
fn after_an_outage_each_acknowledged_epoch_stands(rt: HostRuntime) -> Result<(), Fail> {
    for call in 1..=4 * COMMIT_CALLS {
        for choice in 0..CHOICES {
            try_outage(&rt, call, choice)?;
        }
    }
    Ok(())
}

/// Four commits of which this call stops, an outage, and an opening: the store is as after some of them, and at
/// least those that were acknowledged.
fn try_outage(rt: &(impl Abort + AllocGlobal), call: u64, choice: u64) -> Result<(), Fail> {
    let alloc = rt.alloc();
    let disk = stopping_disk(alloc, OPENING_CALLS.saturating_add(call), choice);
    let schema = users(alloc)?;
    let mut store = opened(alloc, &schema, disk)?;
    let acknowledged = commit_four(alloc, &schema, &mut store)?;
    let mut disk = store.into_disk();
    disk.crash(choice)?;
    let again = opened(alloc, &schema, disk)?;
    let found = told_with_channels(alloc, &again, Ok(()))?;
    assert!(rt;
        AFTER
            .iter()
            .skip(acknowledged)
            .any(|after| *after == found.as_str()),
        "stopped at call {call}, outage {choice}: {found}"
    );
    Ok(())
}

/// Changes of two channels with an epoch behind each, up to the first error. How many were acknowledged.
fn commit_four<S: Store>(alloc: Global, schema: &Schema, store: &mut S) -> Result<usize, Fail>
    requires schema { S.schema store.old ≡ schema.now.tables }
    requires live { S.is_live store.old ≡ true }
    requires stands { S.stands store.old }
{
    let first = events(alloc, 1, "c 1 1 a")?;
    if commit(alloc, schema, store, first.as_slice())?.is_err() {
        return Ok(0);
    }
    let second = epoch(alloc, 1, 7)?;
    if commit(alloc, schema, store, second.as_slice())?.is_err() {
        return Ok(1);
    }
    let third = events(alloc, 2, "c 2 2 b")?;
    if commit(alloc, schema, store, third.as_slice())?.is_err() {
        return Ok(2);
    }
    let fourth = epoch(alloc, 2, 512)?;
    if commit(alloc, schema, store, fourth.as_slice())?.is_err() {
        return Ok(3);
    }
    Ok(4)
}
