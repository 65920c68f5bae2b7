ghost use Rattle.std.specs.Prelude.{◌≡◌, ◌<◌};
ghost use Rattle.voy_contents.specs.Known.{schema_of};

use crate::made::users;
use crate::store_texts::{commit, events};
use std::alloc::{AllocError, AllocGlobal, Global};
use std::process::Abort;
use std::test::Fail;
use voy_contents::Tables;
use voy_event::What;
use voy_schema::{Copies, Schema};
use voy_store::MemStore;
use voy_tables::{Change, Plain, PlainError, well_formed};
use voy_txn::{Store, StoreError, Txn, read_txn};

/// How many changes are drawn.
const DRAWS: u64 = 400;

#[test]
fn a_store_agrees_with_plain_tables(rt: HostRuntime) -> Result<(), Fail> {
    let alloc = rt.alloc();
    let schema = users(alloc)?;
    let mut store = MemStore::new(alloc, schema.copy()?)?;
    let mut plain = Plain::new(alloc, schema.copy()?)?;
    let mut draw = 1;
    let mut taken = 0;
    'draws: for _at in 0..DRAWS {
        let one = try_draw(&rt, &schema, &mut store, &mut plain, &mut draw)?;
        taken = one.saturating_add(taken);
    }
    // many of both kinds
    assert!(rt; taken > DRAWS / 8);
    assert!(rt; taken < DRAWS - DRAWS / 8);
    Ok(())
}

/// The next change drawn goes into both, with the same rows after it, or has the same misfit in both. How many
/// were taken.
fn try_draw(
    rt: &(impl Abort + AllocGlobal),
    schema: &Schema,
    store: &mut MemStore,
    plain: &mut Plain,
    draw: &mut u64,
) -> Result<u64, Fail>
    requires { schema_of store.old.contents ≡ schema.now.tables }
    ensures { schema_of store.new.contents ≡ schema_of store.old.contents }
{
    let alloc = rt.alloc();
    let vsn = store.last(3).saturating_add(1);
    let payload = events(alloc, 3, drawn_change(alloc, vsn, draw)?.as_str())?;
    let change = only_change(alloc, schema, payload.as_slice())?;
    let found = commit(alloc, schema, store, payload.as_slice())?;
    let taken = match (found, plain.fits(&change)) {
        (Ok(()), Ok(())) => apply(plain, change)?,
        (Err(StoreError::Violation { item: 0, why }), Err(misfit)) => {
            assert_eq!(rt; why, misfit);
            0
        }
        _ => return Err("another answer than that of plain tables".into()),
    };
    let rows = store.rows(0)?;
    assert!(rt; rows.as_slice() == plain.table_rows(0));
    Ok(taken)
}

#[test]
fn tables_with_keys_agree_with_plain_tables(rt: HostRuntime) -> Result<(), Fail> {
    let alloc = rt.alloc();
    let schema = users(alloc)?;
    let mut tables = Tables::new(alloc, schema.copy()?)?;
    let mut plain = Plain::new(alloc, schema.copy()?)?;
    let mut draw = 7;
    let mut taken = 0;
    for _at in 0..DRAWS {
        let one = try_fold(&rt, &schema, &mut tables, &mut plain, &mut draw)?;
        taken = one.saturating_add(taken);
    }
    // many of both kinds
    assert!(rt; taken > DRAWS / 8);
    assert!(rt; taken < DRAWS - DRAWS / 8);
    Ok(())
}

/// The next change drawn goes into both, with the same rows after it, or has the same misfit in both. How many
/// were taken.
fn try_fold(
    rt: &(impl Abort + AllocGlobal),
    schema: &Schema,
    tables: &mut Tables,
    plain: &mut Plain,
    draw: &mut u64,
) -> Result<u64, Fail> {
    let alloc = rt.alloc();
    let payload = events(alloc, 3, drawn_change(alloc, 1, draw)?.as_str())?;
    let change = only_change(alloc, schema, payload.as_slice())?;
    if !well_formed(tables.schema(), &change) {
        return Err("a change of another schema".into());
    }
    let taken = match (tables.apply(&change), plain.fits(&change)) {
        (Ok(()), Ok(())) => apply(plain, change)?,
        (Err(PlainError::Misfit(why)), Err(misfit)) => {
            assert_eq!(rt; why, misfit);
            0
        }
        _ => return Err("another answer than that of plain tables".into()),
    };
    let rows = tables.rows(0)?;
    assert!(rt; rows.as_slice() == plain.table_rows(0));
    Ok(taken)
}

/// A change of one of four rows, whose emails are three.
pub(crate) fn drawn_change(alloc: Global, vsn: u64, draw: &mut u64) -> Result<String, AllocError> {
    let kind = ["c", "u", "d"][next(draw, 3)];
    let id = ["1", "2", "3", "4"][next(draw, 4)];
    let email = ["a", "b", "c"][next(draw, 3)];
    let other = ["a", "b", "c"][next(draw, 3)];
    format!(in alloc; "{kind} {vsn} {id} {email} {other}")
}

/// A number below `limit`.
pub(crate) fn next(draw: &mut u64, limit: usize) -> usize
    requires { 0 < limit }
    ensures { result < limit }
{
    *draw = draw
        .wrapping_mul(6364136223846793005)
        .wrapping_add(1442695040888963407);
    (*draw >> 33) as usize % limit
}

/// The one change of a payload.
pub(crate) fn only_change(alloc: Global, schema: &Schema, payload: &[u8]) -> Result<Change, Fail> {
    let Some(Txn::Events { items, .. }) = read_txn(alloc, schema, payload)? else {
        return Err("no events".into());
    };
    match &items.as_slice()[0].what {
        What::Change(change) => Ok(change.copy()?),
        _ => Err("no change".into()),
    }
}

pub(crate) fn apply(plain: &mut Plain, change: Change) -> Result<u64, Fail> {
    if !well_formed(plain.schema(), &change) {
        return Err("a change of another schema".into());
    }
    match plain.apply(change) {
        Ok(()) => Ok(1),
        Err(_refused) => Err("a change that does not fit".into()),
    }
}
