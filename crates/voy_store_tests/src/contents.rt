ghost use Rattle.std.specs.Prelude.{IfOk};
ghost use Rattle.voy_contents.specs.Known.{CanUndo, HasRoomFor};

use crate::made::users;
use std::alloc::Global;
use std::test::Fail;
use voy_contents::{Done, MemContents};
use voy_schema::{Bytes, Items, Key, Text};
use voy_txn::{Counts, Txn, read_txn};

/// Batch 1 of the rows 1 and 2.
const BATCH: &[u8] = b"B\0\0\0\0\0\0\0\x01\0\0\0\x02\0\0\0\x081,a\n2,b\n";

/// A load of row 3.
const LOAD: &[u8] = b"L\0\0\0\x01\0\0\0\x01\0\0\0\x043,a\n";

/// A delete of row 1, of 169 bytes, with vsn 2.
const DELETE: &[u8] =
    br#"{"before_fields":{"email":"a","id":"1"},"exporter_role":"source_db_exporter","fields":null,"key":{"id":"1"},"op":"d","schema_name":"public","table_name":"users","vsn":2}"#;

/// What is told once the batch was taken, then the delete, and then the load.
const AFTER_BATCH: &str =
    "1;2; 2 rows, 2 copied, 0 elsewhere, 2 of batches, 0 changes, vsns 0 0, batch true, load false";

const AFTER_DELETE: &str =
    "2; 1 rows, 1 copied, 0 elsewhere, 2 of batches, 1 changes, vsns 2 0, batch true, load false";

const AFTER_LOAD: &str =
    "3; 1 rows, 1 copied, 0 elsewhere, 2 of batches, 1 changes, vsns 2 0, batch true, load true";

#[test]
fn a_batch_a_delete_and_a_load_are_taken(rt: HostRuntime) -> Result<(), Fail> {
    let alloc = rt.alloc();
    let mut contents = MemContents::new(alloc, users(alloc)?)?;
    take(alloc, &mut contents, BATCH)?;
    let batch = told(alloc, &contents)?;
    take(alloc, &mut contents, delete(alloc)?.as_slice())?;
    let deleted = told(alloc, &contents)?;
    take(alloc, &mut contents, LOAD)?;
    let loaded = told(alloc, &contents)?;
    assert_eq!(rt; batch.as_str(), AFTER_BATCH);
    assert_eq!(rt; deleted.as_str(), AFTER_DELETE);
    assert_eq!(rt; loaded.as_str(), AFTER_LOAD);
    Ok(())
}

#[test]
fn what_was_done_is_undone(rt: HostRuntime) -> Result<(), Fail> {
    let alloc = rt.alloc();
    let mut contents = MemContents::new(alloc, users(alloc)?)?;
    take(alloc, &mut contents, BATCH)?;
    take_back(alloc, &mut contents, delete(alloc)?.as_slice())?;
    let undeleted = told(alloc, &contents)?;
    take_back(alloc, &mut contents, LOAD)?;
    let unloaded = told(alloc, &contents)?;
    assert_eq!(rt; undeleted.as_str(), AFTER_BATCH);
    assert_eq!(rt; unloaded.as_str(), AFTER_BATCH);
    Ok(())
}

#[test]
fn places_that_hold_nothing_are_taken_away(rt: HostRuntime) -> Result<(), Fail> {
    let alloc = rt.alloc();
    let mut contents = MemContents::new(alloc, users(alloc)?)?;
    take(alloc, &mut contents, BATCH)?;
    let batch = places(&contents);
    take_back(alloc, &mut contents, delete(alloc)?.as_slice())?;
    let undeleted = places(&contents);
    take(alloc, &mut contents, delete(alloc)?.as_slice())?;
    let deleted = places(&contents);
    assert_eq!(rt; [batch, undeleted, deleted], [(2, 2), (2, 2), (1, 1)]);
    Ok(())
}

/// How many places there are for keys of `users`, and for tuples of its unique key.
fn places(contents: &MemContents) -> (usize, usize) {
    (contents.key_places(0), contents.tuple_places(0, 0))
}

/// The delete as a transaction of channel 1.
fn delete(alloc: Global) -> Result<Bytes, Fail> {
    let mut bytes = Bytes::new(alloc);
    bytes.append_slice(b"E\0\0\0\x01\0\0\0\x01\0\0\0\xa9")?;
    bytes.append_slice(DELETE)?;
    Ok(bytes)
}

/// Takes the transaction whose payload the bytes are.
fn take(alloc: Global, contents: &mut MemContents, bytes: &[u8]) -> Result<(), Fail> {
    let (txn, done) = begin(alloc, contents, bytes)?;
    contents.note(&txn);
    contents.sweep(done);
    Ok(())
}

/// Does the items of the transaction whose payload the bytes are, and does them back.
fn take_back(alloc: Global, contents: &mut MemContents, bytes: &[u8]) -> Result<(), Fail> {
    let (_txn, done) = begin(alloc, contents, bytes)?;
    contents.undo(done);
    Ok(())
}

/// Does the items of the transaction whose payload the bytes are, which may be taken, and nothing else.
fn begin(alloc: Global, contents: &mut MemContents, bytes: &[u8]) -> Result<(Txn, Done), Fail>
    ensures room { IfOk result (λ both. HasRoomFor both.0 contents.new) }
    ensures can { IfOk result (λ both. CanUndo both.1 contents.new) }
{
    let Some(txn) = read_txn(alloc, contents.schema(), bytes)? else {
        return Err("no transaction".into());
    };
    if bytes.len() > 1000 || !contents.is_next(&txn) {
        return Err("no transaction that may be next".into());
    }
    let done = contents.do_items(&txn)?;
    Ok((txn, done))
}

/// Which of the rows 1 to 3 stand, how many rows there are, of batches too, and changes, the vsns of channels 1
/// and 2, and whether batch 1 and the load were taken.
fn told(alloc: Global, contents: &MemContents) -> Result<String, Fail> {
    let mut ids = String::new(alloc);
    for id in ["1", "2", "3"] {
        if has_row(alloc, contents, id)? {
            ids.push_str(id)?;
            ids.push_str(";")?;
        }
    }
    let ids = ids.as_str();
    let Counts {
        rows,
        batch_rows,
        changes,
    } = contents.counts(0);
    let (copied, elsewhere) = (contents.rows(0)?.len(), contents.rows(1)?.len());
    let (vsn, other) = (contents.last(1), contents.last(2));
    let (batch, load) = (contents.has_batch(0, 1), contents.loaded());
    let told = format!(in alloc;
        "{ids} {rows} rows, {copied} copied, {elsewhere} elsewhere, {batch_rows} of batches, {changes} changes, vsns {vsn} {other}, batch {batch}, load {load}"
    )?;
    Ok(told)
}

fn has_row(alloc: Global, contents: &MemContents, id: &str) -> Result<bool, Fail> {
    let mut texts = Items::new(alloc);
    texts.push(Text::from_str(alloc, id)?)?;
    Ok(contents.row(0, &Key::new(texts)).is_some())
}
