ghost use Rattle.std.specs.Prelude.{◌≡◌, true};
ghost use Rattle.voy_contents.specs.Known.{schema_of};

use crate::payloads::payload_of;
use crate::plain::misfit_text;
use crate::schemas::schema_of;
use crate::values::{push_row, push_rows};
use std::alloc::Global;
use voy_case_text::{Case, Trouble, first_word, name_of, number_of, quoted_bytes, told};
use voy_disk::SureDisk;
use voy_report::show_text;
use voy_schema::{Bytes, Copies, Items, Key, Schema, Text};
use voy_store::{JournalStore, MemStore, NotOpened, OpenError};
use voy_txn::{Store, StoreError, is_next, read_txn};

/// What the calls on a store in memory answer, one on each row: `store NAME SCHEMA`.
pub fn store(alloc: Global, case: &Case) -> Result<String, Trouble> {
    let schema = schema_of(alloc, case)?;
    let mut store = MemStore::new(alloc, schema.copy()?)?;
    let mut shown = String::new(alloc);
    'calls: for call in case.rows.lines() {
        let answer = answer(alloc, &schema, &mut store, call)?;
        let line = format!(in alloc; "\n  {call}: {answer}")?;
        shown.push_str(line.as_str())?;
    }
    Ok(shown)
}

/// What the rows' bytes are as the journal of a store: its tables' text, or where it is damaged, with the file as
/// it was.
pub fn stored(alloc: Global, case: &Case) -> Result<String, Trouble> {
    let schema = schema_of(alloc, case)?;
    let name = name_of(alloc, "store.journal")?;
    let bytes = case.bytes(alloc)?;
    let mut disk = SureDisk::new(alloc);
    disk.put_file(&name, bytes.as_slice())?;
    match JournalStore::open(alloc, schema.copy()?, disk) {
        Ok(store) => {
            let text = shown_text(alloc, &schema, &store)?;
            let _disk = store.into_disk();
            Ok(text)
        }
        Err(NotOpened { disk, why }) => {
            let is_kept = disk.file(&name) == Some(bytes.as_slice());
            let kept = if is_kept {
                ""
            } else {
                ", and the file changed"
            };
            let why = match why {
                OpenError::Damaged { offset } => format!(in alloc; "damaged at {offset}")?,
                OpenError::Fault => told(alloc, "fault")?,
                OpenError::NoMemory => told(alloc, "no memory")?,
            };
            Ok(format!(in alloc; "{why}{kept}")?)
        }
    }
}

/// What the call of the row answers.
fn answer(
    alloc: Global,
    schema: &Schema,
    store: &mut MemStore,
    row: &str,
) -> Result<String, Trouble>
    requires { schema_of store.old.contents ≡ schema.now.tables }
    ensures { schema_of store.new.contents ≡ schema_of store.old.contents }
{
    let (verb, behind) = first_word(row);
    match verb {
        "batch" | "load" | "changes" | "epoch" => commit(alloc, schema, store, row),
        "has" => {
            let (table, number) = first_word(behind);
            let is_there = store.has_batch(place_of(table)?, place_of(number)?);
            told(alloc, yes_or_no(is_there))
        }
        "loaded" => told(alloc, yes_or_no(store.loaded())),
        "live" => told(alloc, yes_or_no(store.live())),
        "last" => Ok(format!(in alloc; "{}", store.last(place_of(behind)?))?),
        "channels" => channels_told(alloc, store),
        "row" => row_shown(alloc, store, behind),
        "show" => shown_text(alloc, schema, store),
        _ => Err(Trouble::Case("no such call")),
    }
}

fn yes_or_no(yes: bool) -> &'static str {
    if yes { "yes" } else { "no" }
}

/// A place of a table, a batch's number, a channel or how many channels.
pub fn place_of(text: &str) -> Result<u32, Trouble> {
    match u32::try_from(number_of(text)?) {
        Ok(place) => Ok(place),
        Err(_) => Err(Trouble::Case("too large a number")),
    }
}

/// Commits the transaction, and gives the answer, the rows and the counts of the first table, and the vsn of channel 1.
fn commit<S: Store>(
    alloc: Global,
    schema: &Schema,
    store: &mut S,
    row: &str,
) -> Result<String, Trouble>
    requires schema { S.schema store.old ≡ schema.now.tables }
    requires live { S.is_live store.old ≡ true }
    requires stands { S.stands store.old }
    ensures schema { S.schema store.new ≡ S.schema store.old }
{
    let payload = payload_of(alloc, row)?;
    let Some(txn) = read_txn(alloc, schema, payload.as_slice())? else {
        return told(alloc, "no transaction");
    };
    if payload.as_slice().len() > 1_000_000 || !is_next(store, &txn) {
        return told(alloc, "not the next one");
    }
    let answer = answer_text(alloc, store.commit(&txn))?;
    let counts = store.counts(0);
    let (many, batch_rows, changes) = (counts.rows, counts.batch_rows, counts.changes);
    let last = store.last(1);
    let mut text = format!(in alloc;
        "{answer}; {many} rows, {batch_rows} of batches, {changes} changes, channel 1 at {last}; "
    )?;
    push_rows(alloc, store.rows(0)?.as_slice(), &mut text)?;
    Ok(text)
}

fn answer_text(alloc: Global, answer: Result<(), StoreError>) -> Result<String, Trouble> {
    match answer {
        Ok(()) => told(alloc, "ok"),
        Err(StoreError::Fault) => told(alloc, "fault"),
        Err(StoreError::NoMemory) => told(alloc, "no memory"),
        Err(StoreError::Violation { item, why }) => {
            let why = misfit_text(alloc, why)?;
            Ok(format!(in alloc; "item {item}: {why}")?)
        }
    }
}

/// How many channels the last epoch said.
fn channels_told(alloc: Global, store: &MemStore) -> Result<String, Trouble> {
    match store.channels() {
        Some(channels) => Ok(format!(in alloc; "{channels}")?),
        None => told(alloc, "none"),
    }
}

/// The row of a key of one column: `row TABLE TEXT`.
fn row_shown(alloc: Global, store: &MemStore, words: &str) -> Result<String, Trouble> {
    let (table, text) = first_word(words);
    let mut texts = Items::new(alloc);
    texts.push(Text::from_str(alloc, text)?)?;
    let mut shown = String::new(alloc);
    match store.row(place_of(table)?, &Key::new(texts)) {
        Some(row) => push_row(alloc, row, &mut shown)?,
        None => shown.push_str("none")?,
    }
    Ok(shown)
}

/// The text of the store's tables.
fn shown_text<S: Store>(alloc: Global, schema: &Schema, store: &S) -> Result<String, Trouble>
    requires { schema.now.tables ≡ S.schema store.now }
{
    let mut text = Bytes::new(alloc);
    show_text(alloc, schema, store, &mut text)?;
    quoted_bytes(alloc, text.as_slice())
}
