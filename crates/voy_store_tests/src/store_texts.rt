ghost use Rattle.std.specs.Prelude.{◌≡◌, true, IfOk, OnOk};

use std::alloc::{AllocError, Global};
use std::test::Fail;
use voy_schema::{Bytes, Row, Schema, Value};
use voy_tables::Misfit;
use voy_txn::{Store, StoreError, is_next, read_txn};

/// The rows `1,a` and `2,b` as batch 1.
pub(crate) const BATCH: &[u8] = b"B\0\0\0\0\0\0\0\x01\0\0\0\x02\0\0\0\x081,a\n2,b\n";

/// Commits the transaction whose payload this is, where the store, which is of this schema, may take it.
pub(crate) fn commit<S: Store>(
    alloc: Global,
    schema: &Schema,
    store: &mut S,
    payload: &[u8],
) -> Result<Result<(), StoreError>, Fail>
    requires schema { S.schema store.old ≡ schema.now.tables }
    requires live { S.is_live store.old ≡ true }
    requires stands { S.stands store.old }
    ensures schema { S.schema store.new ≡ S.schema store.old }
    ensures live { IfOk result (λ answer. OnOk answer (S.is_live store.new ≡ true)) }
    ensures stands { IfOk result (λ answer. OnOk answer (S.stands store.new)) }
{
    let Some(txn) = read_txn(alloc, schema, payload)? else {
        return Err("no transaction".into());
    };
    if payload.len() > 1000 || !is_next(store, &txn) {
        return Err("no transaction that may be next".into());
    }
    Ok(store.commit(&txn))
}

/// What a commit answered, the rows of the table with `;` behind each, its rows, batch rows and changes,
/// and the vsn of channel 1.
pub(crate) fn told<S: Store>(
    alloc: Global,
    store: &S,
    answer: Result<(), StoreError>,
) -> Result<String, AllocError> {
    let mut told = answer_text(alloc, answer)?;
    told.push_str(" ")?;
    let rows = store.rows(0)?;
    for row in rows.as_slice() {
        push_row(&mut told, row)?;
        told.push_str(";")?;
    }
    let counts = store.counts(0);
    let (rows, batch_rows, changes) = (counts.rows, counts.batch_rows, counts.changes);
    let last = store.last(1);
    let numbers = format!(in alloc; " {rows}/{batch_rows}/{changes} {last}")?;
    told.push_str(numbers.as_str())?;
    Ok(told)
}

fn answer_text(alloc: Global, answer: Result<(), StoreError>) -> Result<String, AllocError> {
    match answer {
        Ok(()) => String::from_str(alloc, "ok"),
        Err(StoreError::Fault) => String::from_str(alloc, "fault"),
        Err(StoreError::NoMemory) => String::from_str(alloc, "no memory"),
        Err(StoreError::Violation { item, why }) => {
            let why = misfit_text(why);
            format!(in alloc; "{item} {why}")
        }
    }
}

fn misfit_text(why: Misfit) -> &'static str {
    match why {
        Misfit::KeyTaken => "key taken",
        Misfit::NoRow => "no row",
        Misfit::OtherRow => "other row",
        Misfit::Unique { key: 0 } => "unique 0",
        Misfit::Unique { .. } => "another unique",
    }
}

/// The payload of these changes of a channel, with commas between. A change is its kind, its vsn, its id and
/// its email, or both emails of an update.
pub(crate) fn events(alloc: Global, channel: u32, changes: &str) -> Result<Bytes, Fail> {
    let mut lines = Bytes::new(alloc);
    let mut count: usize = 0;
    for change in changes.split(',') {
        let line = line_of(alloc, change)?;
        push_length(line.as_str().len(), &mut lines)?;
        lines.append_slice(line.as_str().as_bytes())?;
        count = count.saturating_add(1);
    }
    let mut payload = Bytes::new(alloc);
    payload.push(b'E')?;
    payload.append_slice(&channel.to_be_bytes())?;
    push_length(count, &mut payload)?;
    payload.append_slice(lines.as_slice())?;
    Ok(payload)
}

/// The payload of an epoch.
pub(crate) fn epoch(alloc: Global, vsn: u64, channels: u32) -> Result<Bytes, Fail> {
    let mut payload = Bytes::new(alloc);
    payload.push(b'N')?;
    payload.append_slice(&vsn.to_be_bytes())?;
    payload.append_slice(&channels.to_be_bytes())?;
    Ok(payload)
}

/// Appends a length of four bytes.
fn push_length(length: usize, to: &mut Bytes) -> Result<(), Fail> {
    let Ok(length) = u32::try_from(length) else {
        return Err("too long".into());
    };
    to.append_slice(&length.to_be_bytes())?;
    Ok(())
}

fn line_of(alloc: Global, change: &str) -> Result<String, Fail> {
    let mut words = change.split(' ');
    let kind = words.next().ok_or("no kind")?;
    let vsn = words.next().ok_or("no vsn")?;
    let id = words.next().ok_or("no id")?;
    let email = words.next().ok_or("no email")?;
    let row = row_text(alloc, id, email)?;
    let (before, after) = match kind {
        "c" => (String::from_str(alloc, "null")?, row),
        "d" => (row, String::from_str(alloc, "null")?),
        _ => (
            row,
            row_text(alloc, id, words.next().ok_or("no second email")?)?,
        ),
    };
    let line = format!(in alloc;
        r#"{{"before_fields":{before},"exporter_role":"source_db_exporter","fields":{after},"key":{{"id":"{id}"}},"op":"{kind}","schema_name":"public","table_name":"users","vsn":{vsn}}}"#
    )?;
    Ok(line)
}

fn row_text(alloc: Global, id: &str, email: &str) -> Result<String, AllocError> {
    format!(in alloc; r#"{{"email":"{email}","id":"{id}"}}"#)
}

/// The values with `|` between, NULL as `-`.
fn push_row(to: &mut String, row: &Row) -> Result<(), AllocError> {
    for (at, value) in row.as_slice().iter().enumerate() {
        if at > 0 {
            to.push_str("|")?;
        }
        match value {
            Value::Text(text) => to.push_str(text.as_str())?,
            Value::Null => to.push_str("-")?,
        }
    }
    Ok(())
}
