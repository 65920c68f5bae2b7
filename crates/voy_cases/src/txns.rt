ghost use Rattle.voy_txn.specs.LawfulTxn.{IsLawfulTxn};

use crate::schemas::{push_table_name, schema_of};
use crate::values::push_rows;
use std::alloc::Global;
use voy_case_text::{Case, Trouble};
use voy_event::Event;
use voy_schema::{Bytes, Copies, Row, Rows, Schema};
use voy_txn::{Txn, payload_bytes, read_txn, write_txn};

/// The transaction whose payload the rows are, and their number of bytes.
pub fn txn(alloc: Global, case: &Case) -> Result<String, Trouble> {
    let schema = schema_of(alloc, case)?;
    let payload = case.bytes(alloc)?;
    match written_again(alloc, &schema, payload.as_slice())? {
        Some(shown) => Ok(shown),
        None => {
            let shown = String::from_str(alloc, "no transaction")?;
            Ok(shown)
        }
    }
}

/// The transaction in words, once a copy of it was written as the same payload, whose size was told before.
#[tactic(auto, using(voy_txn::specs::SizeLaws::lawful_has_lines))]
fn written_again(
    alloc: Global,
    schema: &Schema,
    payload: &[u8],
) -> Result<Option<String>, Trouble> {
    let Some(txn) = read_txn(alloc, schema, payload)? else {
        return Ok(None);
    };
    let size = payload_bytes(alloc, schema, &txn)?;
    let written = payload_of_copy(alloc, schema, &txn)?;
    if !stands_behind(payload, written.as_slice()) {
        return Err(Trouble::Apart("the payload is written otherwise"));
    }
    let count = payload.len();
    if size != count as u64 {
        return Err(Trouble::Apart("the payload has another size"));
    }
    let mut shown = format!(in alloc; "{count} bytes, ")?;
    push_txn(alloc, schema, &txn, &mut shown)?;
    Ok(Some(shown))
}

/// The one byte `>` with the payload of a copy of the transaction behind it.
fn payload_of_copy(alloc: Global, schema: &Schema, txn: &Txn) -> Result<Bytes, Trouble>
    requires { IsLawfulTxn schema.now.tables txn.now }
{
    let copied = txn.copy()?;
    let mut written = Bytes::new(alloc);
    written.push(b'>')?;
    write_txn(alloc, schema, &copied, &mut written)?;
    Ok(written)
}

/// Whether these bytes are the one byte `>` and the payload.
fn stands_behind(payload: &[u8], bytes: &[u8]) -> bool {
    match bytes.strip_prefix(b">") {
        Some(behind) => behind == payload,
        None => false,
    }
}

fn push_txn(alloc: Global, schema: &Schema, txn: &Txn, to: &mut String) -> Result<(), Trouble> {
    match txn {
        Txn::Load { tables } => push_load(alloc, schema, tables.as_slice(), to),
        Txn::Batch {
            table,
            number,
            rows,
        } => {
            let head = format!(in alloc; "batch {number} of")?;
            to.push_str(head.as_str())?;
            push_table_rows(alloc, schema, *table, rows.as_slice(), to)
        }
        Txn::Events { channel, items } => {
            let head = format!(in alloc; "changes of channel {channel} with vsn")?;
            to.push_str(head.as_str())?;
            push_vsns(alloc, items.as_slice(), to)
        }
        Txn::Epoch { vsn, channels } => {
            let text = format!(in alloc; "epoch of {channels} channels at vsn {vsn}")?;
            to.push_str(text.as_str())?;
            Ok(())
        }
    }
}

fn push_load(
    alloc: Global,
    schema: &Schema,
    tables: &[Rows],
    to: &mut String,
) -> Result<(), Trouble> {
    to.push_str("load of")?;
    let mut place = 0u32;
    for rows in tables {
        push_table_rows(alloc, schema, place, rows.as_slice(), to)?;
        place = place.saturating_add(1);
    }
    Ok(())
}

/// Appends the table's name and its rows.
fn push_table_rows(
    alloc: Global,
    schema: &Schema,
    place: u32,
    rows: &[Row],
    to: &mut String,
) -> Result<(), Trouble> {
    to.push(' ')?;
    push_table_name(schema, place, to)?;
    to.push_str(" with ")?;
    if rows.is_empty() {
        to.push_str("no rows")?;
    }
    push_rows(alloc, rows, to)
}

fn push_vsns(alloc: Global, items: &[Event], to: &mut String) -> Result<(), Trouble> {
    for item in items {
        let vsn = item.vsn;
        let next = format!(in alloc; " {vsn}")?;
        to.push_str(next.as_str())?;
    }
    Ok(())
}
