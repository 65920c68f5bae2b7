ghost use Rattle.std.specs.Prelude.{◌≡◌, length, IfOk};
ghost use Rattle.std.specs.List.{AllByRecursion, sum_by};
ghost use Rattle.voy_event.specs.LawfulEvent.{IsWritable};
ghost use Rattle.voy_event.specs.LineText.{line_text};
ghost use Rattle.voy_tables.specs.RowText.{row_line, row_lines};
ghost use Rattle.voy_txn.specs.History.{counted};
ghost use Rattle.voy_txn.specs.Payload.{payload_of};
ghost use Rattle.voy_txn.specs.Sizes.{HasLines, item_size, payload_size, rows_size};

use crate::txn::Txn;
use std::alloc::{AllocError, Global};
use voy_event::{Event, write_line};
use voy_schema::{Bytes, Row, Rows, Schema};
use voy_tables::write_row;

/// The bytes of a load's payload in front of the parts of its tables: its kind, and how many they are.
const LOAD_HEAD_BYTES: u64 = 5;

/// Those of a batch in front of its part: its kind, its table and its number.
const BATCH_HEAD_BYTES: u64 = 9;

/// Those of events in front of their lines: their kind, their channel, and how many they are.
const EVENTS_HEAD_BYTES: u64 = 9;

/// The bytes of an epoch: its kind, its vsn, and how many channels.
const EPOCH_BYTES: u64 = 13;

/// The bytes in front of the texts of a part: how many rows, and how many bytes they take.
const PART_HEAD_BYTES: u64 = 8;

/// The bytes in front of a line: how many it has.
const LINE_HEAD_BYTES: u64 = 4;

/// How many bytes the payload of `txn` has; 2^64 - 1 where it has more. It asks events that belong to the
/// schema, and takes rows of any number and length, so that a caller knows before
/// [`write_txn`](crate::write_txn) whether a store can take them. The payload is not put together: memory is taken for the text
/// of one row or one event at a time.
pub fn payload_bytes(alloc: Global, schema: &Schema, txn: &Txn) -> Result<u64, AllocError>
    requires { HasLines schema.now.tables txn.now }
    ensures { IfOk result (λ bytes. bytes ≡ counted (length (payload_of schema.now.tables txn.now))) }
{
    match txn {
        Txn::Load { tables } => {
            let parts = lists_bytes(alloc, tables.as_slice())?;
            Ok(parts.saturating_add(LOAD_HEAD_BYTES))
        }
        Txn::Batch { rows, .. } => {
            let part = part_bytes(alloc, rows.as_slice())?;
            Ok(part.saturating_add(BATCH_HEAD_BYTES))
        }
        Txn::Events { items, .. } => {
            let parts = items_bytes(alloc, schema, items.as_slice())?;
            Ok(parts.saturating_add(EVENTS_HEAD_BYTES))
        }
        Txn::Epoch { .. } => Ok(EPOCH_BYTES),
    }
}

/// The bytes of the parts of these tables' rows.
fn lists_bytes(alloc: Global, lists: &[Rows]) -> Result<u64, AllocError>
    ensures { IfOk result (λ bytes. bytes ≡ counted (sum_by rows_size lists.now)) }
{
    let mut bytes: u64 = 0;
    for rows in lists {
        bytes = bytes.saturating_add(part_bytes(alloc, rows.as_slice())?);
    }
    Ok(bytes)
}

/// The bytes of the part of a table's rows.
fn part_bytes(alloc: Global, rows: &[Row]) -> Result<u64, AllocError>
    ensures { IfOk result (λ bytes. bytes ≡ counted (rows_size rows.now)) }
{
    let texts = texts_bytes(alloc, rows)?;
    Ok(texts.saturating_add(PART_HEAD_BYTES))
}

/// The bytes of the texts of these rows.
fn texts_bytes(alloc: Global, rows: &[Row]) -> Result<u64, AllocError>
    ensures { IfOk result (λ bytes. bytes ≡ counted (length (row_lines rows.now))) }
{
    let mut bytes: u64 = 0;
    for row in rows {
        bytes = bytes.saturating_add(text_bytes(alloc, row)?);
    }
    Ok(bytes)
}

/// The bytes of a row's text.
fn text_bytes(alloc: Global, row: &Row) -> Result<u64, AllocError>
    ensures { IfOk result (λ bytes. bytes ≡ length (row_line row.now)) }
{
    let mut text = Bytes::new(alloc);
    write_row(alloc, row, &mut text)?;
    Ok(text.len() as u64)
}

/// The bytes of the lines of these events, each with the number in front of it.
fn items_bytes(alloc: Global, schema: &Schema, items: &[Event]) -> Result<u64, AllocError>
    requires { AllByRecursion (IsWritable schema.now.tables) items.now }
    ensures { IfOk result (λ bytes. bytes ≡ counted (sum_by (item_size schema.now.tables) items.now)) }
{
    let mut bytes: u64 = 0;
    for item in items {
        let line = line_bytes(alloc, schema, item)?;
        bytes = bytes.saturating_add(line).saturating_add(LINE_HEAD_BYTES);
    }
    Ok(bytes)
}

/// The bytes of an event's line.
fn line_bytes(alloc: Global, schema: &Schema, item: &Event) -> Result<u64, AllocError>
    requires { IsWritable schema.now.tables item.now }
    ensures { IfOk result (λ bytes. bytes ≡ length (line_text schema.now.tables item.now)) }
{
    let mut line = Bytes::new(alloc);
    write_line(alloc, schema, item, &mut line)?;
    Ok(line.len() as u64)
}
