ghost use Rattle.std.specs.Prelude.{◌≡◌, ◌++◌, ◌<◌, ◌^◌, length, OnOk, IfOk};
ghost use Rattle.std.specs.Option.{option_copied};
ghost use Rattle.std.specs.Result.{result_ok};
ghost use Rattle.voy_tables.specs.Readings.{rows_reading};
ghost use Rattle.voy_tables.specs.RowText.{row_lines};
ghost use Rattle.voy_txn.specs.Payload.{rows_part};
ghost use Rattle.voy_txn.specs.Reading.{Gives, batch_rows, counted_rows, lists_of, sorted_rows};

use crate::fields::{part_of, push_number, push_sized};
use crate::unread::Unread;
use std::alloc::{AllocError, Global};
use voy_schema::{Bytes, Row, Rows, Table};
use voy_tables::{RowError, RowLists, read_rows, rows_ascend, write_row};

/// The rows of `table` whose texts `text` is, one after the other.
fn rows_of(alloc: Global, table: &Table, text: &[u8]) -> Result<Rows, Unread>
    ensures { Gives (λ rows. rows) result (result_ok (rows_reading table.now text.now)) }
{
    match read_rows(alloc, table, text) {
        Ok(rows) => Ok(rows),
        Err(RowError::Bad { .. }) => Err(Unread::NoPayload),
        Err(RowError::NoMemory) => Err(Unread::NoMemory),
    }
}

/// The same where they are `count`.
#[tactic(auto, unfolding(crate::specs::Reading::counted_rows))]
fn counted_rows(alloc: Global, table: &Table, count: u32, text: &[u8]) -> Result<Rows, Unread>
    ensures { Gives (λ rows. rows) result (counted_rows table.now count text.now) }
{
    let rows = rows_of(alloc, table, text)?;
    if rows.len() != count as usize {
        return Err(Unread::NoPayload);
    }
    Ok(rows)
}

/// The same where they stand by ascending key.
#[tactic(auto, unfolding(crate::specs::Reading::sorted_rows))]
fn sorted_rows(alloc: Global, table: &Table, count: u32, text: &[u8]) -> Result<Rows, Unread>
    ensures { Gives (λ rows. rows) result (sorted_rows table.now count text.now) }
{
    let rows = counted_rows(alloc, table, count, text)?;
    if !rows_ascend(table, rows.as_slice()) {
        return Err(Unread::NoPayload);
    }
    Ok(rows)
}

/// The rows of each of these tables, by ascending key, where `bytes` are their parts and nothing more.
pub(crate) fn lists_of(alloc: Global, tables: &[Table], bytes: &[u8]) -> Result<RowLists, Unread>
    ensures { Gives (λ lists. lists) result (lists_of tables.now bytes.now) }
{
    let mut lists = RowLists::new(alloc);
    let mut rest = bytes;
    for table in tables {
        let (count, text, after) = part_of(rest)?;
        let rows = sorted_rows(alloc, table, count, text)?;
        lists.push(rows)?;
        rest = after;
    }
    if !rest.is_empty() {
        return Err(Unread::NoPayload);
    }
    Ok(lists)
}

/// The rows of a batch of `table`, where `bytes` are their part and nothing more.
#[tactic(auto, unfolding(crate::specs::Reading::batch_rows))]
pub(crate) fn batch_rows(alloc: Global, table: Option<&Table>, bytes: &[u8]) -> Result<Rows, Unread>
    ensures { Gives (λ rows. rows) result (batch_rows (option_copied table.entry) bytes.now) }
{
    let Some(table) = table else {
        return Err(Unread::NoPayload);
    };
    let (count, text, rest) = part_of(bytes)?;
    let rows = counted_rows(alloc, table, count, text)?;
    if rows.is_empty() || !rest.is_empty() {
        return Err(Unread::NoPayload);
    }
    Ok(rows)
}

/// The texts of these rows, one after the other.
fn rows_text(alloc: Global, rows: &[Row]) -> Result<Bytes, AllocError>
    ensures { IfOk result (λ text. text ≡ row_lines rows.now) }
{
    let mut text = Bytes::new(alloc);
    for row in rows {
        write_row(alloc, row, &mut text)?;
    }
    Ok(text)
}

/// Appends the texts of these rows, behind their number and the number of bytes.
#[tactic(auto, unfolding(crate::specs::Payload::rows_part))]
pub(crate) fn push_rows(alloc: Global, to: &mut Bytes, rows: &[Row]) -> Result<(), AllocError>
    requires count { length rows.now < 2 ^ 32 }
    requires bytes { length (row_lines rows.now) < 2 ^ 32 }
    ensures { OnOk result (to.new ≡ to.old ++ rows_part rows.now) }
{
    let text = rows_text(alloc, rows)?;
    push_number(to, rows.len() as u32)?;
    push_sized(to, text.as_slice())?;
    Ok(())
}
