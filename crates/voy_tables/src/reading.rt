ghost use Rattle.std.specs.Prelude.{◌≡◌, ◌≤◌, Ok, length, IfErr, IfOk};
ghost use Rattle.std.specs.List.{range_with_len};
ghost use Rattle.csv.specs.Reading.{default_config, records};
ghost use Rattle.csv.specs.Records.{fields_of};
ghost use Rattle.voy_schema.specs.Refusal.{Refuses};
ghost use Rattle.voy_tables.specs.Readings.{cause_of, begins_with_mark, behind_header, headed_reading, header_reading, fields_at, first_misplaced, record_reading, recorded_rows, records_reading, rows_reading, without_mark};

use crate::header::{read_header, refused};
use crate::record_reader::{MARK, Records};
use crate::record_row::read_record;
use crate::row_error::{RecordError, RowError, RowWhy};
use crate::row_text::write_row;
use csv::ByteRecord;
use std::alloc::{AllocError, Global};
use voy_schema::{Bytes, Items, Row, Rows, Table};

/// The rows of a text without a header, with the fields in the order of the table's columns.
///
/// Only the text that the rows are written as is accepted, byte for byte. Else the error has the first
/// record, numbered from 1, that is refused, and its first cause; where none is, `BadValue` and the
/// first whose row text does not stand at its place, or the number behind the last.
#[tactic(auto, unfolding(crate::specs::Readings::rows_reading))]
pub fn read_rows(alloc: Global, table: &Table, bytes: &[u8]) -> Result<Rows, RowError>
    ensures ok { IfOk result (λ rows. rows_reading table.now bytes.now ≡ Ok rows) }
    ensures err { IfErr result (Refuses cause_of (rows_reading table.now bytes.now)) }
{
    let rows = read_in_order(alloc, table, bytes)?;
    match find_misplaced(alloc, rows.as_slice(), bytes)? {
        None => Ok(rows),
        Some(line) => Err(RowError::Bad {
            line,
            why: RowWhy::BadValue,
        }),
    }
}

/// The rows of a text whose records have the fields in the order of the table's columns.
fn read_in_order(alloc: Global, table: &Table, bytes: &[u8]) -> Result<Rows, RowError>
    ensures ok { IfOk result (λ rows. records_reading (record_reading table.now (λ fields. fields)) 1 (records default_config bytes.now) ≡ Ok rows) }
    ensures err { IfErr result (Refuses cause_of (records_reading (record_reading table.now (λ fields. fields)) 1 (records default_config bytes.now))) }
{
    let places = places_in_order(alloc, table.columns.len())?;
    let mut records = Records::new(alloc, bytes);
    read_records(alloc, table, places.as_slice(), &mut records, 1)
}

/// The rows of a recorded text, whose first record has the names of the table's columns in any order.
///
/// One byte order mark before it is dropped. The error has the first record that is refused, the header
/// being record 1, and its first cause.
#[tactic(auto, unfolding(crate::specs::Readings::recorded_rows))]
pub fn read_recorded(alloc: Global, table: &Table, bytes: &[u8]) -> Result<Rows, RowError>
    ensures ok { IfOk result (λ rows. recorded_rows table.now bytes.now ≡ Ok rows) }
    ensures err { IfErr result (Refuses cause_of (recorded_rows table.now bytes.now)) }
{
    let text = skip_mark(bytes);
    if starts_with_mark(text) {
        return Err(refused(RowWhy::Header));
    }
    read_headed(alloc, table, text)
}

/// The rows of a text whose first record is a header.
fn read_headed(alloc: Global, table: &Table, text: &[u8]) -> Result<Rows, RowError>
    ensures ok { IfOk result (λ rows. headed_reading table.now (records default_config text.now) ≡ Ok rows) }
    ensures err { IfErr result (Refuses cause_of (headed_reading table.now (records default_config text.now))) }
{
    let mut records = Records::new(alloc, text);
    match records.next_record()? {
        Some(header) => read_behind(alloc, table, header, &mut records),
        None => Err(refused(RowWhy::Header)),
    }
}

/// The rows that the records behind a header are.
fn read_behind(
    alloc: Global,
    table: &Table,
    header: ByteRecord,
    records: &mut Records,
) -> Result<Rows, RowError>
    ensures ok { IfOk result (λ rows. behind_header table.now (header_reading table.now (fields_of header)) records.old ≡ Ok rows) }
    ensures err { IfErr result (Refuses cause_of (behind_header table.now (header_reading table.now (fields_of header)) records.old)) }
{
    let places = read_header(alloc, table, header)?;
    read_records(alloc, table, places.as_slice(), records, 2)
}

/// The rows that these records are, of which the first has the number `first`.
fn read_records(
    alloc: Global,
    table: &Table,
    places: &[usize],
    records: &mut Records,
    first: u64,
) -> Result<Rows, RowError>
    requires places { length places.now ≡ length table.now.columns }
    requires first { first ≤ 2 }
    ensures ok { IfOk result (λ rows. records_reading (record_reading table.now (fields_at places.now)) first records.old ≡ Ok rows) }
    ensures err { IfErr result (Refuses cause_of (records_reading (record_reading table.now (fields_at places.now)) first records.old)) }
{
    let mut rows = Rows::new(alloc);
    while let Some(line) = records.next_record()? {
        match read_record(alloc, table, places, line) {
            Ok(row) => rows.push(row)?,
            Err(RecordError::Refused(why)) => {
                return Err(RowError::Bad {
                    line: rows.len() as u64 + first,
                    why,
                });
            }
            Err(RecordError::NoMemory) => return Err(RowError::NoMemory),
        }
    }
    Ok(rows)
}

/// The number, from 1, of the first row whose text does not stand at its place in `text`, or that behind
/// the last where something stands behind it.
fn find_misplaced(alloc: Global, rows: &[Row], text: &[u8]) -> Result<Option<u64>, AllocError>
    ensures { IfOk result (λ found. found ≡ first_misplaced 1 rows.now text.now) }
{
    let mut rest = text;
    let mut line = Bytes::new(alloc);
    for (i, row) in rows.iter().enumerate() {
        line.truncate(0);
        write_row(alloc, row, &mut line)?;
        if !rest.starts_with(line.as_slice()) {
            return Ok(Some(i as u64 + 1));
        }
        rest = &rest[line.len()..];
    }
    if rest.is_empty() {
        Ok(None)
    } else {
        Ok(Some(rows.len() as u64 + 1))
    }
}

/// The places of `count` fields, each its own.
fn places_in_order(alloc: Global, count: usize) -> Result<Items<usize>, AllocError>
    ensures { IfOk result (λ places. places ≡ range_with_len 0 count) }
{
    let mut places = Items::new(alloc);
    for place in 0..count {
        places.push(place)?;
    }
    Ok(places)
}

/// The text behind a byte order mark, if it begins with one.
fn skip_mark(bytes: &[u8]) -> &[u8]
    ensures { result.now ≡ without_mark bytes.now }
{
    if starts_with_mark(bytes) {
        &bytes[MARK.len()..]
    } else {
        bytes
    }
}

fn starts_with_mark(bytes: &[u8]) -> bool
    ensures { result ≡ begins_with_mark bytes.now }
{
    bytes.starts_with(MARK)
}
