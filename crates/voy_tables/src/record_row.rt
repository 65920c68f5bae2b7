ghost use Rattle.std.specs.Prelude.{◌≡◌, Ok, Some, length, IfErr, IfOk};
ghost use Rattle.csv.specs.Records.{fields_of};
ghost use Rattle.voy_schema.specs.Refusal.{Refuses};
ghost use Rattle.voy_tables.specs.Readings.{why_of, fields_at, record_reading, row_of, row_reading};

use crate::field_value::read_value;
use crate::row_error::{RecordError, RowWhy};
use crate::row_size::row_text_is_too_long;
use crate::text_record::{field_at, into_text};
use csv::{ByteRecord, StringRecord};
use std::alloc::{AllocError, Global};
use voy_schema::{Column, Row, Table, has_whole_key};

/// The row that a record is, with the field of each column at the place given for it.
pub(crate) fn read_record(
    alloc: Global,
    table: &Table,
    places: &[usize],
    line: ByteRecord,
) -> Result<Row, RecordError>
    requires { length places.now ≡ length table.now.columns }
    ensures ok { IfOk result (λ row. record_reading table.now (fields_at places.now) (fields_of line) ≡ Ok row) }
    ensures err { IfErr result (Refuses why_of (record_reading table.now (fields_at places.now) (fields_of line))) }
{
    if line.len() != table.columns.len() {
        return Err(RecordError::Refused(RowWhy::Fields));
    }
    match into_text(line) {
        Some(line) => read_text_record(alloc, table, places, &line),
        None => Err(RecordError::Refused(RowWhy::Utf8)),
    }
}

/// The same of a record of text with a field for each column.
fn read_text_record(
    alloc: Global,
    table: &Table,
    places: &[usize],
    line: &StringRecord,
) -> Result<Row, RecordError>
    requires { length places.now ≡ length table.now.columns }
    ensures ok { IfOk result (λ row. row_reading table.now (row_of table.now.columns (fields_at places.now (fields_of line.now))) ≡ Ok row) }
    ensures err { IfErr result (Refuses why_of (row_reading table.now (row_of table.now.columns (fields_at places.now (fields_of line.now))))) }
{
    match read_values(alloc, table.columns.as_slice(), places, line)? {
        Some(row) => check_row(table, row),
        None => Err(RecordError::Refused(RowWhy::BadValue)),
    }
}

/// The row itself, where its key is whole and its text not too long.
fn check_row(table: &Table, row: Row) -> Result<Row, RecordError>
    ensures ok { IfOk result (λ same. row_reading table.now (Some row) ≡ Ok same) }
    ensures err { IfErr result (Refuses why_of (row_reading table.now (Some row))) }
{
    if !has_whole_key(table, &row) {
        Err(RecordError::Refused(RowWhy::NullKey))
    } else if row_text_is_too_long(&row) {
        Err(RecordError::Refused(RowWhy::TooLong))
    } else {
        Ok(row)
    }
}

/// A lawful value for each column, or nothing where a field stands for none.
fn read_values(
    alloc: Global,
    columns: &[Column],
    places: &[usize],
    line: &StringRecord,
) -> Result<Option<Row>, AllocError>
    requires { length places.now ≡ length columns.now }
    ensures { IfOk result (λ found. found ≡ row_of columns.now (fields_at places.now (fields_of line.now))) }
{
    let mut row = Row::new(alloc);
    for i in 0..columns.len() {
        match read_value(alloc, columns[i].kind, field_at(line, places[i]))? {
            Some(value) => row.push(value)?,
            None => return Ok(None),
        }
    }
    Ok(Some(row))
}
