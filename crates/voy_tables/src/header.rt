ghost use Rattle.std.specs.Prelude.{◌≡◌, ◌≤◌, Ok, count_by, length, IfErr, IfOk};
ghost use Rattle.std.specs.List.{position_or_len};
ghost use Rattle.std.specs.Str.{bytes_eq};
ghost use Rattle.csv.specs.Records.{fields_of};
ghost use Rattle.voy_schema.specs.Refusal.{Refuses};
ghost use Rattle.voy_tables.specs.Readings.{cause_of, header_reading, names_reading};

use crate::row_error::{RowError, RowWhy};
use crate::text_record::{field_at, into_text};
use csv::{ByteRecord, StringRecord};
use std::alloc::Global;
use voy_schema::{Items, Table};

/// The record that a header is.
const HEADER_LINE: u64 = 1;

/// The place of each column's name in a header that has each name once and nothing else.
pub(crate) fn read_header(
    alloc: Global,
    table: &Table,
    header: ByteRecord,
) -> Result<Items<usize>, RowError>
    ensures ok { IfOk result (λ places. header_reading table.now (fields_of header) ≡ Ok places) }
    ensures err { IfErr result (Refuses cause_of (header_reading table.now (fields_of header))) }
{
    match into_text(header) {
        Some(header) => find_places(alloc, table, &header),
        None => Err(refused(RowWhy::Utf8)),
    }
}

/// The same of a header of text.
fn find_places(
    alloc: Global,
    table: &Table,
    header: &StringRecord,
) -> Result<Items<usize>, RowError>
    ensures ok { IfOk result (λ places. names_reading table.now (fields_of header.now) ≡ Ok places) }
    ensures err { IfErr result (Refuses cause_of (names_reading table.now (fields_of header.now))) }
{
    if header.len() != table.columns.len() {
        return Err(refused(RowWhy::Header));
    }
    let mut places = Items::new(alloc);
    for column in table.columns.as_slice() {
        let name = column.name.as_str();
        if count_name(header, name) != 1 {
            return Err(refused(RowWhy::Header));
        }
        places.push(place_of_name(header, name))?;
    }
    Ok(places)
}

/// The refusal of a header.
pub(crate) fn refused(why: RowWhy) -> RowError
    ensures { result ≡ RowError.Bad 1 why }
{
    RowError::Bad {
        line: HEADER_LINE,
        why,
    }
}

/// How many fields of the header are this name.
fn count_name(header: &StringRecord, name: &str) -> usize
    ensures { result ≡ count_by (bytes_eq name.now) (fields_of header.now) }
{
    let mut count = 0;
    for place in 0..header.len() {
        if name == field_at(header, place) {
            count += 1;
        }
    }
    count
}

/// The first place of this name in the header.
fn place_of_name(header: &StringRecord, name: &str) -> usize
    ensures { result ≡ position_or_len (bytes_eq name.now) (fields_of header.now) }
{
    for place in 0..header.len() {
        if name == field_at(header, place) {
            return place;
        }
    }
    header.len()
}
