ghost use Rattle.std.specs.Prelude.{◌≡◌, ◌++◌, ◌∷◌, codes, decimal, true, IfSome};
ghost use Rattle.json.specs.Print.{quoted};
ghost use Rattle.serde_json.specs.Data.{object};
ghost use Rattle.serde_json.specs.Written.{comma_if, compact_text};
ghost use Rattle.voy_schema.specs.Lawful.{is_lawful_table};
ghost use Rattle.voy_schema.specs.Rows.{is_lawful_row};
ghost use Rattle.voy_event.specs.ByName.{key_order, members_at, name_at, row_order, value_in};
ghost use Rattle.voy_event.specs.LineParts.{HasRowsOf, names_part, rows_part};
ghost use Rattle.voy_tables.specs.Changes.{keyed_row};
ghost use Rattle.voy_event.specs.LineText.{after_data, before_data, change_data, key_data, row_data, value_data};

use crate::behind::{behind, behind_byte, behind_number, behind_text};
use crate::by_name::{Order, name_at};
use crate::line_text::{keyed_row, op_text};
use crate::words::text_of_role;
use voy_schema::{Column, Row, Table, Value};
use voy_tables::{Change, Role};

/// Whether the line is the canonical one of this change. The clause speaks of a yes alone: a no only means that the
/// line is read by way of a JSON document.
pub(crate) fn is_line_of(
    table: &Table,
    order: &Order,
    vsn: u64,
    role: Role,
    change: &Change,
    line: &[u8],
) -> bool
    requires lawful { is_lawful_table table.now ≡ true }
    requires row { order.now.row ≡ row_order table.now }
    requires key { order.now.key ≡ key_order table.now }
    requires rows { HasRowsOf table.now change.now }
    ensures { result ≡ true → line.now ≡ compact_text (change_data table.now vsn role change.now) }
{
    match behind_change(table, order, vsn, role, change, line) {
        Some(rest) => rest.is_empty(),
        None => false,
    }
}

fn behind_change<'a>(
    table: &Table,
    order: &Order,
    vsn: u64,
    role: Role,
    change: &Change,
    line: &'a [u8],
) -> Option<&'a [u8]>
    requires lawful { is_lawful_table table.now ≡ true }
    requires row { order.now.row ≡ row_order table.now }
    requires key { order.now.key ≡ key_order table.now }
    requires rows { HasRowsOf table.now change.now }
    ensures { IfSome result (λ rest. line.now ≡ rows_part table.now role change.now (names_part table.now vsn change.now rest.now)) }
{
    let names = behind_rows(table, order, role, change, line)?;
    behind_names(table, order, vsn, change, names)
}

#[tactic(auto, unfolding(crate::specs::LineParts::rows_part))]
fn behind_rows<'a>(
    table: &Table,
    order: &Order,
    role: Role,
    change: &Change,
    line: &'a [u8],
) -> Option<&'a [u8]>
    requires row { order.now.row ≡ row_order table.now }
    requires rows { HasRowsOf table.now change.now }
    ensures { IfSome result (λ rest. line.now ≡ rows_part table.now role change.now rest.now) }
{
    let rest = behind(line, b"{\"before_fields\":")?;
    let rest = behind_before(table, order, change, rest)?;
    let rest = behind(rest, b",\"exporter_role\":")?;
    let rest = behind_text(rest, text_of_role(role))?;
    let rest = behind(rest, b",\"fields\":")?;
    behind_after(table, order, change, rest)
}

fn behind_names<'a>(
    table: &Table,
    order: &Order,
    vsn: u64,
    change: &Change,
    line: &'a [u8],
) -> Option<&'a [u8]>
    requires lawful { is_lawful_table table.now ≡ true }
    requires key { order.now.key ≡ key_order table.now }
    requires rows { HasRowsOf table.now change.now }
    ensures { IfSome result (λ rest. line.now ≡ names_part table.now vsn change.now rest.now) }
{
    let op = behind_keyed(table, order, change, line)?;
    let names = behind_named(b",\"op\":", op_text(change), op)?;
    let number = behind_table_names(table, names)?;
    behind_end(number, vsn)
}

fn behind_keyed<'a>(
    table: &Table,
    order: &Order,
    change: &Change,
    line: &'a [u8],
) -> Option<&'a [u8]>
    requires lawful { is_lawful_table table.now ≡ true }
    requires key { order.now.key ≡ key_order table.now }
    requires rows { HasRowsOf table.now change.now }
    ensures { IfSome result (λ rest. line.now ≡ codes ",\"key\":" ++ (compact_text (key_data table.now (keyed_row change.now)) ++ rest.now)) }
{
    let key = behind(line, b",\"key\":")?;
    behind_key(table, order, keyed_row(change), key)
}

fn behind_table_names<'a>(table: &Table, line: &'a [u8]) -> Option<&'a [u8]>
    ensures { IfSome result (λ rest. line.now ≡ codes ",\"schema_name\":" ++ (quoted table.now.schema_name ++ (codes ",\"table_name\":" ++ (quoted table.now.table_name ++ rest.now)))) }
{
    let rest = behind_named(b",\"schema_name\":", table.schema_name.as_str(), line)?;
    behind_named(b",\"table_name\":", table.table_name.as_str(), rest)
}

/// What stands behind a name with its colon, and a text.
fn behind_named<'a>(name: &[u8], text: &str, line: &'a [u8]) -> Option<&'a [u8]>
    ensures { IfSome result (λ rest. line.now ≡ name.now ++ (quoted text.now ++ rest.now)) }
{
    let value = behind(line, name)?;
    behind_text(value, text)
}

fn behind_end(line: &[u8], vsn: u64) -> Option<&[u8]>
    ensures { IfSome result (λ rest. line.now ≡ codes ",\"vsn\":" ++ (decimal vsn ++ (codes "}" ++ rest.now))) }
{
    let number = behind(line, b",\"vsn\":")?;
    let rest = behind_number(number, vsn)?;
    behind(rest, b"}")
}

fn behind_before<'a>(
    table: &Table,
    order: &Order,
    change: &Change,
    line: &'a [u8],
) -> Option<&'a [u8]>
    requires row { order.now.row ≡ row_order table.now }
    requires rows { HasRowsOf table.now change.now }
    ensures { IfSome result (λ rest. line.now ≡ compact_text (before_data table.now change.now) ++ rest.now) }
{
    match change {
        Change::Insert { .. } => behind(line, b"null"),
        Change::Update { before, .. } => behind_row(table, order, before, line),
        Change::Delete { before, .. } => behind_row(table, order, before, line),
    }
}

fn behind_after<'a>(
    table: &Table,
    order: &Order,
    change: &Change,
    line: &'a [u8],
) -> Option<&'a [u8]>
    requires row { order.now.row ≡ row_order table.now }
    requires rows { HasRowsOf table.now change.now }
    ensures { IfSome result (λ rest. line.now ≡ compact_text (after_data table.now change.now) ++ rest.now) }
{
    match change {
        Change::Insert { after, .. } => behind_row(table, order, after, line),
        Change::Update { after, .. } => behind_row(table, order, after, line),
        Change::Delete { .. } => behind(line, b"null"),
    }
}

/// What stands behind a row's object.
fn behind_row<'a>(table: &Table, order: &Order, row: &Row, line: &'a [u8]) -> Option<&'a [u8]>
    requires order { order.now.row ≡ row_order table.now }
    requires row { is_lawful_row table.now row.now ≡ true }
    ensures { IfSome result (λ rest. line.now ≡ compact_text (row_data table.now.columns row.now) ++ rest.now) }
{
    behind_values(table.columns.as_slice(), order.row.as_slice(), row, line)
}

/// What stands behind the object of a row's key.
fn behind_key<'a>(table: &Table, order: &Order, row: &Row, line: &'a [u8]) -> Option<&'a [u8]>
    requires lawful { is_lawful_table table.now ≡ true }
    requires order { order.now.key ≡ key_order table.now }
    requires row { is_lawful_row table.now row.now ≡ true }
    ensures { IfSome result (λ rest. line.now ≡ compact_text (key_data table.now row.now) ++ rest.now) }
{
    behind_values(table.columns.as_slice(), order.key.as_slice(), row, line)
}

/// What stands behind an object of the columns at these places, in this order.
fn behind_values<'a>(
    columns: &[Column],
    places: &[u32],
    row: &Row,
    line: &'a [u8],
) -> Option<&'a [u8]>
    ensures { IfSome result (λ rest. line.now ≡ compact_text (object (members_at columns.now (value_in row.now) places.now)) ++ rest.now) }
{
    let mut rest = behind_byte(line, b'{')?;
    let mut later = false;
    for place in places {
        let name = behind_comma(later, rest)?;
        rest = behind_member(columns, *place, row, name)?;
        later = true;
    }
    behind_byte(rest, b'}')
}

fn behind_comma(later: bool, line: &[u8]) -> Option<&[u8]>
    ensures { IfSome result (λ rest. line.now ≡ comma_if later ++ rest.now) }
{
    if later {
        behind_byte(line, b',')
    } else {
        Some(line)
    }
}

/// What stands behind the name of the column at this place, and the row's value there.
fn behind_member<'a>(columns: &[Column], place: u32, row: &Row, line: &'a [u8]) -> Option<&'a [u8]>
    ensures { IfSome result (λ rest. line.now ≡ quoted (name_at columns.now place) ++ 58 ∷ (compact_text (value_in row.now place) ++ rest.now)) }
{
    let colon = behind_text(line, name_at(columns, place))?;
    let value = behind_byte(colon, b':')?;
    match row.get(place as usize) {
        Some(there) => behind_value(there, value),
        None => behind(value, b"null"),
    }
}

fn behind_value<'a>(value: &Value, line: &'a [u8]) -> Option<&'a [u8]>
    ensures { IfSome result (λ rest. line.now ≡ compact_text (value_data value.now) ++ rest.now) }
{
    match value {
        Value::Null => behind(line, b"null"),
        Value::Text(text) => behind_text(line, text.as_str()),
    }
}
