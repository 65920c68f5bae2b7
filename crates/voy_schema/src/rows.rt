ghost use Rattle.std.specs.Prelude.{◌≡◌, not};
ghost use Rattle.std.specs.List.{list_all};
ghost use Rattle.voy_schema.specs.Rows.{has_lawful_values, has_whole_key, is_lawful_row, is_null, value_at, values_at};
ghost use Rattle.voy_schema.specs.Values.{is_lawful_value};

use crate::kinds::check_value;
use crate::table::{Column, Kind, Table};
use crate::value::{Row, Value};

/// Whether a column of kind `kind` takes `value`, where it may be NULL.
pub fn is_lawful_value(kind: Kind, value: &Value) -> bool
    ensures { result ≡ is_lawful_value kind value.now }
{
    match value {
        Value::Null => true,
        Value::Text(text) => check_value(kind, text.as_str()),
    }
}

/// Whether `row` can stand in `table`: one lawful value for each column, and no NULL in a key column.
pub fn is_lawful_row(table: &Table, row: &Row) -> bool
    ensures { result ≡ is_lawful_row table.now row.now }
{
    has_lawful_values(table.columns.as_slice(), row.as_slice()) && has_whole_key(table, row)
}

fn has_lawful_values(columns: &[Column], values: &[Value]) -> bool
    ensures { result ≡ has_lawful_values columns.now values.now }
{
    if columns.len() != values.len() {
        return false;
    }
    for i in 0..columns.len() {
        if !is_lawful_value(columns[i].kind, &values[i]) {
            return false;
        }
    }
    true
}

/// Whether none of the key columns is NULL.
pub fn has_whole_key(table: &Table, row: &Row) -> bool
    ensures { result ≡ has_whole_key table.now row.now }
{
    has_no_null(row, table.primary_key.as_slice())
}

/// Whether the row has a value that is not NULL in each of the columns at these places.
pub fn has_no_null(row: &Row, places: &[u32]) -> bool
    ensures { result ≡ list_all (λ v. not (is_null v)) (values_at row.now places.now) }
{
    places.iter().all(|place| has_value(row, *place))
}

/// Whether the row has a value in the column at `place` that is not NULL.
fn has_value(row: &Row, place: u32) -> bool
    ensures { result ≡ not (is_null (value_at row.now place)) }
{
    matches!(row.get(place as usize), Some(Value::Text(_)))
}
