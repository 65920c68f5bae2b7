ghost use Rattle.std.specs.Prelude.{◌≡◌, IfOk};
ghost use Rattle.std.specs.Option.{option_copied};
ghost use Rattle.voy_contents.specs.MemTables.{keeps_tuple};
ghost use Rattle.voy_schema.specs.Rows.{counting_tuple, value_at, values_at};

use std::alloc::{AllocError, Global};
use voy_schema::{Copies, Items, Row, Tuple, UniqueKey, Value};
use voy_tables::{has_counting_tuple, have_same_tuple};

/// The tuple of `row` that counts for this unique key; none where there is no row.
pub(crate) fn tuple_of(
    alloc: Global,
    unique: &UniqueKey,
    row: Option<&Row>,
) -> Result<Option<Tuple<Value>>, AllocError>
    ensures { IfOk result (λ tuple. tuple ≡ counting_tuple unique.now (option_copied row.entry)) }
{
    match row {
        None => Ok(None),
        Some(row) => {
            if !has_counting_tuple(unique, row) {
                return Ok(None);
            }
            let values = values_at(alloc, row, unique.columns.as_slice())?;
            Ok(Some(values))
        }
    }
}

/// The values of `row` at these places, in their order.
fn values_at(alloc: Global, row: &Row, places: &[u32]) -> Result<Tuple<Value>, AllocError>
    ensures { IfOk result (λ values. values ≡ values_at row.now places.now) }
{
    let mut values = Items::with_capacity(alloc, places.len())?;
    for place in places {
        let value = value_at(row, *place)?;
        values.push(value)?;
    }
    Ok(Tuple::new(values))
}

fn value_at(row: &Row, place: u32) -> Result<Value, AllocError>
    ensures { IfOk result (λ value. value ≡ value_at row.now place) }
{
    match row.get(place as usize) {
        Some(value) => value.copy(),
        None => Ok(Value::Null),
    }
}

/// Whether there are both rows, and both have the same tuple of this unique key or none that counts.
pub(crate) fn keeps_tuple(unique: &UniqueKey, before: Option<&Row>, after: Option<&Row>) -> bool
    ensures { result ≡ keeps_tuple unique.now (option_copied before.entry) (option_copied after.entry) }
{
    match before {
        None => false,
        Some(before) => match after {
            None => false,
            Some(after) => have_same_tuple(unique, before, after),
        },
    }
}
