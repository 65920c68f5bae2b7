ghost use Rattle.std.specs.Prelude.{◌≡◌, Some};
ghost use Rattle.voy_schema.specs.Rows.{counting_tuple, counts, values_at};
ghost use Rattle.voy_tables.specs.Keys.{same_tuple, same_values};

use crate::keys::text_in;
use voy_schema::{Row, UniqueKey, has_no_null};

/// Whether the tuple of `row` for this unique key counts: none of its values is NULL, or NULLs are not
/// distinct for the key.
pub fn has_counting_tuple(unique: &UniqueKey, row: &Row) -> bool
    ensures { result ≡ counts unique.now (values_at row.now unique.now.columns) }
{
    unique.nulls_not_distinct || has_no_null(row, unique.columns.as_slice())
}

/// Whether both rows have the same counting tuple for this unique key, or neither has one.
pub fn have_same_tuple(unique: &UniqueKey, a: &Row, b: &Row) -> bool
    ensures { result ≡ same_tuple (counting_tuple unique.now (Some a.now)) (counting_tuple unique.now (Some b.now)) }
{
    if has_counting_tuple(unique, a) {
        has_counting_tuple(unique, b) && have_same_values(unique.columns.as_slice(), a, b)
    } else {
        !has_counting_tuple(unique, b)
    }
}

/// Whether both rows have the same values in the columns at these places.
fn have_same_values(places: &[u32], a: &Row, b: &Row) -> bool
    ensures { result ≡ same_values (values_at a.now places.now) (values_at b.now places.now) }
{
    for place in places {
        if text_in(a, *place) != text_in(b, *place) {
            return false;
        }
    }
    true
}
