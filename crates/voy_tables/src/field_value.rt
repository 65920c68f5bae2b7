ghost use Rattle.std.specs.Prelude.{◌≡◌, ◌∷◌, false, Some, IfOk, MatchOption};
ghost use Rattle.voy_tables.specs.Readings.{if_lawful, value_of};
ghost use Rattle.voy_tables.specs.RowText.{starts_with_backslash};

use crate::escaping::begins_with_backslash;
use std::alloc::{AllocError, Global};
use voy_schema::{Kind, Text, Value, check_value};

/// The value that a field stands for, where it is lawful for its column.
pub(crate) fn read_value(
    alloc: Global,
    kind: Kind,
    field: &str,
) -> Result<Option<Value>, AllocError>
    ensures { IfOk result (λ found. found ≡ if_lawful kind (value_of field.now)) }
{
    let Some(rest) = behind_backslash(field) else {
        return read_text(alloc, kind, field);
    };
    if begins_with_backslash(rest.as_bytes()) {
        read_text(alloc, kind, rest)
    } else if rest == "N" {
        Ok(Some(Value::Null))
    } else {
        Ok(None)
    }
}

/// What stands behind a first backslash.
fn behind_backslash(field: &str) -> Option<&str>
    ensures { MatchOption result (starts_with_backslash field.now ≡ false) (λ rest. field.now ≡ 92 ∷ rest.now) }
{
    field.strip_prefix('\\')
}

fn read_text(alloc: Global, kind: Kind, text: &str) -> Result<Option<Value>, AllocError>
    ensures { IfOk result (λ found. found ≡ if_lawful kind (Some (Value.Text text.now))) }
{
    if !check_value(kind, text) {
        return Ok(None);
    }
    Ok(Some(Value::Text(Text::from_str(alloc, text)?)))
}
