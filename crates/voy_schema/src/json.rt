ghost use Rattle.std.specs.Prelude.{◌≡◌, map, Option, IfOk, option_map, option_and_then};
ghost use Rattle.serde_json.specs.Data.{Data};
ghost use Rattle.serde_json.specs.Find.{as_array, as_str, get};
ghost use Rattle.serde_json.specs.View.{view, items_view};
ghost use Rattle.voy_json.specs.Document.{is_object, text_at};
ghost use Rattle.voy_schema.specs.Stated.{each, flag_at, has_shape, is_exact, list_at};

use crate::items::Items;
use crate::text::Text;
use serde_json::Value;
use std::alloc::{AllocError, Global};
use voy_json::text_at;

/// What an item of a list in a JSON document states.
pub trait FromJson {
    ghost stated: { Data → Option Self };

    /// What `value` states. `None` where it has another shape.
    fn from_json(alloc: Global, value: &Value) -> Result<Option<Self>, AllocError>
        ensures { IfOk result (λ found. found ≡ stated (view value.now)) };
}

impl FromJson for Text {
    ghost stated = { as_str };

    fn from_json(alloc: Global, value: &Value) -> Result<Option<Self>, AllocError> {
        match value.as_str() {
            Some(text) => Ok(Some(Text::from_str(alloc, text)?)),
            None => Ok(None),
        }
    }
}

/// Whether `value` is an object with each of these names and no other.
pub fn is_exact(value: &Value, names: &[&str]) -> bool
    ensures { result ≡ is_exact (map (λ name. name.now) names.now) (view value.now) }
{
    value.is_object() && voy_json::has_all(value, names) && voy_json::has_only(value, names)
}

/// Whether `value` is an object with each name of `needed`, and none but those of `known`.
pub fn has_shape(value: &Value, needed: &[&str], known: &[&str]) -> bool
    ensures { result ≡ has_shape (map (λ name. name.now) needed.now) (map (λ name. name.now) known.now) (view value.now) }
{
    value.is_object() && voy_json::has_all(value, needed) && voy_json::has_only(value, known)
}

/// The truth value under this name of an object, false where there is none. `None` where it is something
/// else.
pub fn flag_at(value: &Value, name: &str) -> Option<bool>
    ensures { result ≡ flag_at name.now (view value.now) }
{
    match value.get(name) {
        Some(member) => member.as_bool(),
        None => Some(false),
    }
}

/// A copy of the string under this name of an object. `None` where there is none, or something else.
pub fn copied_text_at(alloc: Global, value: &Value, name: &str) -> Result<Option<Text>, AllocError>
    ensures { IfOk result (λ found. found ≡ text_at name.now (view value.now)) }
{
    match text_at(value, name) {
        Some(text) => Ok(Some(Text::from_str(alloc, text)?)),
        None => Ok(None),
    }
}

/// What the list under this name of an object states. `None` where there is none, or something else,
/// or where an item of it has another shape.
pub fn list_at<T: FromJson + Drop>(
    alloc: Global,
    value: &Value,
    name: &str,
) -> Result<Option<Items<T>>, AllocError>
    ensures { IfOk result (λ found. found ≡ list_at T.stated name.now (view value.now)) }
{
    match value.get(name).and_then(Value::as_array) {
        Some(items) => each(alloc, items.as_slice()),
        None => Ok(None),
    }
}

fn each<T: FromJson + Drop>(alloc: Global, items: &[Value]) -> Result<Option<Items<T>>, AllocError>
    ensures { IfOk result (λ found. found ≡ each T.stated (items_view items.now)) }
{
    let mut found = Items::new(alloc);
    for item in items {
        match T::from_json(alloc, item)? {
            Some(stated) => found.push(stated)?,
            None => return Ok(None),
        }
    }
    Ok(Some(found))
}
