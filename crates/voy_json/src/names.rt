ghost use Rattle.std.specs.Prelude.{◌≡◌, map, option_map};
ghost use Rattle.std.specs.List.{list_any};
ghost use Rattle.std.specs.Str.{bytes_eq};
ghost use Rattle.serde_json.specs.View.{view};
ghost use Rattle.voy_json.specs.Document.{has_names, has_only_names, text_at};

use serde_json::Value;

/// Whether each of these is a name of the object `value`.
pub fn has_all(value: &Value, names: &[&str]) -> bool
    ensures { result ≡ has_names (map (λ name. name.now) names.now) (view value.now) }
{
    names.iter().all(|name| value.get(*name).is_some())
}

/// Whether the object `value` has no name but these.
pub fn has_only(value: &Value, names: &[&str]) -> bool
    ensures { result ≡ has_only_names (map (λ name. name.now) names.now) (view value.now) }
{
    match value.as_object() {
        Some(members) => members.keys().all(|key| is_one_of(key.as_str(), names)),
        None => true,
    }
}

/// The string under this name of an object. `None` where there is none, or something else.
pub fn text_at<'a>(value: &'a Value, name: &str) -> Option<&'a str>
    ensures { option_map (λ text. text.now) result ≡ text_at name.now (view value.now) }
{
    value.get(name).and_then(Value::as_str)
}

fn is_one_of(name: &str, names: &[&str]) -> bool
    ensures { result ≡ list_any (bytes_eq name.now) (map (λ known. known.now) names.now) }
{
    names.iter().any(|known| name == *known)
}
