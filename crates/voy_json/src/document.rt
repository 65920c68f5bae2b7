ghost use Rattle.std.specs.Prelude.{◌≡◌, Some, IfOk, IfErr};
ghost use Rattle.serde_json.specs.View.{view};
ghost use Rattle.voy_json.specs.Document.{data_of_bytes};
ghost use Rattle.voy_json.specs.Refusal.{RefusesDocument};

use serde_json::Value;
use std::alloc::Global;

/// Why bytes were not read.
#[derive(Clone, Copy, Debug, PartialEq, Eq)]
pub enum ParseError {
    /// They are no JSON document in UTF-8, or one that nests deeper than 127.
    NotJson,
    NoMemory,
}

/// The document that these bytes are.
pub fn parse(alloc: Global, bytes: &[u8]) -> Result<Value, ParseError>
    ensures ok { IfOk result (λ v. data_of_bytes bytes.now ≡ Some (view v)) }
    ensures err { IfErr result (RefusesDocument bytes.now) }
{
    match Value::from_slice(alloc, bytes) {
        Ok(value) => Ok(value),
        Err(error) => {
            if error.is_memory() {
                Err(ParseError::NoMemory)
            } else {
                Err(ParseError::NotJson)
            }
        }
    }
}
