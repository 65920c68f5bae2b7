ghost use Rattle.std.specs.Prelude.{◌≡◌};
ghost use Rattle.std.specs.List.{list_all};
ghost use Rattle.voy_schema.specs.Lawful.{is_name, is_first_of_name, is_byte_of_name};

use crate::limits::MAX_NAME_BYTES;

/// Whether `text` may name a schema, a table or a column: 1 to [`MAX_NAME_BYTES`] lower-case letters,
/// digits and `_`, of which the first is no digit.
pub fn is_name(text: &str) -> bool
    ensures { result ≡ is_name text.now }
{
    match text.as_bytes() {
        [] => false,
        [first, rest @ ..] => {
            is_first_of_name(*first) && has_name_bytes_alone(rest) && text.len() <= MAX_NAME_BYTES
        }
    }
}

fn has_name_bytes_alone(bytes: &[u8]) -> bool
    ensures { result ≡ list_all is_byte_of_name bytes.now }
{
    bytes.iter().all(|byte| is_byte_of_name(*byte))
}

fn is_byte_of_name(byte: u8) -> bool
    ensures { result ≡ is_byte_of_name byte }
{
    is_first_of_name(byte) || byte.is_ascii_digit()
}

fn is_first_of_name(byte: u8) -> bool
    ensures { result ≡ is_first_of_name byte }
{
    byte.is_ascii_lowercase() || byte == b'_'
}
