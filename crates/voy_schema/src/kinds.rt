ghost use Rattle.std.specs.Prelude.{◌≡◌, ◌&&◌, ◌%◌, ◌==◌, not, length};
ghost use Rattle.std.specs.Char.{is_ascii_digit};
ghost use Rattle.std.specs.List.{list_all, list_any};
ghost use Rattle.voy_schema.specs.Values.{is_decimal, is_bigint, is_boolean, is_bytea, is_lower_hex, is_text, is_lawful_text};

use crate::table::Kind;

/// Whether a column of kind `kind` takes `text`: it has the form in which PostgreSQL prints that type.
pub fn check_value(kind: Kind, text: &str) -> bool
    ensures { result ≡ is_lawful_text kind text.now }
{
    match kind {
        Kind::Text => is_text(text),
        Kind::Bigint => is_bigint(text),
        Kind::Boolean => is_boolean(text),
        Kind::Bytea => is_bytea(text),
    }
}

/// Whether PostgreSQL can hold `text`, which no U+0000 stands in.
#[tactic(auto, unfolding(crate::specs::Values::is_text))]
fn is_text(text: &str) -> bool
    ensures { result ≡ is_text text.now }
{
    !has_zero(text.as_bytes())
}

fn has_zero(bytes: &[u8]) -> bool
    ensures { result ≡ list_any (λ b. b == 0) bytes.now }
{
    bytes.iter().any(|byte| *byte == 0)
}

#[tactic(auto, unfolding(crate::specs::Values::is_bigint))]
fn is_bigint(text: &str) -> bool
    ensures { result ≡ is_bigint text.now }
{
    let Ok(number) = text.parse::<i64>() else {
        return false;
    };
    match text.as_bytes() {
        [b'-', digits @ ..] => is_decimal(digits) && number < 0,
        digits => is_decimal(digits),
    }
}

/// Whether these are digits without a leading zero, but for 0 itself.
fn is_decimal(digits: &[u8]) -> bool
    ensures { result ≡ is_decimal digits.now }
{
    match digits {
        [] => false,
        [first, rest @ ..] => has_digits_alone(digits) && (*first != b'0' || rest.is_empty()),
    }
}

fn has_digits_alone(bytes: &[u8]) -> bool
    ensures { result ≡ list_all is_ascii_digit bytes.now }
{
    bytes.iter().all(|byte| byte.is_ascii_digit())
}

#[tactic(auto, unfolding(crate::specs::Values::is_boolean))]
fn is_boolean(text: &str) -> bool
    ensures { result ≡ is_boolean text.now }
{
    matches!(text, "t" | "f")
}

#[tactic(auto, unfolding(crate::specs::Values::is_bytea))]
fn is_bytea(text: &str) -> bool
    ensures { result ≡ is_bytea text.now }
{
    match text.as_bytes() {
        [b'\\', b'x', digits @ ..] => has_lower_hex_alone(digits) && digits.len() % 2 == 0,
        _ => false,
    }
}

fn has_lower_hex_alone(bytes: &[u8]) -> bool
    ensures { result ≡ list_all is_lower_hex bytes.now }
{
    bytes.iter().all(|byte| is_lower_hex(*byte))
}

fn is_lower_hex(byte: u8) -> bool
    ensures { result ≡ is_lower_hex byte }
{
    matches!(byte, b'0'..=b'9' | b'a'..=b'f')
}
