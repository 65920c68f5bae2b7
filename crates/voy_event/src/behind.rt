ghost use Rattle.std.specs.Prelude.{◌≡◌, ◌++◌, [], ◌∷◌, ◌<◌, ◌/◌, ◌%◌, decimal, IfSome};
ghost use Rattle.std.specs.Char.{digit_char};
ghost use Rattle.json.specs.Print.{escape, escape_byte, escape_letter, quoted};

use itoa::Buffer;

/// What stands behind `piece` in a line that begins with it.
pub(crate) fn behind<'a>(line: &'a [u8], piece: &[u8]) -> Option<&'a [u8]>
    ensures { IfSome result (λ rest. line.now ≡ piece.now ++ rest.now) }
{
    line.strip_prefix(piece)
}

/// What stands behind the digits of `number` in a line that begins with them.
pub(crate) fn behind_number(line: &[u8], number: u64) -> Option<&[u8]>
    ensures { IfSome result (λ rest. line.now ≡ decimal number ++ rest.now) }
{
    let mut digits = Buffer::new();
    behind(line, digits.format(number).as_bytes())
}

/// What stands behind `text` in a line that begins with it as a JSON string.
pub(crate) fn behind_text<'a>(line: &'a [u8], text: &str) -> Option<&'a [u8]>
    ensures { IfSome result (λ rest. line.now ≡ quoted text.now ++ rest.now) }
{
    let inside = behind_byte(line, b'"')?;
    let rest = behind_escaped(inside, text.as_bytes())?;
    behind_byte(rest, b'"')
}

/// The same without the quotes.
fn behind_escaped<'a>(line: &'a [u8], text: &[u8]) -> Option<&'a [u8]>
    ensures { IfSome result (λ rest. line.now ≡ escape text.now ++ rest.now) }
{
    let mut rest = line;
    for byte in text {
        rest = behind_escape(rest, *byte)?;
    }
    Some(rest)
}

/// The same of one byte of a text.
#[tactic(auto, unfolding(json::specs::Print::escape_byte))]
fn behind_escape(line: &[u8], byte: u8) -> Option<&[u8]>
    ensures { IfSome result (λ rest. line.now ≡ escape_byte byte ++ rest.now) }
{
    let letter = escape_letter(byte);
    if letter > 0 {
        return behind_byte(behind_byte(line, b'\\')?, letter);
    }
    if byte < b' ' {
        return behind_code(line, byte);
    }
    behind_byte(line, byte)
}

/// The same of a byte that is written by its number.
fn behind_code(line: &[u8], byte: u8) -> Option<&[u8]>
    requires { byte < 32 }
    ensures { IfSome result (λ rest. line.now ≡ (92 ∷ 117 ∷ 48 ∷ 48 ∷ digit_char (byte / 16) ∷ digit_char (byte % 16) ∷ []) ++ rest.now) }
{
    let rest = behind(line, b"\\u00")?;
    let rest = behind_byte(rest, digit_of(byte / 16))?;
    behind_byte(rest, digit_of(byte % 16))
}

/// The letter behind the backslash for this byte, or 0 where it has none.
fn escape_letter(byte: u8) -> u8
    ensures { result ≡ escape_letter byte }
{
    match byte {
        b'"' | b'\\' => byte,
        8 => b'b',
        12 => b'f',
        b'\n' => b'n',
        b'\r' => b'r',
        b'\t' => b't',
        _ => 0,
    }
}

/// A hexadecimal digit.
fn digit_of(value: u8) -> u8
    requires { value < 16 }
    ensures { result ≡ digit_char value }
{
    if value < 10 {
        b'0' + value
    } else {
        b'a' + (value - 10)
    }
}

pub(crate) fn behind_byte(line: &[u8], byte: u8) -> Option<&[u8]>
    ensures { IfSome result (λ rest. line.now ≡ byte ∷ rest.now) }
{
    match line {
        [first, rest @ ..] if *first == byte => Some(rest),
        _ => None,
    }
}
