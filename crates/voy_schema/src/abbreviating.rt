ghost use Rattle.std.specs.Prelude.{◌≡◌, ◌<◌, ℕ, get_or};
ghost use Rattle.std.specs.declared.cmp.Ordering.TheVariants.{Less};
ghost use Rattle.voy_schema.specs.Abbreviations.{AbbreviatesText, AbbreviatesValue};
ghost use Rattle.voy_schema.specs.AbbreviationLaws.{texts_order, values_order};

use crate::text::Text;
use crate::value::Value;

/// Values with an abbreviated key: a number that tells most of them apart, in their order.
pub trait Abbreviate: Ord {
    /// The number is that of the value.
    ghost abbreviates: { Self → ℕ → Type 0 };

    /// The value's number. Of two values the one whose number is less comes first; where the numbers are the
    /// same, the values say which comes first.
    fn abbreviation(&self) -> u64
        ensures { abbreviates self.now result };

    ghost orders: { (a b : Self) (m n : ℕ) → abbreviates a m → abbreviates b n → m < n → Self.cmp a b ≡ Less };
}

impl Abbreviate for Text {
    ghost abbreviates = { AbbreviatesText };

    ghost orders = { texts_order };

    /// Its first eight bytes, the first of them worth most, with zeros behind a shorter text.
    fn abbreviation(&self) -> u64 {
        first_bytes(self.as_str().as_bytes())
    }
}

impl Abbreviate for Value {
    ghost abbreviates = { AbbreviatesValue };

    ghost orders = { values_order };

    /// 0 for NULL, and else that of the text.
    fn abbreviation(&self) -> u64 {
        match self {
            Value::Null => 0,
            Value::Text(text) => text.abbreviation(),
        }
    }
}

/// The first eight bytes as one number, the first of them worth most, with zeros behind fewer bytes.
fn first_bytes(bytes: &[u8]) -> u64
    ensures { AbbreviatesText bytes.now result }
{
    u64::from_be_bytes([
        byte_at(bytes, 0),
        byte_at(bytes, 1),
        byte_at(bytes, 2),
        byte_at(bytes, 3),
        byte_at(bytes, 4),
        byte_at(bytes, 5),
        byte_at(bytes, 6),
        byte_at(bytes, 7),
    ])
}

/// The byte at this place, 0 past the last one.
fn byte_at(bytes: &[u8], at: usize) -> u8
    ensures { result ≡ get_or bytes.now at 0 }
{
    match bytes.get(at) {
        Some(byte) => *byte,
        None => 0,
    }
}
