ghost use Rattle.std.specs.Prelude.{◌≡◌};
ghost use Rattle.voy_tables.specs.RowText.{starts_with_backslash};

/// The field that stands for NULL, which no text has.
pub(crate) const NULL_FIELD: &[u8] = b"\\N";

/// A text that begins with one has one more in front in its field.
pub(crate) const BACKSLASH: u8 = b'\\';

pub(crate) fn begins_with_backslash(text: &[u8]) -> bool
    ensures { result ≡ starts_with_backslash text.now }
{
    text.first() == Some(&BACKSLASH)
}
