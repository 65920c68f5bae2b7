ghost use Rattle.std.specs.Prelude.{◌≡◌, [], true, false, slice_index_or, IfSome, MatchOption};
ghost use Rattle.std.specs.List.{list_all};
ghost use Rattle.std.specs.Str.{is_utf8};
ghost use Rattle.csv.specs.Records.{fields_of};

use csv::{ByteRecord, StringRecord};

/// The record as text, where each field is UTF-8.
pub(crate) fn into_text(line: ByteRecord) -> Option<StringRecord>
    ensures all_utf8 { MatchOption result (list_all is_utf8 (fields_of line) ≡ false) (λ text. list_all is_utf8 (fields_of line) ≡ true) }
    ensures same { IfSome result (λ text. fields_of text ≡ fields_of line) }
{
    StringRecord::from_byte_record(line).ok()
}

/// The field at a place; empty where there is none.
pub(crate) fn field_at(line: &StringRecord, place: usize) -> &str
    ensures { result.now ≡ slice_index_or (fields_of line.now) place [] }
{
    line.get(place).unwrap_or("")
}
