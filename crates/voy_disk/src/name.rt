ghost use Rattle.std.specs.Prelude.{◌≡◌, ◌↔◌, ◌&&◌, nat_le, length, List, ℕ, IfOk, IfSome, IsSome, IsTrue, string_bytes};
ghost use Rattle.std.specs.List.{list_all};
ghost use Rattle.voy_disk.specs.Name.{is_name, is_name_byte, names_a_folder};

use std::alloc::{AllocError, Global};
use std::marker::Model;

/// The greatest length of a file name. A longer text is no name.
pub const MAX_NAME_BYTES: usize = 255;

/// The name of a file on a disk: 1 to 255 bytes of ASCII letters, digits, `_` and `.`, other than
/// `.` and `..`. Contracts see it as its bytes.
#[derive(Debug, Drop)]
pub struct Name {
    text: String,
}

impl Model for Name {
    ghost Value = { List ℕ };

    ghost view = { λ name. string_bytes name.text };

    ghost invariant = { λ name. IsTrue (is_name (string_bytes name.text)) };
}

impl Name {
    /// The name with this text. `None` exactly where the text is no file name.
    pub fn new(alloc: Global, text: &str) -> Result<Option<Name>, AllocError>
        ensures valid { IfOk result (λ name. IsSome name ↔ IsTrue (is_name text.now)) }
        ensures same { IfOk result (λ name. IfSome name (λ bytes. bytes ≡ text.now)) }
    {
        if !is_file_name(text) {
            return Ok(None);
        }
        let text = String::from_str(alloc, text)?;
        Ok(Some(Name { text }))
    }

    /// The text of the name.
    pub fn as_str(&self) -> &str
        ensures text { result.now ≡ self.now }
        ensures valid { IsTrue (is_name result.now) }
    {
        self.text.as_str()
    }

    /// An equal name.
    pub fn copy(&self) -> Result<Name, AllocError>
        ensures { IfOk result (λ name. name ≡ self.now) }
    {
        let text = self.text.clone()?;
        Ok(Name { text })
    }
}

fn is_file_name(text: &str) -> bool
    ensures { result ≡ is_name text.now }
{
    has_name_length(text.as_bytes()) && has_name_bytes(text.as_bytes()) && !is_dots(text)
}

fn has_name_length(bytes: &[u8]) -> bool
    ensures { result ≡ (nat_le 1 (length bytes.now) && nat_le (length bytes.now) 255) }
{
    !bytes.is_empty() && bytes.len() <= MAX_NAME_BYTES
}

fn has_name_bytes(bytes: &[u8]) -> bool
    ensures { result ≡ list_all is_name_byte bytes.now }
{
    bytes.iter().all(|byte| may_stand_in_a_name(*byte))
}

fn may_stand_in_a_name(byte: u8) -> bool
    ensures { result ≡ is_name_byte byte }
{
    byte.is_ascii_alphanumeric() || byte == b'_' || byte == b'.'
}

// The two names that a folder has for itself and for the one above it.
fn is_dots(text: &str) -> bool
    ensures { result ≡ names_a_folder text.now }
{
    text == "." || text == ".."
}
