ghost use Rattle.std.specs.Prelude.{◌≡◌, IfOk, string_bytes, IsUtf8};

use crate::copying::Copies;
use smallvec::SmallVec;
use std::alloc::{AllocError, Global};
use std::fmt;
use std::marker::Model;

/// A text of at most so many bytes lies in the value itself, so that most keys and numbers take no memory of
/// their own.
const INLINE_BYTES: usize = 24;

/// A text, which contracts see as its bytes.
#[derive(Drop)]
pub struct Text {
    bytes: SmallVec<u8, INLINE_BYTES>,
}

impl Model for Text {
    ghost use Rattle.std.specs.Prelude.{ℕ, List, IsUtf8};
    ghost use Rattle.std.specs.Coded.{coded_ℕ, coded_list};

    ghost Value = { List ℕ };

    ghost coded = { coded_list coded_ℕ };

    ghost view = { λ t. t.bytes.items };

    ghost invariant = { λ t. IsUtf8 t.bytes.items };
}

impl Text {
    /// A copy of `text`.
    pub fn from_str(alloc: Global, text: &str) -> Result<Text, AllocError>
        ensures { IfOk result (λ t. t ≡ text.now) }
    {
        let bytes = SmallVec::from_slice(alloc, text.as_bytes())?;
        Ok(Text { bytes })
    }

    pub fn as_str(&self) -> &str
        ensures { result.now ≡ self.now }
    {
        // The bytes are those of a text, and are never changed.
        unsafe { str::from_utf8_unchecked(self.bytes.as_slice()) }
    }
}

impl Copies for Text {
    fn copy(&self) -> Result<Self, AllocError> {
        let bytes = SmallVec::from_slice(*self.bytes.allocator(), self.bytes.as_slice())?;
        Ok(Text { bytes })
    }
}

impl fmt::Debug for Text {
    fn fmt<W: fmt::Write>(&self, f: &mut fmt::Formatter<W>) -> fmt::Result {
        fmt::Debug::fmt(&self.as_str(), f)
    }
}
