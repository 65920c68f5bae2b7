ghost use Rattle.std.specs.Prelude.{◌≡◌, [], ◌∷◌, ◌++◌, map, OnErr, OnOk};

use std::alloc::{AllocError, Global};
use std::marker::Model;

/// The payloads of a journal, in order. Contracts see them as the list of their bytes.
#[derive(Debug, Drop)]
pub struct Payloads {
    items: Vec<Vec<u8>>,
}

impl Model for Payloads {
    ghost use Rattle.std.specs.Prelude.{List, ℕ, map};

    ghost Value = { List (List ℕ) };

    ghost view = { λ payloads. map (λ payload. payload.items) payloads.items.items };
}

impl Payloads {
    /// No payloads, which take no memory.
    pub fn new(alloc: Global) -> Payloads
        ensures { result ≡ [] }
    {
        Payloads {
            items: Vec::new(alloc),
        }
    }

    /// Puts a payload behind the others. After an error nothing changed.
    pub fn push(&mut self, payload: Vec<u8>) -> Result<(), AllocError>
        ensures ok { OnOk result (self.new ≡ self.old ++ payload.items ∷ []) }
        ensures err { OnErr result (self.new ≡ self.old) }
    {
        self.items.push(payload)?;
        Ok(())
    }

    /// The payloads of a vector, with no memory taken.
    pub fn from_vec(items: Vec<Vec<u8>>) -> Payloads
        ensures { result ≡ map (λ payload. payload.items) items.items }
    {
        Payloads { items }
    }

    /// The payloads as a vector, with no memory taken.
    pub fn into_vec(self) -> Vec<Vec<u8>>
        ensures { map (λ payload. payload.items) result.items ≡ self }
    {
        self.items
    }

    /// The payloads, to be gone through.
    pub fn as_slice(&self) -> &[Vec<u8>]
        ensures { map (λ payload. payload.items) result.now ≡ self.now }
    {
        self.items.as_slice()
    }
}
