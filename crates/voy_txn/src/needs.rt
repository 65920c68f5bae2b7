ghost use Rattle.std.specs.Prelude.{◌≡◌, ◌<◌, ◌≤◌, [], ◌∷◌, ◌++◌, length};

use arrayvec::ArrayVec;
use std::marker::Model;

/// What a change waits for: that this channel be done up to this vsn.
#[derive(Clone, Copy, Debug, Default, PartialEq, Eq)]
pub struct Need {
    pub channel: u32,
    pub vsn: u64,
}

/// How many needs a change has at most: one for each unique key that a table may have.
pub const MAX_NEEDS: usize = 8;

/// All that a change waits for, in the order of the unique keys for which it does. They lie in the value
/// itself, so that making them takes no memory. Contracts see them as a list.
#[derive(Drop)]
pub struct Needs {
    needs: ArrayVec<Need, MAX_NEEDS>,
}

impl Model for Needs {
    ghost use Rattle.std.specs.Prelude.{List};
    ghost use Rattle.voy_txn.specs.declared.needs.Need.{Need as NeedOf};

    ghost Value = { List NeedOf };

    ghost view = { λ n. n.needs.items };
}

impl Needs {
    /// None.
    pub fn new() -> Needs
        ensures { result ≡ [] }
    {
        Needs {
            needs: ArrayVec::new(),
        }
    }

    pub fn as_slice(&self) -> &[Need]
        ensures value { result.now ≡ self.now }
        ensures few { length self.now ≤ 8 }
    {
        self.needs.as_slice()
    }

    /// Puts one behind the others. There must be room for it.
    pub fn push(&mut self, need: Need)
        requires { length self.old < 8 }
        ensures { self.new ≡ self.old ++ need ∷ [] }
    {
        self.needs.push(need);
    }
}
