ghost use Rattle.std.specs.Prelude.{◌≡◌, ◌==◌, List, ℕ};
ghost use Rattle.std.specs.List.{list_any};

use std::marker::Model;

/// A list of numbers. Contracts see it as the list itself.
#[derive(Debug, Drop)]
pub struct Numbers {
    items: Vec<u64>,
}

impl Model for Numbers {
    ghost Value = { List ℕ };

    ghost view = { λ numbers. numbers.items.items };
}

impl Numbers {
    /// The numbers of a vector, in its order.
    pub fn from_vec(items: Vec<u64>) -> Numbers
        ensures { result ≡ items.items }
    {
        Numbers { items }
    }

    /// The vector of the numbers, in their order.
    pub fn into_vec(self) -> Vec<u64>
        ensures { result.items ≡ self }
    {
        self.items
    }

    /// Whether the number is among these.
    pub fn contains(&self, number: u64) -> bool
        ensures { result ≡ list_any (λ n. n == number) self.now }
    {
        self.items.iter().any(|n| *n == number)
    }
}
