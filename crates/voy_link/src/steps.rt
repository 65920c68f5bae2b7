ghost use Rattle.std.specs.Prelude.{◌≡◌, ◌+◌, ℕ};
ghost use Rattle.std.specs.Borrow.{ftrue};

use std::marker::{Model, PhantomData};

/// How many steps were taken. It takes no bytes, `new` makes it at 0, and only `tick` changes it.
///
/// `L` names what the steps belong to, and may be any ledger: counts of two ledgers do not mix.
pub struct Steps<L> {
    of: PhantomData<L>,
    pub ghost count: { ℕ },
}

impl<L> Model for Steps<L> {
    ghost also_owns = { λ _. ftrue };
}

impl<L> Steps<L> {
    /// A counter that stands at 0.
    pub fn new() -> Steps<L>
        ensures { result.count ≡ 0 }
    {
        Steps { of: PhantomData }
    }

    /// Raises the counter by one.
    pub fn tick(&mut self)
        ensures { self.new.count ≡ self.old.count + 1 }
    {
        *self = self.next();
    }

    // The counter that stands one higher.
    fn next(&self) -> Steps<L>
        ensures { result.count ≡ self.now.count + 1 }
    {
        Steps { of: PhantomData }
    }
}

impl<L> Drop for Steps<L> {
    fn drop(self) {
        let Self { of: _ } = self;
    }
}
