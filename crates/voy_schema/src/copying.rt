ghost use Rattle.std.specs.Prelude.{◌≡◌, IfOk};

use std::alloc::AllocError;

/// A type whose values can be copied, with memory of the copy's own.
pub trait Copies {
    /// An equal value. It fails only for want of memory.
    fn copy(&self) -> Result<Self, AllocError>
        ensures { IfOk result (λ made. made ≡ self.now) };
}
