ghost use Rattle.std.specs.Prelude.{◌≡◌, ◌≤◌, ◌<◌, ℕ, List, Option, length, IfOk};
ghost use Rattle.voy_disk.specs.Faults.{HasCause};
ghost use Rattle.voy_disk.specs.Written.{Writes};

/// Why a sink did not take what was written to it.
#[derive(Debug, Clone, Copy, PartialEq, Eq)]
pub enum SinkError {
    /// The sink failed. Its count of faults rose.
    Failed,
    /// Memory was refused. Nothing was written.
    NoMemory,
}

/// What takes bytes, one piece behind the other, and may fail at any call.
///
/// A sink tells contracts what was written to it, or does not: one in memory does, and a terminal
/// cannot. What is said of the bytes holds for sinks that tell them.
pub trait Sink {
    /// All bytes that were written, where the sink tells them.
    ghost written: { Self → Option (List ℕ) };

    /// How many faults there were, in 64 bits; the count stays at its type's end.
    ghost faults: { Self → ℕ };

    /// Writes the first bytes of `bytes`, and answers how many: at least one where there are any.
    /// After `Failed` some first bytes, perhaps none, were written; after `NoMemory` none.
    fn write(&mut self, bytes: &[u8]) -> Result<usize, SinkError>
        ensures within { IfOk result (λ n. n ≤ length bytes.now) }
        ensures some { IfOk result (λ n. 0 < length bytes.now → 0 < n) }
        ensures writes { Writes bytes.now result (written self.old) (written self.new) }
        ensures cause { HasCause SinkError.Failed (faults self.old) (faults self.new) result };
}

impl<K: Sink> Sink for &mut K {
    ghost written = { λ sink. K.written sink.now };

    ghost faults = { λ sink. K.faults sink.now };

    fn write(&mut self, bytes: &[u8]) -> Result<usize, SinkError> {
        (**self).write(bytes)
    }
}
