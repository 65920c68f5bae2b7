ghost use Rattle.std.specs.Prelude.{◌≡◌, ◌≤◌, ◌<◌, ◌↔◌, ℕ, [], Some, length, IfOk, IsErrOf, IsTrue};
ghost use Rattle.voy_disk.specs.Faults.{HasCause, count_after};
ghost use Rattle.voy_disk.specs.Written.{Writes};

use crate::sink::{Sink, SinkError};
use std::alloc::Global;

/// A sink in memory that fails from a call on. It tells what was written to it.
///
/// The number of its calls and its count of faults stay at the end of their type.
#[derive(Debug, Drop)]
pub struct MemSink {
    bytes: Vec<u8>,
    fail_from: u64,
    calls: u64,
    faults: u64,
}

impl MemSink {
    ghost use Rattle.voy_disk.specs.MemSink.{mem_sink_bytes, mem_sink_fail_from, mem_sink_calls, mem_sink_faults};

    /// An empty sink whose calls fail from this number on, counted from 1; none fails where it is 0.
    pub fn new(alloc: Global, fail_from: u64) -> MemSink
        ensures bytes { mem_sink_bytes result ≡ [] }
        ensures fail_from { mem_sink_fail_from result ≡ fail_from }
        ensures calls { mem_sink_calls result ≡ 0 }
        ensures faults { mem_sink_faults result ≡ 0 }
    {
        MemSink {
            bytes: Vec::new(alloc),
            fail_from,
            calls: 0,
            faults: 0,
        }
    }

    /// All bytes that were written.
    pub fn bytes(&self) -> &[u8]
        ensures { result.now ≡ mem_sink_bytes self.now }
    {
        self.bytes.as_slice()
    }
}

impl Sink for MemSink {
    ghost use Rattle.voy_disk.specs.MemSink.{mem_sink_bytes, mem_sink_fail_from, mem_sink_calls, mem_sink_faults, write_fails};

    ghost written = { λ sink. Some (mem_sink_bytes sink) };

    ghost faults = { λ sink. mem_sink_faults sink };

    /// Writes all of `bytes`.
    fn write(&mut self, bytes: &[u8]) -> Result<usize, SinkError>
        ensures all { IfOk result (λ n. n ≡ length bytes.now) }
        ensures writes { Writes bytes.now result (Some (mem_sink_bytes self.old)) (Some (mem_sink_bytes self.new)) }
        ensures cause { HasCause SinkError.Failed (mem_sink_faults self.old) (mem_sink_faults self.new) result }
        ensures planned { IsErrOf result SinkError.Failed ↔ IsTrue (write_fails self.old) }
        ensures counted { mem_sink_calls self.new ≡ count_after (mem_sink_calls self.old) }
        ensures fail_from { mem_sink_fail_from self.new ≡ mem_sink_fail_from self.old }
    {
        self.calls = self.calls.saturating_add(1);
        if self.fail_from > 0 && self.fail_from <= self.calls {
            self.faults = self.faults.saturating_add(1);
            return Err(SinkError::Failed);
        }
        match self.bytes.extend_from_slice(bytes) {
            Ok(()) => Ok(bytes.len()),
            Err(_) => Err(SinkError::NoMemory),
        }
    }
}
