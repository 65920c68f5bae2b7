ghost use Rattle.std.specs.Prelude.{◌≡◌, ◌≤◌, ℕ, None};
ghost use Rattle.voy_disk.specs.Faults.{Rose};

use crate::sink::{Sink, SinkError};
use std::io::Print;
use std::rt::{Stderr, Stdout};

/// A standard stream of the process. It tells nothing of what was written to it; that the stream
/// shows it is trusted.
///
/// Its count of faults stays at the end of its type.
#[derive(Drop)]
pub struct HostSink {
    stream: Stream,
    faults: u64,
}

// Which of the two.
#[derive(Drop)]
enum Stream {
    Out(Stdout),
    Err(Stderr),
}

impl HostSink {
    ghost use Rattle.voy_disk.specs.HostSink.{host_sink_faults};

    /// The standard output.
    pub fn out(stream: Stdout) -> HostSink
        ensures { host_sink_faults result ≡ 0 }
    {
        HostSink {
            stream: Stream::Out(stream),
            faults: 0,
        }
    }

    /// The standard error output.
    pub fn err(stream: Stderr) -> HostSink
        ensures { host_sink_faults result ≡ 0 }
    {
        HostSink {
            stream: Stream::Err(stream),
            faults: 0,
        }
    }

    fn fail(&mut self) -> SinkError
        ensures error { result ≡ SinkError.Failed }
        ensures later { host_sink_faults self.old ≤ host_sink_faults self.new }
        ensures rose { Rose (host_sink_faults self.old) (host_sink_faults self.new) }
    {
        self.faults = self.faults.saturating_add(1);
        SinkError::Failed
    }
}

impl Sink for HostSink {
    ghost use Rattle.voy_disk.specs.HostSink.{host_sink_faults};

    ghost written = { λ _. None };

    ghost faults = { λ sink. host_sink_faults sink };

    /// Writes to the stream. A write that takes no byte of some is a fault.
    fn write(&mut self, bytes: &[u8]) -> Result<usize, SinkError> {
        let wrote = match &self.stream {
            Stream::Out(stream) => stream.write_some(bytes),
            Stream::Err(stream) => stream.write_some(bytes),
        };
        match wrote {
            Ok(count) if count > 0 || bytes.is_empty() => Ok(count),
            _ => Err(self.fail()),
        }
    }
}
