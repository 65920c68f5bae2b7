use std::alloc::Global;
use std::test::Fail;
use voy_disk::{HostSink, MemSink, Sink, SinkError, write_all};

/// A sink that takes at most three bytes at a call.
struct Narrow<K> {
    inner: K,
}

impl<K: Sink> Sink for Narrow<K> {
    ghost written = { λ sink. K.written sink.inner };

    ghost faults = { λ sink. K.faults sink.inner };

    fn write(&mut self, bytes: &[u8]) -> Result<usize, SinkError> {
        let count = bytes.len().min(3);
        self.inner.write(&bytes[..count])
    }
}

/// What `write_all` answers for `bytes`, and what it wrote, where the calls fail from this one on.
fn written(alloc: Global, bytes: &[u8], fail_from: u64) -> (Result<(), SinkError>, MemSink) {
    let mut sink = Narrow {
        inner: MemSink::new(alloc, fail_from),
    };
    let answer = write_all(&mut &mut sink, bytes);
    let Narrow { inner } = sink;
    (answer, inner)
}

#[test]
fn a_sink_that_fails_keeps_a_front(rt: HostRuntime) {
    let cases = [
        (0, Ok(()), b"0123456789".as_slice()),
        (1, Err(SinkError::Failed), b"".as_slice()),
        (2, Err(SinkError::Failed), b"012".as_slice()),
        (3, Err(SinkError::Failed), b"012345".as_slice()),
        (4, Err(SinkError::Failed), b"012345678".as_slice()),
        (5, Ok(()), b"0123456789".as_slice()),
    ];
    for (fail_from, want, bytes) in cases {
        let (answer, sink) = written(rt.alloc(), b"0123456789", fail_from);
        assert_eq!(rt; answer, want, "from call {fail_from} on");
        assert_eq!(rt; sink.bytes(), bytes, "from call {fail_from} on");
    }
}

#[test]
fn an_empty_text_takes_no_call(rt: HostRuntime) {
    let (answer, sink) = written(rt.alloc(), b"", 1);
    assert_eq!(rt; answer, Ok(()));
    assert_eq!(rt; sink.bytes(), b"".as_slice());
}

#[test]
fn the_standard_streams_take_bytes(rt: HostRuntime) -> Result<(), Fail> {
    write_all(&mut HostSink::out(rt.stdout()), b"out\n")?;
    write_all(&mut HostSink::err(rt.stderr()), b"err\n")?;
    Ok(())
}
