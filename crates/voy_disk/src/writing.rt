ghost use Rattle.std.specs.Prelude.{◌≡◌, OnOk};
ghost use Rattle.voy_disk.specs.Faults.{HasCause};
ghost use Rattle.voy_disk.specs.Written.{grown, GotFront};

use crate::sink::{Sink, SinkError};

/// Writes all of `bytes`. After an error some first bytes of them, perhaps none, were written.
pub fn write_all<K: Sink>(sink: &mut K, bytes: &[u8]) -> Result<(), SinkError>
    ensures ok { OnOk result (K.written sink.new ≡ grown (K.written sink.old) bytes.now) }
    ensures front { GotFront bytes.now (K.written sink.old) (K.written sink.new) }
    ensures cause { HasCause SinkError.Failed (K.faults sink.old) (K.faults sink.new) result }
{
    let mut at = 0;
    while at < bytes.len() {
        at += sink.write(&bytes[at..])?;
    }
    Ok(())
}
