ghost use Rattle.std.specs.Prelude.{◌≡◌, ◌≤◌, IfErr, OnOk};
ghost use Rattle.voy_disk.specs.Faults.{Rose};
ghost use Rattle.voy_disk.specs.Written.{GotFront, grown};
ghost use Rattle.voy_command.specs.Stops.{IsOutputStop};

use crate::answer::Answer;
use voy_disk::{Sink, SinkError, write_all};

/// Prints a text. After an error a prefix of it was printed.
pub fn print_text<K: Sink>(text: &[u8], out: &mut K) -> Result<(), Answer>
    ensures ok { OnOk result (K.written out.new ≡ grown (K.written out.old) text.now) }
    ensures front { GotFront text.now (K.written out.old) (K.written out.new) }
    ensures err { IfErr result (IsOutputStop (Rose (K.faults out.old) (K.faults out.new))) }
    ensures later { K.faults out.old ≤ K.faults out.new }
{
    match write_all(out, text) {
        Ok(()) => Ok(()),
        Err(SinkError::Failed) => Err(Answer::OutputFault),
        Err(SinkError::NoMemory) => Err(Answer::NoMemory),
    }
}
