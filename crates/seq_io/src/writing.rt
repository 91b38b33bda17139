// Writing all of a text.
ghost use Rattle.std.specs.Prelude.{◌≡◌, ◌++◌, ℕ, List, IsErr};
ghost use Rattle.seq_io.specs.Count.{HasCause};
ghost use Rattle.seq_io.specs.Sink.{Appends};
ghost use Rattle.seq_io.specs.Writing.{IsWriting};

use crate::sink::Sink;
use thiserror::Error;

/// The sink counted a fault before all the bytes were written.
#[derive(Clone, Copy, Debug, PartialEq, Eq, Error)]
#[error("a write failed")]
pub struct WriteFault;

/// Appends all of `bytes` to a sink. `WriteFault` comes where a write failed; then a prefix of
/// `bytes` was appended, and not all of them. It takes no memory.
pub fn write_whole<K: Sink>(sink: &mut K, bytes: &[u8]) -> Result<(), WriteFault>
    ensures whole { (front : List ℕ) × Appends (K.written sink.old) (K.written sink.new) front
        × IsWriting result front bytes.now }
    ensures cause { HasCause (K.faults sink.old) (K.faults sink.new) (IsErr result) }
{
    let mut rest = bytes;
    while !rest.is_empty() {
        let Ok(n) = sink.write(rest) else {
            return Err(WriteFault);
        };
        rest = &rest[n..];
    }
    Ok(())
}
