//! Texts that stand in front of other bytes.

ghost use Rattle.std.specs.Prelude.{◌≡◌, ◌<◌, ◌≤◌, ℕ, length, IfOk, IfErr};
ghost use Rattle.strip_model.specs.Orbit.{Orbit};
ghost use Rattle.instance_text.specs.Refusal.{IsFrontRefusal, IfRefused, IsFrontReadAs};
ghost use Rattle.instance_text.specs.Text.{IsFront, IsLookedAt};
ghost use Rattle.instance_text.specs.declared.limits.TheConstants.{MAX_TEXT_BYTES};

use crate::reader::split_line;
use crate::reading::read;
use crate::refusal::TextRefusal;
use crate::tokens::is_word;
use std::alloc::Global;
use strip_model::Instance;

/// The instance of the text that the bytes begin with, and the number of its bytes, up to and with the line `end` and
/// its LF. What follows isn't looked at.
///
/// # Errors
///
/// `Refused` exactly where the bytes begin with no instance text: what stands up to and with the first line `end` is
/// refused as `read` refuses it. `Memory` comes where no memory was left.
pub fn read_front(alloc: Global, bytes: &[u8]) -> Result<(Instance, usize), TextRefusal>
    requires { length bytes.now ≤ MAX_TEXT_BYTES }
    ensures front { IfOk result (λ read. IsFront bytes.now read.1 read.0) }
    ensures refused { IfErr result (λ e. IfRefused e (IsFrontRefusal bytes.now)) }
    ensures only { (n : ℕ) (J : Orbit) → IsFront bytes.now n J → IsFrontReadAs result n J }
{
    let n = front_length(bytes);
    let instance = read(alloc, &bytes[..n])?;
    Ok((instance, n))
}

// How many bytes are looked at: up to and with the first line `end`, or all.
fn front_length(bytes: &[u8]) -> usize
    ensures { IsLookedAt bytes.now result }
{
    let mut rest = bytes;
    while !rest.is_empty() {
        let (line, after) = split_line(rest);
        if is_word(line, b"end") {
            return bytes.len() - after.len();
        }
        rest = after;
    }
    bytes.len()
}
