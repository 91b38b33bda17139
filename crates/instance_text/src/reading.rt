ghost use Rattle.std.specs.Prelude.{◌≡◌, ◌<◌, ◌≤◌, length, IfOk, IfErr};
ghost use Rattle.strip_model.specs.Orbit.{Orbit};
ghost use Rattle.strip_model.specs.declared.limits.TheConstants.{MAX_REQUESTS, MAX_STRIPS};
ghost use Rattle.instance_text.specs.Refusal.{IsRefusal, place_of, IfRefused, IsReadAs};
ghost use Rattle.instance_text.specs.Text.{IsText};
ghost use Rattle.instance_text.specs.declared.limits.TheConstants.{MAX_TEXT_BYTES};

use crate::contents::read_contents;
use crate::limits::HEAD_LINES;
use crate::place::line_number;
use crate::refusal::{Cause, Refusal, TextRefusal};
use crate::rules::{Unmade, make};
use std::alloc::Global;
use strip_model::Instance;

/// The instance of a text.
///
/// # Errors
///
/// `Refused` exactly where the bytes are no instance text. It names the first line that can't stand, for the first
/// token from the left that can't stand there. Where all lines can, it names the least strip that breaks a twin rule,
/// or else the row of the least place of the table that breaks a rule. `Memory` comes where no memory was left.
pub fn read(alloc: Global, bytes: &[u8]) -> Result<Instance, TextRefusal>
    requires { length bytes.now ≤ MAX_TEXT_BYTES }
    ensures text { IfOk result (IsText bytes.now) }
    ensures refused { IfErr result (λ e. IfRefused e (IsRefusal bytes.now)) }
    ensures only { (J : Orbit) → IsText bytes.now J → IsReadAs result J }
{
    let contents = read_contents(alloc, bytes)?;
    let requests = contents.requests.len();
    let strips = contents.strips.len();
    match make(alloc, contents) {
        Ok(instance) => Ok(instance),
        Err(Unmade::Memory) => Err(TextRefusal::Memory),
        Err(Unmade::Broken(cause)) => Err(TextRefusal::Refused(Refusal {
            line: line_number(bytes, place_of(requests, strips, cause)),
            cause,
        })),
    }
}

// The place of the line that shows a broken rule, where there are that many requests and strips.
fn place_of(requests: usize, strips: usize, cause: Cause) -> usize
    requires requests { requests ≤ MAX_REQUESTS }
    requires strips { strips ≤ MAX_STRIPS }
    ensures { result ≡ place_of requests strips cause }
{
    match cause {
        Cause::TwinSelf { i } | Cause::TwinOtherRequest { i } | Cause::TwinNotMutual { i } => {
            HEAD_LINES + 2 + requests + usize::from(i)
        }
        Cause::SameStrip { x, .. } | Cause::Shortcut { x, .. } => {
            HEAD_LINES + 3 + requests + strips + usize::from(x)
        }
        _ => 0,
    }
}
