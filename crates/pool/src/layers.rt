//! Layers of last starts: so wide that an extension of a label never falls into the label's own.

ghost use Rattle.std.specs.Prelude.{◌≤◌, ◌<◌, length};
ghost use Rattle.strip_model.specs.Directed.{strip_of};

use label::Side;
use strip_model::{Directed, Instance, MAX_HORIZON};

/// How wide a layer of a side is, in ticks: the least time from the start of an acquisition to the start of the next.
pub(crate) fn width_of(side: &Side) -> u32
    ensures { 1 ≤ result }
{
    let instance = side.instance();
    let count = 2 * instance.strips().len() as u16;
    let mut least = MAX_HORIZON;
    for x in 0..count {
        least = least.min(least_from(instance, Directed(x)));
    }
    least.max(1)
}

// The least time from the start of `x` to that of another strip, in ticks.
fn least_from(instance: &Instance, x: Directed) -> u32
    requires { strip_of x < length instance.now.strips }
{
    let count = 2 * instance.strips().len() as u16;
    let duration = instance.window(x).duration;
    let mut least = MAX_HORIZON;
    for y in 0..count {
        if Directed(y).strip() != x.strip() {
            least = least.min(duration.saturating_add(instance.manoeuvre(x, Directed(y))));
        }
    }
    least
}

/// Where the layer ends in which a start lies, in ticks: the least greater multiple of the width.
pub(crate) fn end_of_layer(start: u32, width: u32) -> u32
    requires { 1 ≤ width }
{
    (start / width).saturating_add(1).saturating_mul(width)
}
