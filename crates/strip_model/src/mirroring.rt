//! The mirror of an instance.

ghost use Rattle.std.specs.Prelude.{◌≡◌, ◌≤◌, map, IfOk};
ghost use Rattle.strip_model.specs.Horizon.{end_of, greatest_end};
ghost use Rattle.strip_model.specs.IsInstance.{IsInstance};
ghost use Rattle.strip_model.specs.Mirror.{mirror_of, flip_strip, flip_window};
ghost use Rattle.strip_model.specs.Orbit.{window_of};

mod laws;

use crate::{Instance, Strip, Window};
pub use laws::mirror_laws;
use std::alloc::{AllocError, Global};

/// The mirror of an instance: the orbit as it is seen from its end, with time running backwards from the instance's
/// horizon. What is the last acquisition of a plan is the first on the mirror. It fails for want of memory alone.
pub fn mirror(alloc: Global, inst: &Instance) -> Result<Instance, AllocError>
    ensures value { IfOk result (λ mirrored. mirrored ≡ mirror_of inst.now) }
    ensures sound { IfOk result IsInstance }
{
    let requests = Vec::from_slice(alloc, inst.requests())?;
    let strips = flip_strips(alloc, inst.strips(), inst.horizon())?;
    let table = inst.table().turned(alloc)?;
    let mirrored = Instance::from_parts(alloc, requests, strips, table)?;
    Ok(mirrored)
}

// The strips with their windows flipped.
fn flip_strips(alloc: Global, strips: &[Strip], horizon: u32) -> Result<Vec<Strip>, AllocError>
    requires { greatest_end strips.now ≤ horizon }
    ensures { IfOk result (λ flipped. flipped.items ≡ map (flip_strip horizon) strips.now) }
{
    let mut flipped = Vec::with_capacity(alloc, strips.len())?;
    for strip in strips {
        flipped.push(flip_strip(*strip, horizon))?;
    }
    Ok(flipped)
}

// The strip with both windows flipped.
fn flip_strip(strip: Strip, horizon: u32) -> Strip
    requires forth { end_of (window_of strip 0) ≤ horizon }
    requires back { end_of (window_of strip 1) ≤ horizon }
    ensures { result ≡ flip_strip horizon strip }
{
    Strip {
        windows: [
            flip_window(strip.windows[0], horizon),
            flip_window(strip.windows[1], horizon),
        ],
        ..strip
    }
}

// The window from the horizon on.
fn flip_window(window: Window, horizon: u32) -> Window
    requires { end_of window ≤ horizon }
    ensures { result ≡ flip_window horizon window }
{
    Window {
        early: horizon - window.late - window.duration,
        late: horizon - window.early - window.duration,
        duration: window.duration,
    }
}
