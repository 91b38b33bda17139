//! What a side looks up again and again, made once.

ghost use Rattle.std.specs.Prelude.{◌≡◌, ℕ, ◌<◌, ◌≤◌, ◌==◌, ◌&&◌, ◌||◌, nat_lt, length, IfOk};
ghost use Rattle.label.specs.Tables.{step_at, deadline_at, is_strip_of, AreEntries, AreStripsOf, ArePaired};
ghost use Rattle.strip_model.specs.Directed.{strip_of, has};
ghost use Rattle.strip_model.specs.Orbit.{strip_in};
ghost use Rattle.strip_model.specs.declared.limits.TheConstants.{MAX_STRIPS};

use std::alloc::{AllocError, Global};
use strip_model::{Directed, Instance, MAX_STRIPS, Strip};
use strip_set::{DirectedSet, StripSet};

// A set has room for all strips.
const _: () = prove!(MAX_STRIPS <= strip_set::MAX_STRIPS as usize);

/// The step between each two directed strips, in ticks, the rows one after another.
pub(crate) fn steps_of(alloc: Global, instance: &Instance) -> Result<Vec<u32>, AllocError>
    ensures { IfOk result (λ steps. AreEntries instance.now (step_at instance.now) steps.items) }
{
    let count = 2 * instance.strips().len();
    let mut steps = Vec::with_capacity(alloc, count * count)?;
    for place in 0..count * count {
        let from = Directed((place / count) as u16);
        let to = Directed((place % count) as u16);
        steps.push(step(instance, from, to))?;
    }
    Ok(steps)
}

/// The deadline between each two directed strips, in ticks, the rows one after another.
pub(crate) fn deadlines_of(alloc: Global, instance: &Instance) -> Result<Vec<u32>, AllocError>
    ensures { IfOk result (λ deadlines. AreEntries instance.now (deadline_at instance.now) deadlines.items) }
{
    let count = 2 * instance.strips().len();
    let mut deadlines = Vec::with_capacity(alloc, count * count)?;
    for place in 0..count * count {
        let from = Directed((place / count) as u16);
        let to = Directed((place % count) as u16);
        deadlines.push(deadline(instance, from, to))?;
    }
    Ok(deadlines)
}

// The time from the start of an acquisition of `x` until the satellite is ready to acquire `y`, in ticks.
fn step(instance: &Instance, x: Directed, y: Directed) -> u32
    requires from { strip_of x < length instance.now.strips }
    requires to { strip_of y < length instance.now.strips }
    ensures { result ≡ step_at instance.now x y }
{
    let duration = instance.window(x).duration;
    let manoeuvre = instance.manoeuvre(x, y);
    duration + manoeuvre
}

// One more than the latest start of `x` after which `y` can still begin in its window, in ticks, and 0 where there is none.
fn deadline(instance: &Instance, x: Directed, y: Directed) -> u32
    requires from { strip_of x < length instance.now.strips }
    requires to { strip_of y < length instance.now.strips }
    ensures { result ≡ deadline_at instance.now x y }
{
    let step = step(instance, x, y);
    let window = instance.window(y);
    if window.early <= window.late {
        (window.late + 1).saturating_sub(step)
    } else {
        0
    }
}

/// The strips of each request, by request.
pub(crate) fn members_of(alloc: Global, instance: &Instance) -> Result<Vec<StripSet>, AllocError>
    ensures { IfOk result (λ members. AreStripsOf instance.now members.items) }
{
    let strips = instance.strips();
    let count = instance.requests().len();
    let mut members = Vec::with_capacity(alloc, count)?;
    for request in 0..count {
        members.push(strips_of_request(strips, request as u16))?;
    }
    Ok(members)
}

// The strips of a request.
fn strips_of_request(strips: &[Strip], request: u16) -> StripSet
    requires { length strips.now ≤ MAX_STRIPS }
    ensures { (i : ℕ) → has i result ≡ (nat_lt i (length strips.now) && (strip_in strips.now i).request == request) }
{
    let mut members = StripSet::empty();
    for (i, strip) in strips.iter().enumerate() {
        if strip.request == request {
            members = members.with(i as u16);
        }
    }
    members
}

/// The directed strips whose strip has a twin.
pub(crate) fn paired_of(instance: &Instance) -> DirectedSet
    ensures { ArePaired instance.now result }
{
    let strips = instance.strips();
    let mut paired = DirectedSet::empty();
    for (i, strip) in strips.iter().enumerate() {
        if strip.twin.is_some() {
            paired = with_both(paired, i as u16);
        }
    }
    paired
}

// The set with both directions of a strip.
fn with_both(set: DirectedSet, strip: u16) -> DirectedSet
    requires { strip < MAX_STRIPS }
    ensures { (y : ℕ) → has y result ≡ (has y set || strip_of y == strip) }
{
    set.with(2 * strip).with(2 * strip + 1)
}
