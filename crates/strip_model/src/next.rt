//! What comes next in a plan.

ghost use Rattle.std.specs.Prelude.{◌≡◌, ◌<◌, ◌++◌, ◌∷◌, [], length, IfSome, IfNone};
ghost use Rattle.strip_model.specs.Directed.{strip_of};
ghost use Rattle.strip_model.specs.Plan.{order_of, StripsExist};
ghost use Rattle.strip_model.specs.Starts.{arrive, place_of, IsInTime, HasEarliestStarts};

use crate::sequence::has_strip;
use crate::{Acquisition, Directed, Instance};

/// When an acquisition of `x` can start after the last one of a plan, or as the first one, in ticks.
pub fn earliest_start(instance: &Instance, plan: &[Acquisition], x: Directed) -> u64
    requires exist { StripsExist instance.now (order_of plan.now) }
    requires next { strip_of x < length instance.now.strips }
    ensures { result ≡ arrive instance.now (place_of plan.now) x }
{
    match plan.last() {
        None => u64::from(instance.window(x).early),
        Some(last) => instance.arrive_after(last.start, last.at, x),
    }
}

/// The acquisition of `x` that comes next in a plan at earliest starts, itself at its earliest start. None where its strip
/// doesn't exist or stands in the plan, or where its earliest start is past its window.
pub fn following(instance: &Instance, plan: &[Acquisition], x: Directed) -> Option<Acquisition>
    requires in_time { IsInTime instance.now (order_of plan.now) }
    requires starts { HasEarliestStarts instance.now plan.now }
    ensures strip { IfSome result (λ a. a.at ≡ x) }
    ensures in_time { IfSome result (λ a. IsInTime instance.now (order_of plan.now ++ x ∷ [])) }
    ensures starts { IfSome result (λ a. HasEarliestStarts instance.now (plan.now ++ a ∷ [])) }
    ensures none { IfNone result (¬ IsInTime instance.now (order_of plan.now ++ x ∷ [])) }
{
    if usize::from(x.strip()) >= instance.strips().len() || has_strip(plan, x.strip()) {
        return None;
    }
    let start = earliest_start(instance, plan, x);
    if start > u64::from(instance.window(x).late) {
        return None;
    }
    Some(Acquisition {
        start: start as u32,
        at: x,
    })
}
