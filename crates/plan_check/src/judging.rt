ghost use Rattle.std.specs.Prelude.{◌≡◌, ◌+◌, ◌<◌, ◌≤◌, ◌↔◌, length, IsOk, IsTrue, IfOk, IfErr, IfSome, IfNone};
ghost use Rattle.plan_check.specs.Fault.{IsFirstFault, HasNoFaultBelow, BreaksRule, acquisition_at};
ghost use Rattle.strip_model.specs.Directed.{strip_of};
ghost use Rattle.strip_model.specs.Plan.{Feasible, gain_of};
ghost use Rattle.strip_model.specs.declared.limits.TheConstants.{MAX_TOTAL_GAIN};

use crate::{Gain, PlanFault};
use strip_model::{Acquisition, Instance, gain_of, has_strip, keeps_twin};

/// The gain of a plan, in twentieths, if the plan is feasible. Else its first fault: the least place at which there is one
/// decides, and there the first of the order in which `PlanFault` lists them. Any list of acquisitions is judged. No
/// memory is taken.
pub fn judge(instance: &Instance, plan: &[Acquisition]) -> Result<Gain, PlanFault>
    ensures feasible { IsOk result ↔ Feasible instance.now plan.now }
    ensures gain { IfOk result (λ gain. gain.0 ≡ gain_of instance.now plan.now) }
    ensures bound { IfOk result (λ gain. gain.0 ≤ MAX_TOTAL_GAIN) }
    ensures fault { IfErr result (IsFirstFault instance.now plan.now) }
{
    for k in 0..plan.len() {
        if let Some(fault) = fault_at(instance, plan, k) {
            return Err(fault);
        }
    }
    Ok(Gain(gain_of(instance, plan)))
}

// The fault at place k that is tested first.
fn fault_at(instance: &Instance, plan: &[Acquisition], k: usize) -> Option<PlanFault>
    requires there { k < length plan.now }
    requires below { HasNoFaultBelow instance.now plan.now k }
    ensures first { IfSome result (IsFirstFault instance.now plan.now) }
    ensures none { IfNone result (HasNoFaultBelow instance.now plan.now (k + 1)) }
{
    let strips = instance.strips();
    let place = k as u32;
    let acquisition = plan[k];
    if usize::from(acquisition.at.strip()) >= strips.len() {
        return Some(PlanFault::NoSuchStrip { k: place });
    }
    if has_strip(&plan[..k], acquisition.at.strip()) {
        return Some(PlanFault::Twice { k: place });
    }
    let window = instance.window(acquisition.at);
    if acquisition.start < window.early {
        return Some(PlanFault::Early { k: place });
    }
    if window.late < acquisition.start {
        return Some(PlanFault::Late { k: place });
    }
    if starts_too_soon(instance, plan, k) {
        return Some(PlanFault::Manoeuvre { k: place });
    }
    if !keeps_twin(instance, plan, acquisition.at) {
        return Some(PlanFault::Twin { k: place });
    }
    None
}

// Whether the acquisition at place k starts before the one before it is over and the satellite has turned.
fn starts_too_soon(instance: &Instance, plan: &[Acquisition], k: usize) -> bool
    requires there { k < length plan.now }
    requires below { HasNoFaultBelow instance.now plan.now k }
    requires exists { strip_of (acquisition_at plan.now k).at < length instance.now.strips }
    ensures { IsTrue result ↔ BreaksRule instance.now plan.now (PlanFault.Manoeuvre k) }
{
    if k == 0 {
        return false;
    }
    let before = plan[k - 1];
    let next = plan[k];
    u64::from(next.start) < instance.ready_after(before.start, before.at, next.at)
}
