//! The first two rules: the plan is feasible, and the gain that is written is the plan's.

ghost use Rattle.std.specs.Prelude.{◌≡◌};
ghost use Rattle.log_check.specs.Faults.{Rule, IsTested, IsKept};
ghost use Rattle.plan_check.specs.Fault.{place_of_fault};

use plan_check::{PlanFault, judge};
use proof_log::Log;
use strip_model::{Instance, gain_of};

/// The first place of the plan that has a fault, or none where the plan is feasible.
pub(crate) fn first_plan_fault(instance: &Instance, log: &Log) -> Option<u64>
    ensures { IsTested instance.now log.now Rule.PlanIsFeasible result }
{
    match judge(instance, &log.plan) {
        Ok(_gain) => None,
        Err(fault) => Some(u64::from(place_of(fault))),
    }
}

// The place that a fault names.
fn place_of(fault: PlanFault) -> u32
    ensures { result ≡ place_of_fault fault }
{
    match fault {
        PlanFault::NoSuchStrip { k } => k,
        PlanFault::Twice { k } => k,
        PlanFault::Early { k } => k,
        PlanFault::Late { k } => k,
        PlanFault::Manoeuvre { k } => k,
        PlanFault::Twin { k } => k,
    }
}

/// Place 0 where another gain is written than that of the plan.
pub(crate) fn first_wrong_gain(instance: &Instance, log: &Log) -> Option<u64>
    requires { IsKept instance.now log.now Rule.PlanIsFeasible }
    ensures { IsTested instance.now log.now Rule.GainIsWritten result }
{
    if gain_of(instance, &log.plan) == log.gain {
        None
    } else {
        Some(0)
    }
}
