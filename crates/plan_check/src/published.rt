//! Plans that anyone may take as they are.

ghost use Rattle.std.specs.Prelude.{◌≡◌, ◌≤◌, ◌↔◌, IsOk, IfOk, IfErr};
ghost use Rattle.plan_check.specs.Fault.{IsFirstFault};
ghost use Rattle.strip_model.specs.Plan.{Feasible, gain_of};
ghost use Rattle.strip_model.specs.declared.limits.TheConstants.{MAX_TOTAL_GAIN};

use crate::{Gain, PlanFault, judge};
use incumbent::Worth;
use std::marker::Model;
use strip_model::{Acquisition, Instance};

/// A feasible plan of a borrowed instance, with its gain. Contracts see the instance and the plan. What it is worth is its
/// gain, in twentieths, so the better of two is the one that gains more.
#[derive(Drop)]
pub struct Published<'a> {
    instance: &'a Instance,
    plan: Vec<Acquisition>,
    gain: Gain,
}

impl<'a> Model for Published<'a> {
    ghost use Rattle.std.specs.Prelude.{◌≡◌};
    ghost use Rattle.plan_check.specs.Publication.{Publication};
    ghost use Rattle.strip_model.specs.Plan.{Feasible, gain_of};

    ghost Value = { Publication };

    ghost view = { λ p. record { instance = p.instance.now; plan = p.plan.items } };

    ghost invariant = { λ p. Feasible p.instance.now p.plan.items × (p.gain.0 ≡ gain_of p.instance.now p.plan.items) };
}

impl<'a> Published<'a> {
    /// The plan with its gain, if it is feasible. Else its first fault, as `judge` tells it. No memory is taken.
    pub fn new(instance: &'a Instance, plan: Vec<Acquisition>) -> Result<Published<'a>, PlanFault>
        ensures feasible { IsOk result ↔ Feasible instance.entry.now plan.items }
        ensures published { IfOk result (λ p. p ≡ record { instance = instance.entry.now; plan = plan.items }) }
        ensures fault { IfErr result (IsFirstFault instance.entry.now plan.items) }
    {
        let gain = judge(instance, &plan)?;
        Ok(Published {
            instance,
            plan,
            gain,
        })
    }

    /// The plan.
    pub fn plan(&self) -> &[Acquisition]
        ensures value { result.now ≡ self.now.plan }
        ensures feasible { Feasible self.now.instance self.now.plan }
    {
        &self.plan
    }

    /// The instance of which it is a plan.
    pub fn instance(&self) -> &'a Instance
        ensures { result.now ≡ self.now.instance }
    {
        self.instance
    }
}

impl<'a> Worth for Published<'a> {
    ghost use Rattle.strip_model.specs.Plan.{gain_of};

    ghost worth = { λ p. gain_of p.instance p.plan };

    fn worth(&self) -> u64 {
        self.gain.0
    }
}
