// The solver by listing: it tries every order of directed strips of distinct strips that is in time at earliest starts,
// and keeps the first of greatest gain whose twins come together. It stays plain: it computes the definition of an
// optimal plan on small instances, and faster solvers are compared with it.
ghost use Rattle.std.specs.Prelude.{◌<◌, ◌≤◌, ◌≡◌, ◌++◌, ◌∷◌, ℕ, List, length, IfOk, OnOk};
ghost use Rattle.listing.specs.Best.{IsBest};
ghost use Rattle.listing.specs.Listing.{IsListed, IsCandidate};
ghost use Rattle.strip_model.specs.Directed.{strip_of};
ghost use Rattle.strip_model.specs.Gain.{gain_in};
ghost use Rattle.strip_model.specs.Optimal.{Optimal};
ghost use Rattle.strip_model.specs.Plan.{order_of, gain_of, KeepsTwinsTogether};
ghost use Rattle.strip_model.specs.Starts.{HasEarliestStarts};

use std::alloc::{AllocError, Global};
use strip_model::{Acquisition, Directed, Instance, following, gain_of, keeps_twins_together};

// The best plan so far, with its gain.
#[derive(Drop)]
struct Best {
    plan: Vec<Acquisition>,
    gain: u64,
}

/// An optimal plan, with earliest starts.
pub fn best_plan(alloc: Global, instance: &Instance) -> Result<Vec<Acquisition>, AllocError>
    ensures optimal { IfOk result (λ plan. Optimal instance.now plan.items) }
    ensures earliest { IfOk result (λ plan. HasEarliestStarts instance.now plan.items) }
{
    let mut best = Best {
        plan: Vec::new(alloc),
        gain: 0,
    };
    let mut plan = Vec::new(alloc);
    explore(instance, &mut plan, &mut best)?;
    Ok(best.plan)
}

// Goes on from a plan in every way.
#[cycle(listing)]
fn explore(
    instance: &Instance,
    plan: &mut Vec<Acquisition>,
    best: &mut Best,
) -> Result<(), AllocError>
    requires listed { IsListed instance.now plan.old.items }
    requires best { IsBest instance.now best.old }
    ensures restored { OnOk result (plan.new.items ≡ plan.old.items) }
    ensures best { OnOk result (IsBest instance.now best.new) }
    ensures rises { OnOk result (best.old.gain ≤ best.new.gain) }
    ensures greatest { OnOk result ((more : List ℕ) → IsCandidate instance.now (order_of plan.old.items ++ more)
        → gain_in instance.now (order_of plan.old.items ++ more) ≤ best.new.gain) }
{
    keep_better(instance, plan, best)?;
    for x in 0..2 * instance.strips().len() {
        go_on_with(instance, plan, best, Directed(x as u16))?;
    }
    Ok(())
}

// Goes on from a plan with one directed strip, in every way.
#[cycle(listing)]
fn go_on_with(
    instance: &Instance,
    plan: &mut Vec<Acquisition>,
    best: &mut Best,
    at: Directed,
) -> Result<(), AllocError>
    requires listed { IsListed instance.now plan.old.items }
    requires best { IsBest instance.now best.old }
    requires at { strip_of at < length instance.now.strips }
    ensures restored { OnOk result (plan.new.items ≡ plan.old.items) }
    ensures best { OnOk result (IsBest instance.now best.new) }
    ensures rises { OnOk result (best.old.gain ≤ best.new.gain) }
    ensures greatest { OnOk result ((more : List ℕ) → IsCandidate instance.now (order_of plan.old.items ++ at ∷ more)
        → gain_in instance.now (order_of plan.old.items ++ at ∷ more) ≤ best.new.gain) }
{
    let Some(next) = following(instance, plan, at) else {
        return Ok(());
    };
    plan.push(next)?;
    explore(instance, plan, best)?;
    plan.pop();
    Ok(())
}

// Keeps a plan in the place of the best so far, if its twins come together and it gains more.
fn keep_better(instance: &Instance, plan: &[Acquisition], best: &mut Best) -> Result<(), AllocError>
    requires listed { IsListed instance.now plan.now }
    requires best { IsBest instance.now best.old }
    ensures best { OnOk result (IsBest instance.now best.new) }
    ensures rises { OnOk result (best.old.gain ≤ best.new.gain) }
    ensures greatest { OnOk result (KeepsTwinsTogether instance.now (order_of plan.now) → gain_of instance.now plan.now ≤ best.new.gain) }
{
    if !keeps_twins_together(instance, plan) {
        return Ok(());
    }
    let gain = gain_of(instance, plan);
    if gain > best.gain {
        best.plan.clear();
        best.plan.extend_from_slice(plan)?;
        best.gain = gain;
    }
    Ok(())
}
