//! The whole search.

ghost use Rattle.std.specs.Prelude.{◌≡◌, ◌≤◌, OnOk, IfOk};
ghost use Rattle.closer.specs.Finishing.{Finishes};
ghost use Rattle.closer.specs.Joining.{Replans};
ghost use Rattle.closer.specs.Searching.{IsSearching};
ghost use Rattle.joiner.specs.declared.limits.TheConstants.{MAX_WORKERS};
ghost use Rattle.label_core.specs.declared.limits.TheConstants.{MAX_CORE_LABELS};
ghost use Rattle.admission.specs.CarefulRuns.{GoesQuietly};
ghost use Rattle.strip_model.specs.Plan.{order_of};
ghost use Rattle.strip_model.specs.Starts.{HasEarliestStarts};

use crate::Outcome;
use crate::agenda::Agenda;
use crate::crew::{Alone, Crew, Together};
use crate::exploring::explore;
use crate::joining::join_best;
use crate::opening::agenda_of;
use crate::starts::plan_of;
use crate::sweeping::sweep;
use label_core::Core;
use std::alloc::{AllocError, Global};
use std::thread::Threads;
use strip_model::{Acquisition, Directed, Instance};

/// Goes on from a core of the instance until nothing is left to extend, or the labels number at least the budget and an
/// extension is missing. The run is careful, and inserts nothing once the labels number so many. In both cases the last state
/// has as its incumbent the best that any two live labels or roots make together, with earliest starts; no live label dominates
/// another, and each can still exceed the incumbent's gain. It fails for want of memory alone; the core is gone then.
pub fn finish<'a>(
    alloc: Global,
    instance: &'a Instance,
    core: Core<'a>,
    budget: u64,
) -> Result<Outcome<'a>, AllocError>
    requires instance { core.instance ≡ instance.now }
    requires some { 1 ≤ budget }
    requires budget { budget ≤ MAX_CORE_LABELS }
    ensures { IfOk result (Finishes budget core.entry) }
{
    finish_by(&Alone, alloc, instance, core, budget)
}

/// The same, where as many workers as are given, 1 to `joiner::MAX_WORKERS`, look for what is extended by all already, and for the
/// best that two live labels or roots make together, each in a thread of its own where one can be started.
pub fn finish_with<'a, R: Threads + Sync>(
    rt: &R,
    alloc: Global,
    instance: &'a Instance,
    core: Core<'a>,
    budget: u64,
    workers: u32,
) -> Result<Outcome<'a>, AllocError>
    requires instance { core.instance ≡ instance.now }
    requires some { 1 ≤ budget }
    requires budget { budget ≤ MAX_CORE_LABELS }
    requires some_workers { 1 ≤ workers }
    requires workers { workers ≤ MAX_WORKERS }
    ensures { IfOk result (Finishes budget core.entry) }
{
    finish_by(&Together { rt, workers }, alloc, instance, core, budget)
}

// The same, where the crew is given.
fn finish_by<'a, C: Crew>(
    crew: &C,
    alloc: Global,
    instance: &'a Instance,
    core: Core<'a>,
    budget: u64,
) -> Result<Outcome<'a>, AllocError>
    requires can { C.can_work crew.now }
    requires instance { core.instance ≡ instance.now }
    requires some { 1 ≤ budget }
    requires budget { budget ≤ MAX_CORE_LABELS }
    ensures { IfOk result (Finishes budget core.entry) }
{
    let mut core = core;
    let mut agenda = agenda_by(crew, alloc, &mut core)?;
    let whole = explore(alloc, &mut core, &mut agenda, budget)?;
    set_earliest(alloc, instance, &mut core)?;
    join_best(crew, alloc, &mut core)?;
    sweep(alloc, &mut core, &mut agenda)?;
    if whole {
        return Ok(Outcome::Optimal { core });
    }
    // The join and the sweep may have left nothing to extend of what there was no room for.
    if explore(alloc, &mut core, &mut agenda, budget)? {
        Ok(Outcome::Optimal { core })
    } else {
        Ok(Outcome::Open { core })
    }
}

// Brings a core in order, and tells what is to do, without what the crew finds to be done.
fn agenda_by<C: Crew>(crew: &C, alloc: Global, core: &mut Core<'_>) -> Result<Agenda, AllocError>
    requires { C.can_work crew.now }
    ensures quiet { OnOk result (GoesQuietly core.old core.new) }
    ensures searching { IfOk result (IsSearching core.new) }
    ensures plan { OnOk result (core.new.state.incumbent ≡ core.old.state.incumbent) }
{
    let mut agenda = agenda_of(alloc, core)?;
    crew.narrow(alloc, core, &mut agenda.queue)?;
    Ok(agenda)
}

// The incumbent's acquisitions begin as early as they can in its order, by which it gains the same.
fn set_earliest(alloc: Global, instance: &Instance, core: &mut Core<'_>) -> Result<(), AllocError>
    requires { core.old.instance ≡ instance.now }
    ensures replans { OnOk result (Replans core.old core.new) }
    ensures earliest { OnOk result (HasEarliestStarts core.new.instance core.new.state.incumbent) }
{
    let order = order_in(alloc, core.plan())?;
    // A feasible plan's order is in time.
    let plan = plan_of(alloc, instance, &order)?;
    let gain = core.gain();
    core.publish(plan, gain);
    Ok(())
}

// The directed strips of a plan, in its order.
fn order_in(alloc: Global, plan: &[Acquisition]) -> Result<Vec<Directed>, AllocError>
    ensures { IfOk result (λ order. order.items ≡ order_of plan.now) }
{
    plan.iter().map(|a| a.at).collect(alloc)
}
