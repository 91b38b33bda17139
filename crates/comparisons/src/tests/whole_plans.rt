//! Joins of two labels beside the whole plan that they make, judged by itself.

ghost use Rattle.std.specs.Prelude.{All};
ghost use Rattle.joiner.specs.LabelJoins.{IsLabelAt};
ghost use Rattle.strip_model.specs.declared.end.End.TheVariants.{Forward, Backward};

use super::all_labels::{all_labels_at, label_in, places};
use super::instances::instance_of;
use super::stereo_pairs::{TOUCHING_PAIRS, stereo_pairs};
use inst_maker::make;
use joiner::joined;
use label::Label;
use plan_check::judge;
use std::alloc::{AllocError, Global};
use std::process::Abort;
use std::test::Fail;
use strip_model::{Acquisition, Directed, End, Instance};

// The forward path, then the backward one turned round.
fn order_of(
    alloc: Global,
    f: Option<&Label>,
    b: Option<&Label>,
) -> Result<Vec<Directed>, AllocError> {
    let mut order = Vec::new(alloc);
    if let Some(f) = f {
        order.extend_from_slice(f.path())?;
    }
    if let Some(b) = b {
        for x in b.path().iter().rev() {
            order.push(*x)?;
        }
    }
    Ok(order)
}

// When the satellite is ready to acquire `x` after the acquisition before it.
fn ready_after(instance: &Instance, before: Acquisition, x: Directed) -> Result<u64, Fail> {
    let strips = instance.strips().len();
    if usize::from(before.at.strip()) >= strips || usize::from(x.strip()) >= strips {
        return Err("it has no such strip".into());
    }
    let duration = instance.window(before.at).duration;
    let manoeuvre = instance.manoeuvre(before.at, x);
    Ok(u64::from(before.start) + u64::from(duration) + u64::from(manoeuvre))
}

// When `x` can start after the last acquisition of a plan.
fn start_after(instance: &Instance, plan: &[Acquisition], x: Directed) -> Result<u32, Fail> {
    if usize::from(x.strip()) >= instance.strips().len() {
        return Err("it has no such strip".into());
    }
    let early = instance.window(x).early;
    let Some(before) = plan.last() else {
        return Ok(early);
    };
    let ready = ready_after(instance, *before, x)?;
    Ok(u32::try_from(ready.max(u64::from(early)))?)
}

// The plan of an order at earliest starts, whether they are in time or not.
fn plan_of(
    alloc: Global,
    instance: &Instance,
    order: &[Directed],
) -> Result<Vec<Acquisition>, Fail> {
    let mut plan = Vec::new(alloc);
    for x in order {
        let start = start_after(instance, &plan, *x)?;
        plan.push(Acquisition { start, at: *x })?;
    }
    Ok(plan)
}

// What the plan of both gains, in twentieths, if it is feasible.
fn judged(
    alloc: Global,
    instance: &Instance,
    f: Option<&Label>,
    b: Option<&Label>,
) -> Result<Option<u64>, Fail> {
    let order = order_of(alloc, f, b)?;
    let plan = plan_of(alloc, instance, &order)?;
    match judge(instance, &plan) {
        Ok(gain) => Ok(Some(gain.0)),
        Err(_) => Ok(None),
    }
}

// Tries the joins of a forward place with all backward ones.
fn try_place(
    rt: &impl Abort,
    alloc: Global,
    instance: &Instance,
    forward: &[Label],
    backward: &[Label],
    i: usize,
) -> Result<(), Fail>
    requires forward { All (IsLabelAt instance.now Forward) forward.now }
    requires backward { All (IsLabelAt instance.now Backward) backward.now }
{
    let f = label_in(instance, End::Forward, forward, i);
    for j in 0..places(backward) {
        let b = label_in(instance, End::Backward, backward, j);
        let gain = joined(instance, f, b);
        let plain = judged(alloc, instance, f, b)?;
        assert_eq!(rt; gain, plain, "places {i} and {j}");
    }
    Ok(())
}

// Tries the joins of all label paths of an instance.
fn try_instance(rt: &impl Abort, alloc: Global, instance: &Instance) -> Result<(), Fail> {
    let forward = all_labels_at(alloc, instance, End::Forward, u32::MAX)?;
    let backward = all_labels_at(alloc, instance, End::Backward, 0)?;
    for i in 0..places(&forward) {
        try_place(rt, alloc, instance, &forward, &backward, i)?;
    }
    Ok(())
}

#[test]
fn labels_join_as_their_whole_plan_is_judged(rt: HostRuntime) -> Result<(), Fail> {
    let made = make(rt.alloc(), 7, 4)?;
    try_instance(&rt, rt.alloc(), &made)?;
    let pairs = stereo_pairs(rt.alloc(), 3)?;
    try_instance(&rt, rt.alloc(), &pairs)?;
    let touching = instance_of(rt.alloc(), TOUCHING_PAIRS)?;
    try_instance(&rt, rt.alloc(), &touching)
}
