//! The best of four beam searches.

ghost use Rattle.std.specs.Bool.{OnTrue};
ghost use Rattle.std.specs.Prelude.{IfOk, IfSome};
ghost use Rattle.strip_model.specs.Plan.{Feasible};
ghost use Rattle.strip_model.specs.Starts.{HasEarliestStarts};

use crate::followers::Followers;
use crate::rank::Order;
use crate::searching::best_path;
use label::Side;
use plan_check::{earliest, judge};
use std::alloc::{AllocError, Global};
use strip_model::{Acquisition, Directed, End, Instance, gain_of};

/// A plan of the instance, feasible and with earliest starts; the empty plan where none was found that gains something. It
/// fails for want of memory alone.
///
/// Four beam searches are made one after another, each from what the ones before have found: from either end of the orbit,
/// and of partial sequences of equal bound first those that start their last acquisition earlier, then those that end it
/// earlier. Of those with the same strips and the same last directed strip one goes on.
pub fn first_plan(alloc: Global, instance: &Instance) -> Result<Vec<Acquisition>, AllocError>
    ensures feasible { IfOk result (λ plan. Feasible instance.now plan.items) }
    ensures earliest { IfOk result (λ plan. HasEarliestStarts instance.now plan.items) }
{
    // The cuts are so late and so early that each side goes over the whole orbit.
    let forward = Ground::new(alloc, Side::new(alloc, instance, End::Forward, u32::MAX)?)?;
    let backward = Ground::new(alloc, Side::new(alloc, instance, End::Backward, 0)?)?;
    let plan = better_plan(alloc, instance, &forward, Order::ByStart, Vec::new(alloc))?;
    let plan = better_plan(alloc, instance, &backward, Order::ByStart, plan)?;
    let plan = better_plan(alloc, instance, &forward, Order::ByEnd, plan)?;
    let plan = better_plan(alloc, instance, &backward, Order::ByEnd, plan)?;
    Ok(plan)
}

// A side, with what can come after each of its directed strips.
#[derive(Drop)]
struct Ground {
    side: Side,
    followers: Followers,
}

impl Ground {
    fn new(alloc: Global, side: Side) -> Result<Ground, AllocError> {
        let followers = Followers::new(alloc, side.instance())?;
        Ok(Ground { side, followers })
    }
}

// A plan that a beam search finds on this side, if it gains more than the given plan, and else that plan.
fn better_plan(
    alloc: Global,
    instance: &Instance,
    ground: &Ground,
    order: Order,
    plan: Vec<Acquisition>,
) -> Result<Vec<Acquisition>, AllocError>
    requires feasible { Feasible instance.now plan.items }
    requires earliest { HasEarliestStarts instance.now plan.items }
    ensures feasible { IfOk result (λ plan. Feasible instance.now plan.items) }
    ensures earliest { IfOk result (λ plan. HasEarliestStarts instance.now plan.items) }
{
    let gain = gain_of(instance, &plan);
    let mut path = best_path(alloc, &ground.side, &ground.followers, order, gain)?;
    if ground.side.end() == End::Backward {
        path.reverse();
    }
    match earliest_plan(alloc, instance, &path)? {
        None => Ok(plan),
        Some(found) => {
            if is_better(instance, &found, gain) {
                Ok(found)
            } else {
                Ok(plan)
            }
        }
    }
}

// The order with earliest starts, if these are in time.
fn earliest_plan(
    alloc: Global,
    instance: &Instance,
    order: &[Directed],
) -> Result<Option<Vec<Acquisition>>, AllocError>
    ensures { IfOk result (λ found. IfSome found (λ plan. HasEarliestStarts instance.now plan.items)) }
{
    earliest(alloc, instance, order)
}

// Whether the plan is feasible and gains more than this.
fn is_better(instance: &Instance, plan: &[Acquisition], floor: u64) -> bool
    ensures { OnTrue result (Feasible instance.now plan.now) }
{
    match judge(instance, plan) {
        Ok(gain) => gain.0 > floor,
        Err(_) => false,
    }
}
