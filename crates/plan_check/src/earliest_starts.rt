ghost use Rattle.std.specs.Prelude.{◌≡◌, ◌↔◌, IsSome, IfOk, IfSome};
ghost use Rattle.plan_check.specs.Least.{IsLeastPlan};
ghost use Rattle.strip_model.specs.Plan.{order_of};
ghost use Rattle.strip_model.specs.Starts.{earliest, IsInTime};
ghost use Rattle.strip_model.specs.Starts.Place.{Root};

use std::alloc::{AllocError, Global};
use strip_model::{Acquisition, Directed, Instance, following};

/// The order with earliest starts. None where a directed strip doesn't exist, a strip stands twice, or an earliest start is
/// past its window. Any list of directed strips is an order.
pub fn earliest(
    alloc: Global,
    instance: &Instance,
    order: &[Directed],
) -> Result<Option<Vec<Acquisition>>, AllocError>
    ensures in_time { IfOk result (λ answer. IsSome answer ↔ IsInTime instance.now order.now) }
    ensures plan { IfOk result (λ answer. IfSome answer (λ plan. plan.items ≡ earliest instance.now Root order.now)) }
    ensures order { IfOk result (λ answer. IfSome answer (λ plan. order_of plan.items ≡ order.now)) }
    ensures least { IfOk result (λ answer. IfSome answer (λ plan. IsLeastPlan instance.now plan.items)) }
{
    let mut plan = Vec::new(alloc);
    for x in order {
        match following(instance, &plan, *x) {
            None => return Ok(None),
            Some(acquisition) => plan.push(acquisition)?,
        }
    }
    Ok(Some(plan))
}
