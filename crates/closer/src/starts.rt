//! Plans with earliest starts.

ghost use Rattle.std.specs.Prelude.{◌≡◌, IfOk};
ghost use Rattle.strip_model.specs.Starts.{earliest, IsInTime};
ghost use Rattle.strip_model.specs.Starts.Place.{Root};

use plan_check::earliest;
use std::alloc::{AllocError, Global};
use strip_model::{Acquisition, Directed, Instance};

/// The plan of an order that is in time, with earliest starts. It fails for want of memory alone.
pub(crate) fn plan_of(
    alloc: Global,
    instance: &Instance,
    order: &[Directed],
) -> Result<Vec<Acquisition>, AllocError>
    requires { IsInTime instance.now order.now }
    ensures { IfOk result (λ plan. plan.items ≡ earliest instance.now Root order.now) }
{
    match earliest(alloc, instance, order)? {
        Some(plan) => Ok(plan),
        // An order that is in time has such a plan.
        None => Ok(Vec::new(alloc)),
    }
}
