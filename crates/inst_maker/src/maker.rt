//! Instances, made of a seed and a size.

ghost use Rattle.std.specs.Prelude.{◌≡◌, ◌≤◌, IfOk, All};
ghost use Rattle.inst_maker.specs.Made.{made};
ghost use Rattle.inst_maker.specs.Windows.{HasEarlyEnds};
ghost use Rattle.inst_maker.specs.declared.limits.TheConstants.{MAX_SIZE};

use crate::draws::Draws;
use crate::limits::MAX_SIZE;
use crate::manoeuvres::manoeuvre_times;
use crate::placed::{draw_placed_strips, strips_of};
use crate::requests::draw_requests;
use std::alloc::{AllocError, Global};
use strip_model::{Instance, ModelRefusal};

/// Makes the instance of a seed, with `size` strips.
///
/// Each four strips are of one request. Strip `i` can be acquired in direction 0 from about tick `100 * i` on, and so
/// can the third and the fourth of each four in direction 1. These two are twins. The manoeuvre between two strips takes
/// 10 ticks, as many more as their offsets differ, and 5 more where it changes the direction. Gains, areas, offsets and
/// windows are drawn from the seed.
///
/// An `AllocError` says that memory ran out.
pub fn make(alloc: Global, seed: u32, size: u16) -> Result<Instance, AllocError>
    requires { size ≤ MAX_SIZE }
    ensures made { IfOk result (λ instance. instance ≡ made seed size) }
    ensures windows { IfOk result (λ instance. All HasEarlyEnds instance.strips) }
{
    let mut draws = Draws::new(seed);
    let requests = draw_requests(alloc, &mut draws, size.div_ceil(4))?;
    let placed = draw_placed_strips(alloc, &mut draws, size)?;
    let times = manoeuvre_times(alloc, &placed)?;
    let strips = strips_of(alloc, &placed)?;
    match Instance::new(alloc, requests, strips, &times) {
        Ok(instance) => Ok(instance),
        Err(ModelRefusal::Memory) => Err(AllocError),
        // The times keep the rules of a table.
        Err(ModelRefusal::Table(_)) => unreachable!(),
    }
}
