//! The twins of an instance as a map of twins, and when strips have such a map.

ghost use Rattle.std.specs.Prelude.{◌≡◌, ◌<◌, ◌≤◌, length, take, All, IfOk, IfErr, IfSome, OnOk};
ghost use Rattle.stereo_twins.specs.Refusal.{IsCause};
ghost use Rattle.strip_model.specs.IsInstance.{KeepsTwins};
ghost use Rattle.strip_model.specs.Twins.{twins_in, requests_in, twins_of};
ghost use Rattle.strip_model.specs.declared.limits.TheConstants.{MAX_STRIPS};

use crate::limits::MAX_STRIPS;
use crate::{Instance, Strip};
use std::alloc::{AllocError, Global};
use stereo_twins::{TwinMap, TwinRefusal};

// A map of twins has room for all strips.
const _: () = prove!(MAX_STRIPS <= strip_set::MAX_STRIPS as usize);

/// The map of the twins of these strips.
///
/// # Errors
///
/// The least strip that breaks a rule of twins is refused, with the first rule that it breaks, and `Memory` comes where none
/// breaks one.
pub fn twin_map(alloc: Global, strips: &[Strip]) -> Result<TwinMap, TwinRefusal>
    requires few { length strips.now ≤ MAX_STRIPS }
    requires exist { All (λ s. IfSome s.twin (λ i. i < length strips.now)) strips.now }
    ensures map { IfOk result (λ map. map ≡ twins_in strips.now) }
    ensures kept { OnOk result (KeepsTwins strips.now) }
    ensures refused { IfErr result (IsCause (twins_in strips.now) (requests_in strips.now)) }
{
    let mut twins = [None; MAX_STRIPS];
    let mut requests = [0; MAX_STRIPS];
    put_twins(&mut twins, strips);
    put_requests(&mut requests, strips);
    let count = strips.len();
    TwinMap::new(alloc, &twins[..count], &requests[..count])
}

// Writes the twins of the strips over the first places.
fn put_twins(twins: &mut [Option<u16>], strips: &[Strip])
    requires room { length strips.now ≤ length twins.old }
    ensures { take (length strips.now) twins.new ≡ twins_in strips.now }
{
    for (i, strip) in strips.iter().enumerate() {
        twins[i] = strip.twin;
    }
}

// Writes the requests of the strips over the first places.
fn put_requests(requests: &mut [u16], strips: &[Strip])
    requires room { length strips.now ≤ length requests.old }
    ensures { take (length strips.now) requests.new ≡ requests_in strips.now }
{
    for (i, strip) in strips.iter().enumerate() {
        requests[i] = strip.request;
    }
}

impl Instance {
    /// The twins of the strips, as a map. It fails for want of memory alone.
    pub fn twin_map(&self, alloc: Global) -> Result<TwinMap, AllocError>
        ensures { IfOk result (λ map. map ≡ twins_of self.now) }
    {
        let refusal = match twin_map(alloc, self.strips()) {
            Ok(map) => return Ok(map),
            Err(refusal) => refusal,
        };
        match refusal {
            TwinRefusal::Memory => Err(AllocError),
            _ => unreachable!(),
        }
    }
}
