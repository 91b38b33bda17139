//! The gain of a sequence of directed strips or of acquisitions.

ghost use Rattle.std.specs.Prelude.{◌≡◌, ◌<◌, ◌≤◌, ℕ, length, map, slice_index};
ghost use Rattle.strip_model.specs.Gain.{area_in, gain_in, gain_with, whole_area};
ghost use Rattle.strip_model.specs.Plan.{StripsExist, StripsDistinct};
ghost use Rattle.strip_model.specs.declared.limits.TheConstants.{MAX_TOTAL_GAIN};

use crate::areas::add_area;
use crate::limits::MAX_REQUESTS;
use crate::{AtDirected, Instance};

/// The gain of a sequence of distinct strips, in twentieths. It takes no memory, and as many steps as there are strips and
/// requests.
pub fn gain_of<X: AtDirected>(instance: &Instance, sequence: &[X]) -> u64
    requires exist { StripsExist instance.now (map X.directed sequence.now) }
    requires distinct { StripsDistinct (map X.directed sequence.now) }
    ensures value { result ≡ gain_in instance.now (map X.directed sequence.now) }
    ensures bound { result ≤ MAX_TOTAL_GAIN }
{
    let areas = areas_in(instance, sequence);
    gain_with(instance, &areas)
}

/// The area of a request that a sequence of distinct strips acquires.
pub fn area_in<X: AtDirected>(instance: &Instance, sequence: &[X], request: u16) -> u64
    requires exist { StripsExist instance.now (map X.directed sequence.now) }
    requires distinct { StripsDistinct (map X.directed sequence.now) }
    ensures value { result ≡ area_in instance.now request (map X.directed sequence.now) }
    ensures bound { result ≤ whole_area instance.now request }
{
    let strips = instance.strips();
    let mut area = 0;
    for item in sequence {
        let strip = strips[usize::from(item.directed().strip())];
        if strip.request == request {
            area += u64::from(strip.area);
        }
    }
    area
}

// The area of each request, by number, that a sequence of distinct strips acquires.
fn areas_in<X: AtDirected>(instance: &Instance, sequence: &[X]) -> [u64; MAX_REQUESTS]
    requires exist { StripsExist instance.now (map X.directed sequence.now) }
    requires distinct { StripsDistinct (map X.directed sequence.now) }
    ensures areas { (r : ℕ) → slice_index result r ≡ area_in instance.now r (map X.directed sequence.now) }
    ensures each { length instance.now.requests ≤ length result }
{
    let strips = instance.strips();
    let mut areas = [0; MAX_REQUESTS];
    for item in sequence {
        let strip = strips[usize::from(item.directed().strip())];
        add_area(&mut areas, strip);
    }
    areas
}

/// What all requests gain together, in twentieths, where so much of the area of each is acquired, by number.
pub fn gain_with(instance: &Instance, areas: &[u64]) -> u64
    requires each { length instance.now.requests ≤ length areas.now }
    requires within { (r : ℕ) → slice_index areas.now r ≤ whole_area instance.now r }
    ensures value { result ≡ gain_with instance.now (slice_index areas.now) }
    ensures bound { result ≤ MAX_TOTAL_GAIN }
{
    let mut gain = 0;
    for request in 0..instance.requests().len() {
        gain += instance.share(request as u16, areas[request]);
    }
    gain
}
