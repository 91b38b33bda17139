//! The areas of requests, added up strip by strip.

ghost use Rattle.std.specs.Prelude.{◌≡◌, ◌+◌, ◌<◌, ◌≤◌, ℕ, length, slice_index, sum_by, All, IfOk};
ghost use Rattle.gain_curve.specs.declared.curve.TheConstants.{MAX_AREA};
ghost use Rattle.strip_model.specs.Gain.{area_for};
ghost use Rattle.strip_model.specs.IsInstance.{IsStrip};
ghost use Rattle.strip_model.specs.declared.limits.TheConstants.{MAX_STRIPS};

use crate::Strip;
use std::alloc::{AllocError, Global};

/// The area of each request, by number, where there are so many requests.
pub fn areas_of(alloc: Global, requests: usize, strips: &[Strip]) -> Result<Vec<u64>, AllocError>
    requires few { length strips.now ≤ MAX_STRIPS }
    requires each { All (IsStrip requests) strips.now }
    ensures one_each { IfOk result (λ areas. length areas.items ≡ requests) }
    ensures areas { IfOk result (λ areas. (r : ℕ) → slice_index areas.items r ≡ sum_by (area_for r) strips.now) }
{
    let mut areas = vec![in alloc; 0; requests]?;
    for strip in strips {
        add_area(&mut areas, *strip);
    }
    Ok(areas)
}

/// Adds the area of a strip to that of its request.
pub fn add_area(areas: &mut [u64], strip: Strip)
    requires request { strip.request < length areas.old }
    requires room { slice_index areas.old strip.request ≤ MAX_AREA }
    ensures added { (r : ℕ) → slice_index areas.new r ≡ slice_index areas.old r + area_for r strip }
{
    areas[usize::from(strip.request)] += u64::from(strip.area);
}
