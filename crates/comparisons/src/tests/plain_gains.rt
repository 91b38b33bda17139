//! What label paths gain at least and at most, by plain forms over whole paths.

use super::all_labels::directed_strips;
use super::plain_paths::{is_needed, is_reached, is_strip_reached, last_of};
use strip_model::{Directed, End, Instance, has_strip};

// The area of a request.
fn whole_area(instance: &Instance, request: usize) -> i64 {
    let mut area = 0_i64;
    for strip in instance.strips() {
        if usize::from(strip.request) == request {
            area = area.saturating_add(i64::from(strip.area));
        }
    }
    area
}

// The area of a request that a path acquires.
fn area_in(instance: &Instance, path: &[Directed], request: usize) -> i64 {
    let mut area = 0_i64;
    for (i, strip) in instance.strips().iter().enumerate() {
        if usize::from(strip.request) == request && has_strip(path, i as u16) {
            area = area.saturating_add(i64::from(strip.area));
        }
    }
    area
}

// The area of a request that is in the reach of a path.
fn area_reached(instance: &Instance, end: End, path: &[Directed], request: usize) -> i64 {
    let mut area = 0_i64;
    for (i, strip) in instance.strips().iter().enumerate() {
        if usize::from(strip.request) == request
            && is_strip_reached(instance, end, path, i as u16)
        {
            area = area.saturating_add(i64::from(strip.area));
        }
    }
    area
}

// The share that a request earns by so much of its area, in twentieths times the whole area: the greatest of three lines.
fn share(area: i64, whole: i64) -> i64 {
    let first = area.saturating_mul(5);
    let second = area
        .saturating_mul(20)
        .saturating_sub(whole.saturating_mul(6));
    let third = area
        .saturating_mul(40)
        .saturating_sub(whole.saturating_mul(20));
    first.max(second).max(third)
}

// The gain of a request.
fn gain_of_request(instance: &Instance, request: usize) -> i64 {
    match instance.requests().get(request) {
        None => 0,
        Some(request) => i64::from(request.gain),
    }
}

// Whether all that a path needs is in its reach.
fn can_meet_needs(instance: &Instance, end: End, path: &[Directed]) -> bool {
    for z in 0..directed_strips(instance) {
        let z = Directed(z);
        if is_needed(instance, path, z) && !is_reached(instance, end, path, z) {
            return false;
        }
    }
    true
}

/// The bound of a path, in twentieths.
pub fn plain_bound(instance: &Instance, end: End, path: &[Directed]) -> i64 {
    if !can_meet_needs(instance, end, path) {
        return 0;
    }
    let mut bound = 0_i64;
    for request in 0..instance.requests().len() {
        let had = area_in(instance, path, request);
        let area = had.saturating_add(area_reached(instance, end, path, request));
        let earned = share(area, whole_area(instance, request));
        bound = bound.saturating_add(gain_of_request(instance, request).saturating_mul(earned));
    }
    bound
}

// The least by which a request earns more by the first area than by the second, over all areas up to the room that are added
// to both.
fn least_difference(whole: i64, first: i64, second: i64, room: i64) -> i64 {
    let mut least = i64::MAX;
    for added in 0..room.saturating_add(1) {
        let one = share(first.saturating_add(added), whole);
        let other = share(second.saturating_add(added), whole);
        least = least.min(one.saturating_sub(other));
    }
    least
}

// The least difference of a request between two paths, over what the reach of the second can add to both.
fn difference_at(
    instance: &Instance,
    end: End,
    b: &[Directed],
    a: &[Directed],
    request: usize,
) -> i64 {
    let whole = whole_area(instance, request);
    let first = area_in(instance, b, request);
    let second = area_in(instance, a, request);
    let room = area_reached(instance, end, a, request);
    least_difference(whole, first, second, room)
}

// Whether a path gains no less than another, whatever of that one's reach is added to both.
fn gains_no_less(instance: &Instance, end: End, b: &[Directed], a: &[Directed]) -> bool {
    let mut sum = 0_i64;
    for request in 0..instance.requests().len() {
        let least = difference_at(instance, end, b, a, request);
        sum = sum.saturating_add(gain_of_request(instance, request).saturating_mul(least));
    }
    sum >= 0
}

// Whether the reach of `a` has no strip of `b`, and both need the same.
fn can_stand_for(instance: &Instance, end: End, b: &[Directed], a: &[Directed]) -> bool {
    for y in 0..directed_strips(instance) {
        let y = Directed(y);
        if has_strip(b, y.strip()) && is_reached(instance, end, a, y) {
            return false;
        }
        if is_needed(instance, b, y) != is_needed(instance, a, y) {
            return false;
        }
    }
    true
}

// Whether a path ends with the same directed strip as another, no further from the end.
fn is_no_later(instance: &Instance, end: End, b: &[Directed], a: &[Directed]) -> bool {
    let (Some(first), Some(second)) = (last_of(instance, end, b), last_of(instance, end, a)) else {
        return false;
    };
    let sooner = match end {
        End::Forward => first.start <= second.start,
        End::Backward => first.start >= second.start,
    };
    sooner && first.at == second.at
}

/// Whether one label path dominates another.
pub fn plain_dominates(instance: &Instance, end: End, b: &[Directed], a: &[Directed]) -> bool {
    is_no_later(instance, end, b, a)
        && can_stand_for(instance, end, b, a)
        && gains_no_less(instance, end, b, a)
}
