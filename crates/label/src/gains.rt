//! What sets of strips acquire, gain and are worth.

ghost use Rattle.std.specs.Prelude.{◌≡◌, ◌+◌, ◌*◌, ◌≤◌, ◌||◌, ℕ, List, length, slice_index};
ghost use Rattle.label.specs.Gaining.{set_gain, set_value, strip_value};
ghost use Rattle.strip_model.specs.Directed.{has};
ghost use Rattle.strip_model.specs.Gain.{area_for, gain_with, whole_area};
ghost use Rattle.strip_model.specs.Orbit.{strip_at, strip_in};
ghost use Rattle.strip_model.specs.Reach.{area_where};
ghost use Rattle.strip_model.specs.declared.limits.TheConstants.{MAX_REQUESTS, MAX_STRIP_AREA, MAX_GAIN, MAX_TOTAL_GAIN};
ghost use Rattle.label.specs.Gaining.{set_area, area_in_set};

use strip_model::{Instance, MAX_REQUESTS, Strip, gain_with};
use strip_set::StripSet;

/// What the strips of a set gain together, in twentieths. It takes no memory, and as many steps as there are members and
/// requests.
pub fn gain_of_strips(instance: &Instance, set: StripSet) -> u64
    ensures value { result ≡ gain_with instance.now (λ r. area_where instance.now r (λ i. has i set)) }
    ensures bound { result ≤ MAX_TOTAL_GAIN }
{
    let areas = areas_of_strips(instance, set);
    gain_with(instance, &areas)
}

/// The value of a set of strips, in twentieths: each strip's area at the full price of its request, 20 times the request's
/// gain. So no two sets gain more together than their two values. It takes no memory.
pub fn value_of_strips(instance: &Instance, set: StripSet) -> u64
    ensures value { result ≡ set_value instance.now set }
    ensures gain { set_gain instance.now set ≤ result }
    ensures both { (other both : List ℕ) → ((i : ℕ) → has i both ≡ (has i set || has i other)) → set_gain instance.now both ≤ result + set_value instance.now other }
    ensures bound { result ≤ MAX_TOTAL_GAIN }
{
    // For its clause: the instance keeps what every instance keeps.
    let _ = instance.strips();
    let mut value = 0;
    for strip in set.iter() {
        value += value_of_strip(instance, strip);
    }
    value
}

/// The area of the strips of a set, of whatever requests. It takes no memory.
pub(crate) fn area_of_strips(instance: &Instance, set: StripSet) -> u64
    ensures value { result ≡ area_in_set instance.now set }
    ensures bound { result ≤ MAX_REQUESTS * MAX_STRIP_AREA }
{
    let strips = instance.strips();
    let mut area = 0;
    for strip in set.iter() {
        area += area_of_strip(strips, strip);
    }
    area
}

// The area of each request, by number, that the strips of a set acquire.
fn areas_of_strips(instance: &Instance, set: StripSet) -> [u64; MAX_REQUESTS]
    ensures areas { (r : ℕ) → slice_index result r ≡ set_area instance.now set r }
    ensures each { length instance.now.requests ≤ length result }
{
    // For its clause: the instance keeps what every instance keeps.
    let _ = instance.strips();
    let mut areas = [0; MAX_REQUESTS];
    for strip in set.iter() {
        add_strip(&mut areas, instance, strip);
    }
    areas
}

// Adds the area of a strip to that of its request. Where there is no such strip, it adds nothing.
fn add_strip(areas: &mut [u64], instance: &Instance, strip: u16)
    requires each { length instance.now.requests ≤ length areas.old }
    requires room { (r : ℕ) → slice_index areas.old r ≤ whole_area instance.now r }
    ensures added { (r : ℕ) → slice_index areas.new r ≡ slice_index areas.old r + area_for r (strip_at instance.now strip) }
    ensures length { length areas.new ≡ length areas.old }
{
    let strips = instance.strips();
    if usize::from(strip) < strips.len() {
        let strip = strips[usize::from(strip)];
        areas[usize::from(strip.request)] += u64::from(strip.area);
    }
}

// The area of a strip, and 0 where there is no such strip.
fn area_of_strip(strips: &[Strip], strip: u16) -> u64
    ensures { result ≡ (strip_in strips.now strip).area }
{
    match strips.get(usize::from(strip)) {
        Some(strip) => u64::from(strip.area),
        None => 0,
    }
}

// The area of a strip at the full price of its request, in twentieths, and 0 where there is no such strip.
fn value_of_strip(instance: &Instance, strip: u16) -> u64
    ensures value { result ≡ strip_value instance.now strip }
{
    match instance.strips().get(usize::from(strip)) {
        Some(strip) => {
            let gain = instance.requests()[usize::from(strip.request)].gain;
            20 * u64::from(gain) * u64::from(strip.area)
        }
        None => 0,
    }
}
