//! Whether the strips of one set gain no less than those of another, whatever is added to both.

ghost use Rattle.std.specs.Prelude.{◌≡◌, ◌*◌, ◌<◌, ◌≤◌, ◌↔◌, ℕ, true, false, length, IsTrue, pos, neg_ℤ, ◌*ℤ◌, ◌≤ℤ◌};
ghost use Rattle.gain_curve.specs.declared.curve.TheConstants.{MAX_AREA};
ghost use Rattle.label.specs.Gaining.{set_area, set_difference, SetGainsNoLess};
ghost use Rattle.strip_model.specs.Directed.{has};
ghost use Rattle.strip_model.specs.Dominance.{int_sum_below};
ghost use Rattle.strip_model.specs.declared.limits.TheConstants.{MAX_GAIN, MAX_REQUESTS};

use crate::Side;
use crate::gains::area_of_strips;
use strip_set::StripSet;

/// Whether the strips of `b` gain no less than those of `a`, whatever area of the strips of `reach` that stand in neither is
/// added to both: request by request at worst, and these weighted with the requests' gains. It takes no memory.
pub(crate) fn gains_no_less(side: &Side, b: StripSet, a: StripSet, reach: StripSet) -> bool
    ensures { IsTrue result ↔ SetGainsNoLess side.now.instance b a reach }
{
    // Two labels of the same strips in another order are the most frequent pair.
    if b == a {
        return true;
    }
    least_difference(side, b, a, reach.minus(b).minus(a)) >= 0
}

// The least differences of all requests, weighted with their gains and added up.
fn least_difference(side: &Side, b: StripSet, a: StripSet, room: StripSet) -> i64
    requires b_apart { (i : ℕ) → has i room ≡ true → has i b ≡ false }
    requires a_apart { (i : ℕ) → has i room ≡ true → has i a ≡ false }
    ensures value { result ≡ int_sum_below (length side.now.instance.requests) (set_difference side.now.instance b a (set_area side.now.instance room)) }
    ensures at_least { neg_ℤ (pos (MAX_REQUESTS * (20 * MAX_AREA * MAX_GAIN))) ≤ℤ result }
    ensures at_most { result ≤ℤ pos (MAX_REQUESTS * (20 * MAX_AREA * MAX_GAIN)) }
{
    let mut sum = 0;
    for request in 0..side.instance().requests().len() {
        sum += difference_of_request(side, request as u16, b, a, room);
    }
    sum
}

// The least difference of a request, weighted with its gain.
fn difference_of_request(side: &Side, request: u16, b: StripSet, a: StripSet, room: StripSet) -> i64
    requires request { request < length side.now.instance.requests }
    requires b_apart { (i : ℕ) → has i room ≡ true → has i b ≡ false }
    requires a_apart { (i : ℕ) → has i room ≡ true → has i a ≡ false }
    ensures value { result ≡ set_difference side.now.instance b a (set_area side.now.instance room) request }
    ensures at_least { neg_ℤ (pos (20 * MAX_AREA * MAX_GAIN)) ≤ℤ result }
    ensures at_most { result ≤ℤ pos (20 * MAX_AREA * MAX_GAIN) }
{
    let own = side.strips_of(request);
    if b.meet(own) == a.meet(own) {
        return 0;
    }
    let instance = side.instance();
    let first = area_of_strips(instance, b.meet(own));
    let second = area_of_strips(instance, a.meet(own));
    let added = area_of_strips(instance, room.meet(own));
    let least = instance.worst_difference(request, first, second, added);
    weighted(instance.requests()[usize::from(request)].gain, least)
}

// A least difference, weighted with a request's gain.
fn weighted(gain: u32, least: i64) -> i64
    requires gain { gain ≤ MAX_GAIN }
    requires at_least { neg_ℤ (pos (20 * MAX_AREA)) ≤ℤ least }
    requires at_most { least ≤ℤ pos (20 * MAX_AREA) }
    ensures value { result ≡ pos gain *ℤ least }
    ensures at_least { neg_ℤ (pos (20 * MAX_AREA * MAX_GAIN)) ≤ℤ result }
    ensures at_most { result ≤ℤ pos (20 * MAX_AREA * MAX_GAIN) }
{
    i64::from(gain) * least
}
