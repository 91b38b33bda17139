//! The least difference of two shares.

ghost use Rattle.std.specs.Prelude.{◌≡◌, ◌+◌, ◌*◌, ◌≤◌, pos, neg_ℤ, ◌≤ℤ◌};
ghost use Rattle.gain_curve.specs.Difference.{IsLeastDifference, worst};

use crate::curve::{MAX_AREA, phi};

/// The least that `phi(a1 + c, area) - phi(a2 + c, area)` can be, over every added area `c` from 0
/// to `room`.
///
/// All areas are in units of area, and `area` is the whole area of the request. The difference is in
/// twentieths times `area`.
///
/// The curve is convex, so the same added area is worth more where more is acquired already. So the
/// difference never falls in `c` where `a1` is the greater, and never rises where `a2` is.
pub fn worst_difference(a1: u64, a2: u64, room: u64, area: u64) -> i64
    requires first_in_whole { a1 + room ≤ area }
    requires second_in_whole { a2 + room ≤ area }
    requires whole_in_range { area ≤ MAX_AREA }
    ensures least { IsLeastDifference a1 a2 room area result }
    ensures value { result ≡ worst a1 a2 room area }
    ensures at_least { neg_ℤ (pos (20 * area)) ≤ℤ result }
    ensures at_most { result ≤ℤ pos (20 * area) }
{
    let added = if a1 < a2 { room } else { 0 };
    phi(a1 + added, area) as i64 - phi(a2 + added, area) as i64
}
