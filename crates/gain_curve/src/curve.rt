//! The gain curve, whose three lines meet at 4/10 and 7/10 of a request's area.

ghost use Rattle.std.specs.Prelude.{◌≡◌, ◌*◌, ◌≤◌};
ghost use Rattle.gain_curve.specs.Curve.{phi, IsGreatestLine};

/// The greatest whole area of a request, in units of area.
pub const MAX_AREA: u64 = 64_000_000;

/// The share of its gain that a request earns by the acquired area `a`, where `area` is the whole
/// area of the request.
///
/// The share rises along three lines that meet at 4/10 and 7/10 of the whole area, each steeper than
/// the one before. Both areas are in units of area. The share is in twentieths times `area`, so that
/// it is a whole number: the whole area earns `20 * area`.
#[tactic(auto, unfolding(crate::specs::Curve::phi))]
pub fn phi(a: u64, area: u64) -> u64
    requires part_of_whole { a ≤ area }
    requires whole_in_range { area ≤ MAX_AREA }
    ensures value { result ≡ phi a area }
    ensures greatest_line { IsGreatestLine a area result }
    ensures at_most_whole { result ≤ 20 * area }
    ensures under_chord { result ≤ 20 * a }
{
    if 10 * a <= 4 * area {
        5 * a
    } else if 10 * a <= 7 * area {
        20 * a - 6 * area
    } else {
        40 * a - 20 * area
    }
}
