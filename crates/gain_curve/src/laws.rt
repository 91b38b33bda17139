//! What bounds and dominance rest on: the curve never falls, is convex, and lies under its chord.

ghost use Rattle.std.specs.Prelude.{◌≡◌, ℕ, ◌*◌};
ghost use Rattle.gain_curve.specs.Curve.{phi, IsGreatestLine, NeverFalls, IsConvex, IsUnderChord};

/// The laws of the curve, at every whole area. It does nothing: its contract is what it is for.
pub fn curve_laws()
    ensures greatest_line { (a area : ℕ) → IsGreatestLine a area (phi a area) }
    ensures never_falls { (area : ℕ) → NeverFalls area }
    ensures convex { (area : ℕ) → IsConvex area }
    ensures under_chord { (area : ℕ) → IsUnderChord area }
    ensures nothing_acquired { (area : ℕ) → phi 0 area ≡ 0 }
    ensures all_acquired { (area : ℕ) → phi area area ≡ 20 * area }
{}
