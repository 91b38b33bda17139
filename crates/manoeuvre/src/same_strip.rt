//! The same-strip rule: between two directions of one strip the manoeuvre takes no time.

ghost use Rattle.std.specs.Prelude.{◌≡◌, ℕ, ◌<◌, IfSome, IfNone};
ghost use Rattle.std.specs.Bool.{OnTrue, OnFalse};
ghost use Rattle.manoeuvre.specs.Grid.{SameStripTakesNoTime, KeepsSameStrip};
ghost use Rattle.manoeuvre.specs.Refusal.{BreaksSameStrip, IsFirstSameStrip};

use crate::square::Square;

/// The least place that breaks the rule, by its row first, or `None` where the rule is kept.
pub fn first_broken(square: &Square<'_>) -> Option<(u16, u16)>
    ensures broken { IfSome result (λ place. IsFirstSameStrip square.now place.0 place.1) }
    ensures kept { IfNone result (KeepsSameStrip square.now) }
{
    for x in 0..square.size() {
        if let Some(y) = first_broken_in_row(square, x) {
            return Some((x, y));
        }
    }
    None
}

/// The least column of row `x` that breaks the rule.
fn first_broken_in_row(square: &Square<'_>, x: u16) -> Option<u16>
    requires { x < square.now.size }
    ensures broken { IfSome result (BreaksSameStrip square.now x) }
    ensures least { IfSome result (λ y. (b : ℕ) → b < y →
        SameStripTakesNoTime square.now x b) }
    ensures kept { IfNone result ((b : ℕ) → b < square.now.size →
        SameStripTakesNoTime square.now x b) }
{
    for y in 0..square.size() {
        if is_broken(square, x, y) {
            return Some(y);
        }
    }
    None
}

/// Whether the entry (`x`, `y`) breaks the rule.
fn is_broken(square: &Square<'_>, x: u16, y: u16) -> bool
    requires row { x < square.now.size }
    requires column { y < square.now.size }
    ensures broken { OnTrue result (BreaksSameStrip square.now x y) }
    ensures kept { OnFalse result (SameStripTakesNoTime square.now x y) }
{
    x / 2 == y / 2 && square.entry(x, y) != 0
}
