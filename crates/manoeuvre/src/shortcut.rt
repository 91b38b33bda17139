//! The shortcut rule: a detour by a third strip never saves time.

ghost use Rattle.std.specs.Prelude.{◌≡◌, ℕ, ◌<◌, ◌≤◌, length, All, slice_index, IfSome, IfNone};
ghost use Rattle.std.specs.Bool.{OnTrue, OnFalse};
ghost use Rattle.manoeuvre.specs.Grid.{DetourSavesNoTime, KeepsShortcut};
ghost use Rattle.manoeuvre.specs.Refusal.{BreaksShortcut, IsFirstShortcut};

use crate::limits::MAX_DURATION;
use crate::square::Square;

/// The least triple that breaks the rule, by its first directed strip, then by its second, or
/// `None` where the rule is kept. `durations` has a duration in ticks for each directed strip.
pub fn first_broken(square: &Square<'_>, durations: &[u32]) -> Option<(u16, u16, u16)>
    requires one_each { length durations.now ≡ square.now.size }
    requires bounded { All (λ p. p ≤ MAX_DURATION) durations.now }
    ensures broken { IfSome result (λ t.
        IsFirstShortcut (slice_index durations.now) square.now t.0 t.1 t.2) }
    ensures kept { IfNone result (KeepsShortcut (slice_index durations.now) square.now) }
{
    for x in 0..square.size() {
        if let Some((y, z)) = first_broken_from(square, durations, x) {
            return Some((x, y, z));
        }
    }
    None
}

/// The least rest of a triple from `x` that breaks the rule.
fn first_broken_from(square: &Square<'_>, durations: &[u32], x: u16) -> Option<(u16, u16)>
    requires one_each { length durations.now ≡ square.now.size }
    requires bounded { All (λ p. p ≤ MAX_DURATION) durations.now }
    requires first { x < square.now.size }
    ensures broken { IfSome result (λ t.
        BreaksShortcut (slice_index durations.now) square.now x t.0 t.1) }
    ensures least_second { IfSome result (λ t. (b c : ℕ) → b < t.0 → c < square.now.size →
        DetourSavesNoTime (slice_index durations.now) square.now x b c) }
    ensures least_third { IfSome result (λ t. (c : ℕ) → c < t.1 →
        DetourSavesNoTime (slice_index durations.now) square.now x t.0 c) }
    ensures kept { IfNone result ((b c : ℕ) → b < square.now.size → c < square.now.size →
        DetourSavesNoTime (slice_index durations.now) square.now x b c) }
{
    for y in 0..square.size() {
        if let Some(z) = first_broken_by(square, durations, x, y) {
            return Some((y, z));
        }
    }
    None
}

/// The least end of a detour from `x` by `y` that breaks the rule.
fn first_broken_by(square: &Square<'_>, durations: &[u32], x: u16, y: u16) -> Option<u16>
    requires one_each { length durations.now ≡ square.now.size }
    requires bounded { All (λ p. p ≤ MAX_DURATION) durations.now }
    requires first { x < square.now.size }
    requires second { y < square.now.size }
    ensures broken { IfSome result (BreaksShortcut (slice_index durations.now) square.now x y) }
    ensures least { IfSome result (λ z. (c : ℕ) → c < z →
        DetourSavesNoTime (slice_index durations.now) square.now x y c) }
    ensures kept { IfNone result ((c : ℕ) → c < square.now.size →
        DetourSavesNoTime (slice_index durations.now) square.now x y c) }
{
    for z in 0..square.size() {
        if is_broken(square, durations, x, y, z) {
            return Some(z);
        }
    }
    None
}

/// Whether the detour from `x` to `z` by `y` of a third strip saves time.
fn is_broken(square: &Square<'_>, durations: &[u32], x: u16, y: u16, z: u16) -> bool
    requires one_each { length durations.now ≡ square.now.size }
    requires bounded { All (λ p. p ≤ MAX_DURATION) durations.now }
    requires first { x < square.now.size }
    requires second { y < square.now.size }
    requires third { z < square.now.size }
    ensures broken { OnTrue result (BreaksShortcut (slice_index durations.now) square.now x y z) }
    ensures kept { OnFalse result (DetourSavesNoTime (slice_index durations.now) square.now x y z) }
{
    let of_three_strips = x / 2 != y / 2 && y / 2 != z / 2 && x / 2 != z / 2;
    of_three_strips
        && square.entry(x, y) + durations[usize::from(y)] + square.entry(y, z) < square.entry(x, z)
}
