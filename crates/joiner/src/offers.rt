//! The best pair so far, and when another one takes its place.

ghost use Rattle.std.specs.Prelude.{◌≡◌, ◌⊎◌, ◌≤◌, ℕ, Option, Some};
ghost use Rattle.std.specs.Bool.{OnTrue, OnFalse};
ghost use Rattle.joiner.specs.Offers.{Covers, IsAbove, IsKept};
ghost use Rattle.joiner.specs.Pairs.{place_of, IsNoWorse};

use crate::Pair;

/// Whether no pair that gains at most this much can be better than the best so far, or better than the floor where there is
/// none.
pub(crate) fn is_settled(floor: u64, best: Option<Pair>, most: u64) -> bool
    ensures { OnTrue result ((gain i j : ℕ) → gain ≤ most → Covers floor best gain i j) }
{
    match best {
        None => most <= floor,
        Some(pair) => most < pair.gain,
    }
}

/// The better of the best pair so far and another one, if that gains more than the floor.
pub(crate) fn offer(floor: u64, best: Option<Pair>, found: Pair) -> Option<Pair>
    requires above { IsAbove floor best }
    ensures above { IsAbove floor result }
    ensures kept { IsKept floor best result }
    ensures covers { Covers floor result found.gain (place_of found.forward) (place_of found.backward) }
    ensures new { (result ≡ best) ⊎ (result ≡ Some found) }
{
    match best {
        None => over_floor(floor, found),
        Some(pair) => Some(better(pair, found)),
    }
}

// The pair, if it gains more than the floor.
fn over_floor(floor: u64, found: Pair) -> Option<Pair>
    ensures above { IsAbove floor result }
    ensures covers { Covers floor result found.gain (place_of found.forward) (place_of found.backward) }
    ensures new { (result ≡ None) ⊎ (result ≡ Some found) }
{
    if floor < found.gain {
        Some(found)
    } else {
        None
    }
}

// The one of two pairs that gains more, or as much at an earlier place.
fn better(a: Pair, b: Pair) -> Pair
    ensures first { IsNoWorse result a.gain (place_of a.forward) (place_of a.backward) }
    ensures second { IsNoWorse result b.gain (place_of b.forward) (place_of b.backward) }
    ensures new { (result ≡ a) ⊎ (result ≡ b) }
{
    if is_no_worse(a, b) { a } else { b }
}

// Whether the first pair gains more, or as much at a place that isn't later.
fn is_no_worse(a: Pair, b: Pair) -> bool
    ensures better { OnTrue result (IsNoWorse a b.gain (place_of b.forward) (place_of b.backward)) }
    ensures worse { OnFalse result (IsNoWorse b a.gain (place_of a.forward) (place_of a.backward)) }
{
    if a.gain != b.gain {
        return a.gain > b.gain;
    }
    let ahead = place(a.forward);
    let behind = place(b.forward);
    if ahead != behind {
        return ahead < behind;
    }
    place(a.backward) <= place(b.backward)
}

// A place with the root before all labels.
fn place(label: Option<u32>) -> u64
    ensures { result ≡ place_of label }
{
    match label {
        None => 0,
        Some(number) => u64::from(number) + 1,
    }
}
