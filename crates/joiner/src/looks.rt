//! The looks of a walk: one forward label or root at what waits for it.

ghost use Rattle.std.specs.Prelude.{◌≡◌, ◌↔◌, ◌+◌, ◌^◌, ◌<◌, ◌≤◌, ℕ, length, slice_get, Some};
ghost use Rattle.std.specs.List.{Contains};
ghost use Rattle.joiner.specs.Entries.{IsSound, IsGroup, IsGrouped, IsAmong, Covered, IsNewOf, IsOne};
ghost use Rattle.joiner.specs.Offers.{IsAbove, IsKept};
ghost use Rattle.joiner.specs.Tips.{IsWithin, HasTime};
ghost use Rattle.joiner.specs.declared.entry.Entry.{Entry};
ghost use Rattle.joiner.specs.declared.tip.Tip.{Tip};
ghost use Rattle.strip_model.specs.Directed.{strip_of};
ghost use Rattle.strip_model.specs.Horizon.{horizon_of};

use crate::Pair;
use crate::entry::{Entry, root};
use crate::group::Group;
use crate::matching::matching;
use crate::offers::{is_settled, offer};
use strip_model::{Directed, Instance};

/// The best pair after a look of `f` at the root and at every label in the groups, where `best` is the best so far.
pub(crate) fn best_of(
    instance: &Instance,
    groups: &[Group],
    floor: u64,
    best: Option<Pair>,
    f: &Entry,
) -> Option<Pair>
    requires grouped { IsGrouped instance.now groups.now }
    requires sound { IsSound instance.now f.now }
    requires above { IsAbove floor best }
    ensures above { IsAbove floor result }
    ensures kept { IsKept floor best result }
    ensures covered { (w : Entry) → IsAmong groups.now w → Covered instance.now floor result f.now w }
    ensures new { IsNewOf instance.now f.now (IsAmong groups.now) best result }
{
    // For its clause: the instance keeps what every instance keeps.
    let _ = instance.strips();
    let mut best = best_with(instance, floor, best, f, &root());
    for y in 0..groups.len() {
        let group = group_at(groups, y);
        best = best_in_group(instance, floor, best, f, Directed(y as u16), group);
    }
    best
}

// The group of a directed strip.
fn group_at(groups: &[Group], y: usize) -> &Group
    requires { y < length groups.now }
    ensures { slice_get groups.now y ≡ Some result.now }
{
    &groups[y]
}

// The best pair after a look of `f` at the labels of the group whose last directed strip is `y`.
fn best_in_group(
    instance: &Instance,
    floor: u64,
    best: Option<Pair>,
    f: &Entry,
    y: Directed,
    group: &Group,
) -> Option<Pair>
    requires exist { strip_of y < length instance.now.strips }
    requires group { IsGroup instance.now y group.now }
    requires sound { IsSound instance.now f.now }
    requires above { IsAbove floor best }
    ensures above { IsAbove floor result }
    ensures kept { IsKept floor best result }
    ensures covered { (k : ℕ) (w : Entry) → slice_get group.now.waiting.items k ≡ Some w → Covered instance.now floor result f.now w }
    ensures new { IsNewOf instance.now f.now (Contains group.now.waiting.items) best result }
{
    // For its clause: the instance keeps what every instance keeps.
    let _ = instance.strips();
    if is_settled(floor, best, f.value + group.greatest) {
        return best;
    }
    let horizon = u64::from(instance.horizon());
    let lead = lead_to(instance, f, y);
    let mut best = best;
    for w in &group.waiting {
        if lead + u64::from(w.over) > horizon {
            break;
        }
        best = best_with(instance, floor, best, f, w);
    }
    best
}

// When the satellite is ready for `y` after `f`, in ticks, and 0 for the root.
fn lead_to(instance: &Instance, f: &Entry, y: Directed) -> u64
    requires exist { strip_of y < length instance.now.strips }
    requires sound { IsSound instance.now f.now }
    ensures time { (w : Tip) → w.last ≡ y → IsWithin instance.now w → (HasTime instance.now f.now.tip (Some w) ↔ (result + w.over ≤ horizon_of instance.now)) }
    ensures bound { result < 2 ^ 40 }
{
    // For its clause: the horizon is at most `MAX_HORIZON`.
    let _ = instance.horizon();
    match &f.tip {
        None => 0,
        Some(tip) => u64::from(f.over) + u64::from(instance.manoeuvre(tip.last, y)),
    }
}

// The best pair after a look of `f` at one label or root between which there is time.
fn best_with(
    instance: &Instance,
    floor: u64,
    best: Option<Pair>,
    f: &Entry,
    w: &Entry,
) -> Option<Pair>
    requires forward { IsSound instance.now f.now }
    requires backward { IsSound instance.now w.now }
    requires time { HasTime instance.now f.now.tip w.now.tip }
    requires above { IsAbove floor best }
    ensures above { IsAbove floor result }
    ensures kept { IsKept floor best result }
    ensures covered { Covered instance.now floor result f.now w.now }
    ensures new { IsNewOf instance.now f.now (IsOne w.now) best result }
{
    // For its clause: the instance keeps what every instance keeps.
    let _ = instance.strips();
    if is_settled(floor, best, f.value + w.value) {
        return best;
    }
    let Some(gain) = matching(instance, &f.tip, &w.tip) else {
        return best;
    };
    let found = Pair {
        forward: f.place,
        backward: w.place,
        gain,
    };
    offer(floor, best, found)
}
