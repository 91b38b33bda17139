//! The greatest pair, which several threads look for.

ghost use Rattle.std.specs.Prelude.{◌≡◌, ◌+◌, ◌*◌, ◌<◌, ◌≤◌, ◌++◌, ℕ, List, length, map, slice_get, All, IfOk, IfSome, Some};
ghost use Rattle.joiner.specs.Entries.{IsGrouped, IsAmong};
ghost use Rattle.joiner.specs.LabelJoins.{IsLabelAt, IsForwardFace};
ghost use Rattle.joiner.specs.Offers.{IsAbove};
ghost use Rattle.joiner.specs.Pairs.{IsBest};
ghost use Rattle.joiner.specs.Parts.{AreBestOfParts, AreSearchable, IsBestInGroups, moved};
ghost use Rattle.joiner.specs.Represented.{Represents};
ghost use Rattle.joiner.specs.declared.limits.TheConstants.{MAX_WORKERS};
ghost use Rattle.label.specs.Labels.{IsLabelOf};
ghost use Rattle.label.specs.declared.label.Label.{Label};
ghost use Rattle.label.specs.declared.limits.TheConstants.{MAX_LISTED};
ghost use Rattle.strip_model.specs.Orbit.{Orbit};
ghost use Rattle.strip_model.specs.declared.end.End.TheVariants.{Forward, Backward};

use crate::Pair;
use crate::best::best_of_groups;
use crate::group::Group;
use crate::grouping::groups_of_labels;
use crate::offers::offer;
use crate::references::references_to;
use label::{Label, Side};
use std::alloc::{AllocError, Global};
use std::thread;
use std::thread::Threads;
use strip_model::{End, Instance, MAX_HORIZON};

/// The same answer as that of [`best_pair`](crate::best_pair), for the same labels, from as many workers as are given: 1 to
/// [`MAX_WORKERS`](crate::MAX_WORKERS). Each looks at a part of the forward labels, in a thread of its own where one can be
/// started. It fails for want of memory alone.
pub fn best_pair_with<R: Threads + Sync>(
    rt: &R,
    alloc: Global,
    instance: &Instance,
    forward: &[Label],
    backward: &[Label],
    floor: u64,
    workers: u32,
) -> Result<Option<Pair>, AllocError>
    requires forward { All (IsLabelAt instance.now Forward) forward.now }
    requires backward { All (IsLabelAt instance.now Backward) backward.now }
    requires few_forward { length forward.now ≤ MAX_LISTED }
    requires few_backward { length backward.now ≤ MAX_LISTED }
    requires some { 1 ≤ workers }
    requires workers { workers ≤ MAX_WORKERS }
    ensures { IfOk result (IsBest instance.now forward.now backward.now floor) }
{
    // For its clause: the instance keeps what every instance keeps.
    let _ = instance.strips();
    // With this cut each forward label is one of the side.
    let side = Side::new(alloc, instance, End::Forward, MAX_HORIZON)?;
    let first = references_to(alloc, forward)?;
    let second = references_to(alloc, backward)?;
    best_pair_of_with(rt, alloc, &side, &first, &second, floor, workers)
}

/// The same for labels that stand anywhere, where the forward side is at hand.
pub fn best_pair_of_with<R: Threads + Sync>(
    rt: &R,
    alloc: Global,
    side: &Side,
    forward: &[&Label],
    backward: &[&Label],
    floor: u64,
    workers: u32,
) -> Result<Option<Pair>, AllocError>
    requires side { IsForwardFace side.now }
    requires forward { All (IsLabelOf side.now) (map (λ l. l.now) forward.now) }
    requires backward { All (IsLabelAt side.now.instance Backward) (map (λ l. l.now) backward.now) }
    requires few_forward { length forward.now ≤ MAX_LISTED }
    requires few_backward { length backward.now ≤ MAX_LISTED }
    requires some { 1 ≤ workers }
    requires workers { workers ≤ MAX_WORKERS }
    ensures { IfOk result (IsBest side.now.instance (map (λ l. l.now) forward.now) (map (λ l. l.now) backward.now) floor) }
{
    let groups = groups_of_labels(alloc, side.instance(), backward)?;
    let size = part_size(forward.len(), workers);
    let bests = bests_of_parts(rt, alloc, side, forward, &groups, floor, size)?;
    // Without forward labels there is no part, and the root is left.
    let mut best = best_of_groups(alloc, side, &[], &groups, floor)?;
    for k in 0..bests.len() {
        let part = answer_at(&bests, k)?;
        best = better_of(floor, best, k * size, part);
    }
    Ok(best)
}

// The answer for this part.
fn answer_at(
    bests: &[Result<Option<Pair>, AllocError>],
    k: usize,
) -> Result<Option<Pair>, AllocError>
    requires { k < length bests.now }
    ensures { slice_get bests.now k ≡ Some result }
{
    bests[k]
}

// How many labels each of so many workers looks at, so that together they look at all.
fn part_size(labels: usize, workers: u32) -> usize
    requires { 1 ≤ workers }
    ensures { 0 < result }
{
    labels.div_ceil(workers as usize).max(1)
}

// The best pair of each part of the forward labels with the backward ones, where a part is so many neighbours.
fn bests_of_parts<R: Threads + Sync>(
    rt: &R,
    alloc: Global,
    side: &Side,
    forward: &[&Label],
    groups: &[Group],
    floor: u64,
    size: usize,
) -> Result<Vec<Result<Option<Pair>, AllocError>>, AllocError>
    requires size { 0 < size }
    requires side { IsForwardFace side.now }
    requires forward { All (IsLabelOf side.now) (map (λ l. l.now) forward.now) }
    requires few { length forward.now ≤ MAX_LISTED }
    requires grouped { IsGrouped side.now.instance groups.now }
    requires represents { (bs : List Label) × Represents side.now.instance Backward bs (IsAmong groups.now) }
    ensures whole { IfOk result (λ bests. length forward.now ≤ length bests.items * size) }
    ensures inside { IfOk result (λ bests. (n : ℕ) → n < length bests.items → n * size < length forward.now) }
    ensures each { IfOk result (λ bests. (bs : List Label) → Represents side.now.instance Backward bs (IsAmong groups.now) → AreBestOfParts side.now.instance (map (λ l. l.now) forward.now) bs floor size bests.items) }
{
    let best_of_part = |_: usize, part: &[&Label]| -> Result<Option<Pair>, AllocError>
        requires { AreSearchable side.now (map (λ l. l.now) part.now) groups.now }
        ensures { IfOk result (IsBestInGroups side.entry.now.instance (map (λ l. l.now) part.now) groups.entry.now floor) }
    { best_of_groups(alloc, side, part, groups, floor) };
    let bests = thread::map_chunks(rt, alloc, forward, size, &best_of_part)?;
    Ok(bests)
}

// The better of the best pair of some labels and that of a part that begins at `start`, right after them.
fn better_of(floor: u64, best: Option<Pair>, start: usize, part: Option<Pair>) -> Option<Pair>
    requires above { IsAbove floor best }
    requires room { IfSome part (λ p. IfSome p.forward (λ k. start + k ≤ MAX_LISTED)) }
    ensures { (J : Orbit) (xs ys bs : List Label) → length xs ≡ start → IsBest J xs bs floor best → IsBest J ys bs floor part → IsBest J (xs ++ ys) bs floor result }
{
    match part {
        None => best,
        Some(pair) => offer(floor, best, counted_from(start, pair)),
    }
}

// The pair with its forward place counted from `start`.
fn counted_from(start: usize, pair: Pair) -> Pair
    requires { IfSome pair.forward (λ k. start + k ≤ MAX_LISTED) }
    ensures { result ≡ moved start pair }
{
    let forward = match pair.forward {
        None => None,
        Some(k) => Some((start + k as usize) as u32),
    };
    Pair { forward, ..pair }
}
