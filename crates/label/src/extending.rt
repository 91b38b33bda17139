//! The first labels of a side, and those with one more directed strip.

ghost use Rattle.std.specs.Prelude.{◌≡◌, ℕ, ◌<◌, ◌↔◌, List, [], ◌∷◌, ◌++◌, length, IfOk, IsTrue, MatchOption};
ghost use Rattle.label.specs.Labels.{IsLabelOf, IsLabelWith, IsNewIn, IsNext};
ghost use Rattle.strip_model.specs.Directed.{strip_of, has};
ghost use Rattle.strip_model.specs.LabelPath.{LabelPath};
ghost use Rattle.strip_model.specs.Reach.{is_open};

use crate::{Label, Side};
use std::alloc::{AllocError, Global};
use strip_model::Directed;
use strip_set::DirectedSet;

/// The label of the path that `x` alone makes, and None where that is no label path of this side: the window of `x` is closed,
/// or its start isn't within the cap. It fails for want of memory alone.
pub fn start(alloc: Global, side: &Side, x: Directed) -> Result<Option<Label>, AllocError>
    requires { strip_of x < length side.now.instance.strips }
    ensures { IfOk result (λ o. MatchOption o
        (¬ LabelPath side.now (x ∷ []))
        (λ l. (l.path.items ≡ x ∷ []) × IsLabelOf side.now l)) }
{
    match first_start(side, x) {
        None => Ok(None),
        Some(start) => {
            let label = first_label(alloc, side, x, start, 1)?;
            Ok(Some(label))
        }
    }
}

/// The label with `x` after the last of its path, and None where that is no label path of this side: the strip of `x` stands
/// in the path, its twin stands there in the other direction, or `x` can't start in its window or not within the cap. It
/// fails for want of memory alone.
pub fn extend(
    alloc: Global,
    side: &Side,
    label: &Label,
    x: Directed,
) -> Result<Option<Label>, AllocError>
    requires label { IsLabelOf side.now label.now }
    requires next { strip_of x < length side.now.instance.strips }
    ensures { IfOk result (λ o. MatchOption o
        (¬ LabelPath side.now (label.now.path.items ++ x ∷ []))
        (λ l. (l.path.items ≡ label.now.path.items ++ x ∷ []) × IsLabelOf side.now l)) }
{
    match next_start(side, label, x) {
        None => Ok(None),
        Some(start) => {
            let path = with_room(alloc, &label.path)?;
            let label = grown(side, path, label.visited, label.lone, x, start)?;
            Ok(Some(label))
        }
    }
}

/// Whether the label with `x` after the last of its path is one of this side. It takes no memory.
pub fn can_extend(side: &Side, label: &Label, x: Directed) -> bool
    requires label { IsLabelOf side.now label.now }
    requires next { strip_of x < length side.now.instance.strips }
    ensures { IsTrue result ↔ LabelPath side.now (label.now.path.items ++ x ∷ []) }
{
    match next_start(side, label, x) {
        None => false,
        Some(_) => true,
    }
}

// The earliest start of `x` as the first of a label path, in ticks, and None where `x` makes none.
pub(crate) fn first_start(side: &Side, x: Directed) -> Option<u32>
    requires { strip_of x < length side.now.instance.strips }
    ensures { MatchOption result (¬ LabelPath side.now (x ∷ [])) (IsNext side.now [] x) }
{
    let window = side.instance().window(x);
    if window.early > window.late {
        return None;
    }
    if !side.is_within_cap(window.early, x) {
        return None;
    }
    Some(window.early)
}

// The earliest start of `x` after the label's last, in ticks, and None where `x` can't come there.
pub(crate) fn next_start(side: &Side, label: &Label, x: Directed) -> Option<u32>
    requires label { IsLabelOf side.now label.now }
    requires next { strip_of x < length side.now.instance.strips }
    ensures { MatchOption result (¬ LabelPath side.now (label.now.path.items ++ x ∷ [])) (IsNext side.now label.now.path.items x) }
{
    if label.start >= side.deadline(label.last, x) {
        return None;
    }
    if !side.admits(label.visited, x) {
        return None;
    }
    let start = side.start_after(label.start, label.last, x);
    if !side.is_within_cap(start, x) {
        return None;
    }
    Some(start)
}

// The label of the path that `x` alone makes, at this earliest start, with memory for a path of `room` directed strips.
pub(crate) fn first_label(
    alloc: Global,
    side: &Side,
    x: Directed,
    start: u32,
    room: usize,
) -> Result<Label, AllocError>
    requires next { IsNext side.now [] x start }
    ensures { IfOk result (IsLabelWith side.now (x ∷ [])) }
{
    let none = DirectedSet::empty();
    let path = Vec::with_capacity(alloc, room)?;
    grown(side, path, none, none, x, start)
}

// The label of the path with `x` after its last, at this earliest start.
fn grown(
    side: &Side,
    path: Vec<Directed>,
    visited: DirectedSet,
    lone: DirectedSet,
    x: Directed,
    start: u32,
) -> Result<Label, AllocError>
    requires visited { (y : ℕ) → has y visited ≡ has y path.items }
    requires open { (y : ℕ) → has y lone ≡ is_open side.now.instance path.items y }
    requires next { IsNext side.now path.items x start }
    ensures path { IfOk result (λ label. label.path.items ≡ path.items ++ x ∷ []) }
    ensures label { IfOk result (IsLabelOf side.now) }
{
    let mut path = path;
    let lone = open_with(side, visited, lone, x);
    path.push(x)?;
    Ok(Label {
        end: side.end(),
        path,
        last: x,
        start,
        visited: visited.with(x.0),
        lone,
    })
}

// The path once more, with memory for one directed strip after its last.
fn with_room(alloc: Global, path: &[Directed]) -> Result<Vec<Directed>, AllocError>
    ensures { IfOk result (λ same. same.items ≡ path.now) }
{
    let mut same = Vec::with_capacity(alloc, path.len() + 1)?;
    same.extend_from_slice(path)?;
    Ok(same)
}

// The open directed strips once `x` has come to those visited.
pub(crate) fn open_with(
    side: &Side,
    visited: DirectedSet,
    lone: DirectedSet,
    x: Directed,
) -> DirectedSet
    requires next { strip_of x < length side.now.instance.strips }
    requires is_new { IsNewIn side.now.instance visited x }
    requires open { (y : ℕ) → has y lone ≡ is_open side.now.instance visited y }
    ensures { (y : ℕ) → has y result ≡ is_open side.now.instance (x ∷ visited) y }
{
    match side.instance().partner(x) {
        None => lone,
        Some(partner) => {
            if visited.contains(partner.0) {
                lone.without(partner.0)
            } else {
                lone.with(x.0)
            }
        }
    }
}
