ghost use Rattle.std.specs.Prelude.{◌≡◌, ◌↔◌, ◌<◌, ◌≤◌, ℕ, length, map, slice_get, All, IfOk, IsTrue, Some};
ghost use Rattle.joiner.specs.Entries.{IsSound, IsOfLast, IsGroup, IsGrouped, IsAmong};
ghost use Rattle.joiner.specs.Grouping.{IsGathered};
ghost use Rattle.joiner.specs.LabelJoins.{IsLabelAt};
ghost use Rattle.joiner.specs.Represented.{Represents};
ghost use Rattle.joiner.specs.declared.group.Group.{Group};
ghost use Rattle.label.specs.declared.limits.TheConstants.{MAX_LISTED};
ghost use Rattle.strip_model.specs.declared.end.End.TheVariants.{Backward};
ghost use Rattle.strip_model.specs.declared.limits.TheConstants.{MAX_TOTAL_GAIN};

use crate::entries::entries_of;
use crate::entry::Entry;
use crate::group::Group;
use label::Label;
use std::alloc::{AllocError, Global};
use strip_model::{Directed, End, Instance};

/// The groups of backward labels, one for each directed strip. It fails for want of memory alone.
pub(crate) fn groups_of_labels(
    alloc: Global,
    instance: &Instance,
    backward: &[&Label],
) -> Result<Vec<Group>, AllocError>
    requires each { All (IsLabelAt instance.now Backward) (map (λ l. l.now) backward.now) }
    requires few { length backward.now ≤ MAX_LISTED }
    ensures grouped { IfOk result (λ groups. IsGrouped instance.now groups.items) }
    ensures represents { IfOk result (λ groups. Represents instance.now Backward (map (λ l. l.now) backward.now) (IsAmong groups.items)) }
{
    // For its clause: the instance keeps what every instance keeps.
    let _ = instance.strips();
    let entries = entries_of(alloc, instance, End::Backward, backward)?;
    let groups = groups_of(alloc, instance, &entries)?;
    Ok(groups)
}

// The groups of these entries, one for each directed strip.
fn groups_of(
    alloc: Global,
    instance: &Instance,
    entries: &[Entry],
) -> Result<Vec<Group>, AllocError>
    requires { All (IsSound instance.now) entries.now }
    ensures grouped { IfOk result (λ groups. IsGrouped instance.now groups.items) }
    ensures gathered { IfOk result (λ groups. (y : ℕ) (g : Group) → slice_get groups.items y ≡ Some g → IsGathered entries.now y g.waiting.items) }
{
    let directed = 2 * instance.strips().len();
    let mut groups = Vec::with_capacity(alloc, directed)?;
    for y in 0..directed {
        groups.push(group_of(alloc, instance, entries, Directed(y as u16))?)?;
    }
    Ok(groups)
}

// The group of the labels whose last directed strip is `y`.
fn group_of(
    alloc: Global,
    instance: &Instance,
    entries: &[Entry],
    y: Directed,
) -> Result<Group, AllocError>
    requires { All (IsSound instance.now) entries.now }
    ensures group { IfOk result (IsGroup instance.now y) }
    ensures gathered { IfOk result (λ g. IsGathered entries.now y g.waiting.items) }
{
    // For its clause: the instance keeps what every instance keeps.
    let _ = instance.strips();
    let mut waiting = gather(alloc, entries, y)?;
    waiting.sort_by_key(|w| w.over)?;
    let greatest = greatest_value(&waiting);
    Ok(Group { waiting, greatest })
}

// The entries whose last directed strip is `y`.
fn gather(alloc: Global, entries: &[Entry], y: Directed) -> Result<Vec<Entry>, AllocError>
    ensures { IfOk result (λ waiting. IsGathered entries.now y waiting.items) }
{
    let mut waiting = Vec::new(alloc);
    for entry in entries {
        if has_last(entry, y) {
            waiting.push(*entry)?;
        }
    }
    Ok(waiting)
}

// Whether the last directed strip is `y`.
fn has_last(entry: &Entry, y: Directed) -> bool
    ensures { IsTrue result ↔ IsOfLast y entry.now.tip }
{
    match &entry.tip {
        None => false,
        Some(tip) => tip.last == y,
    }
}

// The greatest value, in twentieths, and 0 of none.
fn greatest_value(entries: &[Entry]) -> u64
    requires { All (λ w. w.value ≤ MAX_TOTAL_GAIN) entries.now }
    ensures greatest { All (λ w. w.value ≤ result) entries.now }
    ensures small { result ≤ MAX_TOTAL_GAIN }
{
    let mut greatest = 0;
    for entry in entries {
        greatest = greatest.max(entry.value);
    }
    greatest
}
