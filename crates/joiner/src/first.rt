ghost use Rattle.std.specs.Prelude.{◌≡◌, ◌≤◌, List, length, map, All, IfOk};
ghost use Rattle.std.specs.Bool.{OnTrue, OnFalse};
ghost use Rattle.joiner.specs.Entries.{IsSound, IsGrouped, IsAmong};
ghost use Rattle.joiner.specs.LabelJoins.{IsLabelAt, IsForwardFace};
ghost use Rattle.joiner.specs.Pairs.{IsOver, HasOver, HasNoneOver};
ghost use Rattle.joiner.specs.Represented.{Represents};
ghost use Rattle.joiner.specs.Walks.{MeetsOver, MeetsNoneOver};
ghost use Rattle.label.specs.Labels.{IsLabelOf};
ghost use Rattle.label.specs.declared.label.Label.{Label};
ghost use Rattle.label.specs.declared.limits.TheConstants.{MAX_LISTED};
ghost use Rattle.strip_model.specs.declared.end.End.TheVariants.{Forward, Backward};

use crate::Over;
use crate::entries::entry_of;
use crate::entry::{Entry, root};
use crate::group::Group;
use crate::grouping::groups_of_labels;
use crate::looks::best_of;
use crate::references::references_to;
use label::{Label, Side, bound};
use std::alloc::{AllocError, Global};
use strip_model::{End, Instance, MAX_HORIZON};

/// The first forward label that joins with some backward one for more than `floor`, in twentieths, with the roots of both
/// sides among them, and the forward root before all labels. None is answered exactly where no pair that joins gains more
/// than `floor`. It goes over the forward labels in the order of the list, and not in that of their bounds, since it names the
/// first place of all: that is what whoever wrote a log is told when the log is refused. The labels may be of sides with any
/// cuts. It fails for want of memory alone.
pub fn first_over(
    alloc: Global,
    instance: &Instance,
    forward: &[Label],
    backward: &[Label],
    floor: u64,
) -> Result<Option<Over>, AllocError>
    requires forward { All (IsLabelAt instance.now Forward) forward.now }
    requires backward { All (IsLabelAt instance.now Backward) backward.now }
    requires few_forward { length forward.now ≤ MAX_LISTED }
    requires few_backward { length backward.now ≤ MAX_LISTED }
    ensures { IfOk result (IsOver instance.now forward.now backward.now floor) }
{
    // For its clause: the instance keeps what every instance keeps.
    let _ = instance.strips();
    // With this cut each forward label is one of the side.
    let side = Side::new(alloc, instance, End::Forward, MAX_HORIZON)?;
    let first = references_to(alloc, forward)?;
    let second = references_to(alloc, backward)?;
    first_over_of(alloc, &side, &first, &second, floor)
}

/// The same for labels that stand anywhere, where the forward side is at hand.
pub fn first_over_of(
    alloc: Global,
    side: &Side,
    forward: &[&Label],
    backward: &[&Label],
    floor: u64,
) -> Result<Option<Over>, AllocError>
    requires side { IsForwardFace side.now }
    requires forward { All (IsLabelOf side.now) (map (λ l. l.now) forward.now) }
    requires backward { All (IsLabelAt side.now.instance Backward) (map (λ l. l.now) backward.now) }
    requires few_forward { length forward.now ≤ MAX_LISTED }
    requires few_backward { length backward.now ≤ MAX_LISTED }
    ensures { IfOk result (IsOver side.now.instance (map (λ l. l.now) forward.now) (map (λ l. l.now) backward.now) floor) }
{
    let instance = side.instance();
    let groups = groups_of_labels(alloc, instance, backward)?;
    if is_over(instance, &groups, floor, &root()) {
        return Ok(Some(Over { forward: None }));
    }
    for place in 0..forward.len() {
        let number = place as u32;
        if is_label_over(side, &groups, floor, forward[place], number) {
            return Ok(Some(Over {
                forward: Some(number),
            }));
        }
    }
    Ok(None)
}

// Whether a forward label joins with some label in the groups, or with the root, for more than the floor.
fn is_label_over(side: &Side, groups: &[Group], floor: u64, label: &Label, place: u32) -> bool
    requires side { IsForwardFace side.now }
    requires label { IsLabelOf side.now label.now }
    requires grouped { IsGrouped side.now.instance groups.now }
    ensures over { OnTrue result ((bs : List Label) → Represents side.now.instance Backward bs (IsAmong groups.now) → HasOver side.now.instance label.now.path.items bs floor) }
    ensures none { OnFalse result ((bs : List Label) → Represents side.now.instance Backward bs (IsAmong groups.now) → HasNoneOver side.now.instance label.now.path.items bs floor) }
{
    let instance = side.instance();
    if bound(side, label) <= floor {
        return false;
    }
    let entry = entry_of(instance, End::Forward, label, place);
    is_over(instance, groups, floor, &entry)
}

// Whether an entry meets some entry of the groups, or the root, for more than the floor.
fn is_over(instance: &Instance, groups: &[Group], floor: u64, f: &Entry) -> bool
    requires grouped { IsGrouped instance.now groups.now }
    requires sound { IsSound instance.now f.now }
    ensures over { OnTrue result (MeetsOver instance.now groups.now floor f.now) }
    ensures none { OnFalse result (MeetsNoneOver instance.now groups.now floor f.now) }
{
    match best_of(instance, groups, floor, None, f) {
        None => false,
        Some(_) => true,
    }
}
