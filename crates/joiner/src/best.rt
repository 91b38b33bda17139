ghost use Rattle.std.specs.Prelude.{◌≡◌, ◌≤◌, List, length, map, All, IfOk};
ghost use Rattle.joiner.specs.Entries.{IsGrouped, IsAmong};
ghost use Rattle.joiner.specs.LabelJoins.{IsLabelAt, IsForwardFace};
ghost use Rattle.joiner.specs.Pairs.{IsBest};
ghost use Rattle.joiner.specs.Parts.{IsBestInGroups};
ghost use Rattle.joiner.specs.Represented.{Represents};
ghost use Rattle.label.specs.Labels.{IsLabelOf};
ghost use Rattle.label.specs.declared.label.Label.{Label};
ghost use Rattle.label.specs.declared.limits.TheConstants.{MAX_LISTED};
ghost use Rattle.strip_model.specs.declared.end.End.TheVariants.{Forward, Backward};

use crate::Pair;
use crate::group::Group;
use crate::grouping::groups_of_labels;
use crate::ranking::ranking_of;
use crate::references::references_to;
use crate::walk::best_of_walk;
use label::{Label, Side};
use std::alloc::{AllocError, Global};
use strip_model::{End, Instance, MAX_HORIZON};

/// The forward label and the backward one that gain most together of all that join, if that is more than `floor`, in
/// twentieths. The roots of both sides are among them, as None. Of equal ones it is the first by the place in `forward`, then
/// by the place in `backward`, with roots first. None is answered exactly where no pair that joins gains more than `floor`.
/// The labels may be of sides with any cuts. It fails for want of memory alone.
pub fn best_pair(
    alloc: Global,
    instance: &Instance,
    forward: &[Label],
    backward: &[Label],
    floor: u64,
) -> Result<Option<Pair>, AllocError>
    requires forward { All (IsLabelAt instance.now Forward) forward.now }
    requires backward { All (IsLabelAt instance.now Backward) backward.now }
    requires few_forward { length forward.now ≤ MAX_LISTED }
    requires few_backward { length backward.now ≤ MAX_LISTED }
    ensures { IfOk result (IsBest instance.now forward.now backward.now floor) }
{
    // For its clause: the instance keeps what every instance keeps.
    let _ = instance.strips();
    // With this cut each forward label is one of the side.
    let side = Side::new(alloc, instance, End::Forward, MAX_HORIZON)?;
    let first = references_to(alloc, forward)?;
    let second = references_to(alloc, backward)?;
    best_pair_of(alloc, &side, &first, &second, floor)
}

/// The same for labels that stand anywhere, where the forward side is at hand.
pub fn best_pair_of(
    alloc: Global,
    side: &Side,
    forward: &[&Label],
    backward: &[&Label],
    floor: u64,
) -> Result<Option<Pair>, AllocError>
    requires side { IsForwardFace side.now }
    requires forward { All (IsLabelOf side.now) (map (λ l. l.now) forward.now) }
    requires backward { All (IsLabelAt side.now.instance Backward) (map (λ l. l.now) backward.now) }
    requires few_forward { length forward.now ≤ MAX_LISTED }
    requires few_backward { length backward.now ≤ MAX_LISTED }
    ensures { IfOk result (IsBest side.now.instance (map (λ l. l.now) forward.now) (map (λ l. l.now) backward.now) floor) }
{
    let groups = groups_of_labels(alloc, side.instance(), backward)?;
    best_of_groups(alloc, side, forward, &groups, floor)
}

/// The same for backward labels that stand in groups.
pub(crate) fn best_of_groups(
    alloc: Global,
    side: &Side,
    forward: &[&Label],
    groups: &[Group],
    floor: u64,
) -> Result<Option<Pair>, AllocError>
    requires side { IsForwardFace side.now }
    requires forward { All (IsLabelOf side.now) (map (λ l. l.now) forward.now) }
    requires few { length forward.now ≤ MAX_LISTED }
    requires grouped { IsGrouped side.now.instance groups.now }
    requires represents { (bs : List Label) × Represents side.now.instance Backward bs (IsAmong groups.now) }
    ensures { IfOk result (IsBestInGroups side.now.instance (map (λ l. l.now) forward.now) groups.now floor) }
{
    let instance = side.instance();
    let order = ranking_of(alloc, side, forward)?;
    Ok(best_of_walk(instance, &order, groups, floor))
}
