ghost use Rattle.std.specs.Prelude.{◌≡◌, ◌≤◌, ◌++◌, ◌∷◌, [], length, map, All, IfOk, OnOk};
ghost use Rattle.joiner.specs.LabelJoins.{IsForwardFace};
ghost use Rattle.joiner.specs.Represented.{IsRanked, AreRanked, IsRanking, IsPushed};
ghost use Rattle.label.specs.Labels.{IsLabelOf};
ghost use Rattle.label.specs.declared.limits.TheConstants.{MAX_LISTED};

use crate::entries::value_of;
use crate::entry::Entry;
use crate::ranked::Ranked;
use crate::tip::tip_of;
use label::{Label, Side, bound};
use std::alloc::{AllocError, Global};
use strip_model::End;

/// The ranking of forward labels: the one with the least bound first. It fails for want of memory alone.
pub(crate) fn ranking_of(
    alloc: Global,
    side: &Side,
    forward: &[&Label],
) -> Result<Vec<Ranked>, AllocError>
    requires side { IsForwardFace side.now }
    requires each { All (IsLabelOf side.now) (map (λ l. l.now) forward.now) }
    requires few { length forward.now ≤ MAX_LISTED }
    ensures { IfOk result (λ order. IsRanking side.now.instance (map (λ l. l.now) forward.now) order.items) }
{
    let mut order = bounds_of(alloc, side, forward)?;
    order.sort_by_key(|r| r.bound)?;
    Ok(order)
}

// The forward labels with their bounds, in their order.
fn bounds_of(alloc: Global, side: &Side, forward: &[&Label]) -> Result<Vec<Ranked>, AllocError>
    requires side { IsForwardFace side.now }
    requires each { All (IsLabelOf side.now) (map (λ l. l.now) forward.now) }
    requires few { length forward.now ≤ MAX_LISTED }
    ensures { IfOk result (λ order. AreRanked side.now.instance (map (λ l. l.now) forward.now) (length forward.now) order.items) }
{
    let mut order = Vec::with_capacity(alloc, forward.len())?;
    for label in forward {
        push_ranked(&mut order, side, label)?;
    }
    Ok(order)
}

// Adds the label whose place is the length of the list, with its bound.
fn push_ranked(order: &mut Vec<Ranked>, side: &Side, label: &Label) -> Result<(), AllocError>
    requires side { IsForwardFace side.now }
    requires label { IsLabelOf side.now label.now }
    requires few { length order.old.items ≤ MAX_LISTED }
    ensures { OnOk result (IsPushed (IsRanked side.now.instance (length order.old.items) label.now) order.old.items order.new.items) }
{
    let instance = side.instance();
    let place = order.len() as u32;
    let bound = bound(side, label);
    let tip = tip_of(instance, End::Forward, label);
    let over = tip.over;
    let value = value_of(instance, &tip);
    let entry = Entry {
        tip: Some(tip),
        over,
        place: Some(place),
        value,
    };
    order.push(Ranked { entry, bound })?;
    Ok(())
}
