//! The best plan that two live labels or roots make together.

ghost use Rattle.std.specs.Prelude.{◌≡◌, ◌<◌, ◌≤◌, ◌++◌, [], length, map, reverse, All, MatchOption, OnOk, IfOk};
ghost use Rattle.bucket.specs.declared.limits.TheConstants.{BUCKETS};
ghost use Rattle.closer.specs.Finishing.{HasNoBetterJoin};
ghost use Rattle.closer.specs.Joining.{AddsLive, HasAllLive, IsJoint, Replans};
ghost use Rattle.joiner.specs.Pairs.{IsBest, place_of, path_at};
ghost use Rattle.label.specs.Labels.{IsLabelOf};
ghost use Rattle.label.specs.declared.limits.TheConstants.{MAX_LISTED};
ghost use Rattle.label_core.specs.CoreState.{labels_in};
ghost use Rattle.strip_model.specs.Plan.{gain_of};
ghost use Rattle.strip_model.specs.Side.{face_of};
ghost use Rattle.strip_model.specs.Starts.{HasEarliestStarts};
ghost use Rattle.strip_model.specs.declared.end.End.TheVariants.{Forward, Backward};

use crate::crew::Crew;
use crate::starts::plan_of;
use bucket::{BUCKETS, Id};
use joiner::Pair;
use label::Label;
use label_core::Core;
use std::alloc::{AllocError, Global};
use strip_model::{Acquisition, Directed, End};

/// The greatest pair of live labels and roots that joins becomes the incumbent, if it gains more; it has earliest starts.
/// The crew looks for it. It fails for want of memory alone.
pub(crate) fn join_best<C: Crew>(
    crew: &C,
    alloc: Global,
    core: &mut Core<'_>,
) -> Result<(), AllocError>
    requires { C.can_work crew.now }
    ensures replans { OnOk result (Replans core.old core.new) }
    ensures joined { OnOk result (HasNoBetterJoin core.new) }
    ensures earliest { OnOk result (HasEarliestStarts core.old.instance core.old.state.incumbent → HasEarliestStarts core.new.instance core.new.state.incumbent) }
{
    match joint_of(crew, alloc, core)? {
        Some(joint) => core.publish(joint.plan, joint.gain),
        None => {}
    }
    Ok(())
}

// A plan with its gain, in twentieths.
#[derive(Drop)]
struct Joint {
    plan: Vec<Acquisition>,
    gain: u64,
}

// The plan of the pair of live labels and roots that gains most, if that is more than the incumbent's gain.
fn joint_of<C: Crew>(crew: &C, alloc: Global, core: &Core<'_>) -> Result<Option<Joint>, AllocError>
    requires { C.can_work crew.now }
    ensures { IfOk result (λ o. MatchOption o (HasNoBetterJoin core.now) (IsJoint core.now)) }
{
    let forward = live_labels(alloc, core, End::Forward)?;
    let backward = live_labels(alloc, core, End::Backward)?;
    let Some(pair) = pair_of(crew, alloc, core, &forward, &backward)? else {
        return Ok(None);
    };
    let order = joined_order(alloc, &forward, &backward, pair)?;
    // A pair that joins is in time.
    let plan = plan_of(alloc, core.instance(), &order)?;
    Ok(Some(Joint {
        plan,
        gain: pair.gain,
    }))
}

// The pair of these labels, which are of the two sides, or of their roots that gains most, if that is more than the incumbent's
// gain.
fn pair_of<C: Crew>(
    crew: &C,
    alloc: Global,
    core: &Core<'_>,
    forward: &[Label],
    backward: &[Label],
) -> Result<Option<Pair>, AllocError>
    requires can { C.can_work crew.now }
    requires forward { All (IsLabelOf (face_of core.now.instance core.now.cut Forward)) forward.now }
    requires backward { All (IsLabelOf (face_of core.now.instance core.now.cut Backward)) backward.now }
    requires few_forward { length forward.now ≤ MAX_LISTED }
    requires few_backward { length backward.now ≤ MAX_LISTED }
    ensures { IfOk result (IsBest core.now.instance forward.now backward.now (gain_of core.now.instance core.now.state.incumbent)) }
{
    let firsts = references_to(alloc, forward)?;
    let seconds = references_to(alloc, backward)?;
    crew.best_of(
        alloc,
        core.side(End::Forward),
        &firsts,
        &seconds,
        core.gain(),
    )
}

// References to labels, in their order.
fn references_to<'l>(alloc: Global, labels: &'l [Label]) -> Result<Vec<&'l Label>, AllocError>
    ensures { IfOk result (λ references. map (λ l. l.now) references.items ≡ labels.now) }
{
    let mut references = Vec::with_capacity(alloc, labels.len())?;
    for label in labels {
        references.push(label)?;
    }
    Ok(references)
}

// The path at a place of a list of labels, and the root's at None.
fn path_at(labels: &[Label], place: Option<u32>) -> &[Directed]
    requires { place_of place ≤ length labels.now }
    ensures { result.now ≡ path_at labels.now (place_of place) }
{
    match place {
        None => &[],
        Some(k) => labels[k as usize].path(),
    }
}

// The forward path of a pair, and then the backward one turned round.
fn joined_order(
    alloc: Global,
    forward: &[Label],
    backward: &[Label],
    pair: Pair,
) -> Result<Vec<Directed>, AllocError>
    requires forward { place_of pair.forward ≤ length forward.now }
    requires backward { place_of pair.backward ≤ length backward.now }
    ensures { IfOk result (λ order. order.items ≡ path_at forward.now (place_of pair.forward) ++ reverse (path_at backward.now (place_of pair.backward))) }
{
    let mut order = Vec::from_slice(alloc, path_at(forward, pair.forward))?;
    let mut back = Vec::from_slice(alloc, path_at(backward, pair.backward))?;
    back.reverse();
    order.extend_from_slice(&back)?;
    Ok(order)
}

// All live labels of a side, made again from their paths.
fn live_labels(alloc: Global, core: &Core<'_>, end: End) -> Result<Vec<Label>, AllocError>
    ensures all { IfOk result (λ labels. HasAllLive core.now end labels.items) }
    ensures labels { IfOk result (λ labels. All (IsLabelOf (face_of core.now.instance core.now.cut end)) labels.items) }
    ensures few { IfOk result (λ labels. length labels.items ≤ MAX_LISTED) }
{
    // They number no more than all labels of the core.
    let _ = core.labels();
    let mut labels = Vec::new(alloc);
    for number in 0..BUCKETS as u8 {
        push_live(&mut labels, core, end, number)?;
    }
    Ok(labels)
}

// Adds the live labels of a bucket of a side.
fn push_live(
    labels: &mut Vec<Label>,
    core: &Core<'_>,
    end: End,
    number: u8,
) -> Result<(), AllocError>
    requires { number < BUCKETS }
    ensures { OnOk result (AddsLive core.now end number (length (labels_in core.now.state end number)) labels.old.items labels.new.items) }
{
    for index in 0..core.count(end, number) {
        let id = Id {
            end,
            bucket: number,
            index,
        };
        if core.is_live(id) {
            labels.push(core.restore(id)?)?;
        }
    }
    Ok(())
}
