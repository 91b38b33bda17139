//! What a side says of its labels beside plain forms over their paths, on all labels of small instances.

ghost use Rattle.std.specs.Prelude.{◌<◌, length, All};
ghost use Rattle.label.specs.Labels.{IsLabelOf};

use super::all_labels::{all_labels, directed_strips, label_of};
use super::instances::{OPEN_STRIPS, instance_of};
use super::plain_gains::{plain_bound, plain_dominates};
use super::plain_paths::{exists, is_label_path, is_open, is_reached, last_of, ticks_from};
use inst_maker::make;
use label::{Label, Side, bound, dominates, extend, reach, start};
use std::alloc::Global;
use std::process::Abort;
use std::test::Fail;
use strip_model::{Directed, End, Instance};
use strip_set::{DirectedSet, MAX_DIRECTED};

// Where the cut leaves out nothing, there are at least so many labels here, so that the tests have enough to compare.
const MANY: usize = 300;

// The same for a cut in the middle.
const SOME: usize = 15;

// Whether a label has this path, with its last directed strip and the start of that.
fn is_label_with(instance: &Instance, label: &Label, path: &[Directed]) -> bool {
    match last_of(instance, label.end(), path) {
        None => false,
        Some(last) => {
            let start = i64::from(label.start_of_last());
            label.path() == path
                && label.last() == last.at
                && start == ticks_from(instance, label.end(), last)
        }
    }
}

// Whether there is a label exactly where this is a label path, and then that of this path.
fn is_answer_for(
    instance: &Instance,
    side: &Side,
    answer: Option<Label>,
    path: &[Directed],
) -> bool {
    let is_path = is_label_path(instance, side.end(), side.cut(), path);
    match answer {
        None => !is_path,
        Some(label) => is_path && is_label_with(instance, &label, path),
    }
}

// Whether each directed strip alone gives a label exactly where it is a label path.
fn starts_as_paths(alloc: Global, instance: &Instance, side: &Side) -> Result<bool, Fail> {
    for x in 0..directed_strips(instance) {
        let x = Directed(x);
        if !exists(side.instance(), x) {
            return Ok(false);
        }
        if !is_answer_for(instance, side, start(alloc, side, x)?, &[x]) {
            return Ok(false);
        }
    }
    Ok(true)
}

// Whether a label is extended by `x` exactly where that gives a label path, and to the label of that path.
fn extends_as_its_path(
    alloc: Global,
    instance: &Instance,
    side: &Side,
    label: &Label,
    x: Directed,
) -> Result<bool, Fail>
    requires { IsLabelOf side.now label.now }
{
    if !exists(side.instance(), x) {
        return Ok(false);
    }
    let mut path = Vec::from_slice(alloc, label.path())?;
    path.push(x)?;
    let longer = extend(alloc, side, label, x)?;
    Ok(is_answer_for(instance, side, longer, &path))
}

// Whether `x` is in reach of a path, and open in it, exactly where these sets have it.
fn has_its_sets(
    instance: &Instance,
    end: End,
    path: &[Directed],
    x: Directed,
    reach: DirectedSet,
    open: DirectedSet,
) -> bool {
    x.0 < MAX_DIRECTED
        && reach.contains(x.0) == is_reached(instance, end, path, x)
        && open.contains(x.0) == is_open(instance, path, x)
}

// Whether a label's extensions, reach and open strips are those of its path.
fn goes_on_as_its_path(
    alloc: Global,
    instance: &Instance,
    side: &Side,
    label: &Label,
) -> Result<bool, Fail>
    requires { IsLabelOf side.now label.now }
{
    let reach = reach(side, label);
    let open = label.open();
    for x in 0..directed_strips(instance) {
        let x = Directed(x);
        if !has_its_sets(instance, side.end(), label.path(), x, reach, open) {
            return Ok(false);
        }
        if !extends_as_its_path(alloc, instance, side, label, x)? {
            return Ok(false);
        }
    }
    Ok(true)
}

// Whether a label dominates just those of these labels with its last directed strip whose paths its path dominates.
fn dominates_as_paths(instance: &Instance, side: &Side, labels: &[Label], b: &Label) -> bool
    requires labels { All (IsLabelOf side.now) labels.now }
    requires label { IsLabelOf side.now b.now }
{
    for place in 0..labels.len() {
        let a = label_of(side, labels, place);
        if b.last() == a.last() {
            let plain = plain_dominates(instance, side.end(), b.path(), a.path());
            if dominates(side, b, a) != plain {
                return false;
            }
        }
    }
    true
}

// Whether each of these labels is as its path.
fn are_as_their_paths(
    alloc: Global,
    instance: &Instance,
    side: &Side,
    labels: &[Label],
) -> Result<bool, Fail>
    requires { All (IsLabelOf side.now) labels.now }
{
    for place in 0..labels.len() {
        let label = label_of(side, labels, place);
        let bound = bound(side, label);
        if u64::try_from(plain_bound(instance, side.end(), label.path())) != Ok(bound) {
            return Ok(false);
        }
        if !dominates_as_paths(instance, side, labels, label) {
            return Ok(false);
        }
        if !goes_on_as_its_path(alloc, instance, side, label)? {
            return Ok(false);
        }
    }
    Ok(true)
}

// How many labels a side has, and None where one of them isn't as its path or another path starts one.
fn labels_as_paths(
    alloc: Global,
    instance: &Instance,
    end: End,
    cut: u32,
) -> Result<Option<usize>, Fail> {
    let side = Side::new(alloc, instance, end, cut)?;
    let labels = all_labels(alloc, &side)?;
    if !starts_as_paths(alloc, instance, &side)? {
        return Ok(None);
    }
    if !are_as_their_paths(alloc, instance, &side, &labels)? {
        return Ok(None);
    }
    Ok(Some(labels.len()))
}

// Tries all labels of a side, and tells how many there are.
fn try_side(
    rt: &impl Abort,
    alloc: Global,
    instance: &Instance,
    end: End,
    cut: u32,
) -> Result<usize, Fail> {
    let labels = labels_as_paths(alloc, instance, end, cut)?;
    assert!(rt; labels.is_some(), "{end:?}, cut {cut}");
    Ok(labels.unwrap_or(0))
}

// Tries all labels of both sides with the cut at 0, at this tick in the middle, and past the end.
fn try_instance(
    rt: &impl Abort,
    alloc: Global,
    instance: &Instance,
    middle: u32,
) -> Result<(), Fail> {
    let past = instance.horizon();
    let forward = try_side(rt, alloc, instance, End::Forward, past)?;
    let backward = try_side(rt, alloc, instance, End::Backward, 0)?;
    assert!(rt;
        forward >= MANY && backward >= MANY,
        "{forward}, {backward}"
    );
    let forward = try_side(rt, alloc, instance, End::Forward, middle)?;
    let backward = try_side(rt, alloc, instance, End::Backward, middle)?;
    assert!(rt;
        forward >= SOME && backward >= SOME,
        "{forward}, {backward}"
    );
    let forward = try_side(rt, alloc, instance, End::Forward, 0)?;
    let backward = try_side(rt, alloc, instance, End::Backward, past)?;
    assert!(rt; forward < SOME && backward == 0, "{forward}, {backward}");
    Ok(())
}

#[test]
fn labels_of_a_made_instance_are_as_their_paths(rt: HostRuntime) -> Result<(), Fail> {
    let instance = make(rt.alloc(), 7, 7)?;
    try_instance(&rt, rt.alloc(), &instance, 349)
}

#[test]
fn labels_in_any_order_are_as_their_paths(rt: HostRuntime) -> Result<(), Fail> {
    let instance = instance_of(rt.alloc(), OPEN_STRIPS)?;
    // On either side paths end with a start right at this cut.
    try_instance(&rt, rt.alloc(), &instance, 37)
}
