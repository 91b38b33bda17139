//! Values of worked instances.

ghost use Rattle.std.specs.Prelude.{◌≡◌, ◌<◌, length, IfOk};
ghost use Rattle.label.specs.Labels.{IsLabelOf};
ghost use Rattle.strip_model.specs.Directed.{strip_of};

use gain_curve::worst_difference;
use label::{Label, Side, bound, dominates, extend, reach, start};
use std::alloc::Global;
use std::test::Fail;
use strip_model::{Directed, End, mirror};
use strip_set::DirectedSet;
use worked_instances::{four_strips, touching_strips, twins_apart};

#[test]
fn the_least_difference_lies_at_either_end(rt: HostRuntime) {
    assert_eq!(rt; worst_difference(0, 4, 6, 10), -140);
    assert_eq!(rt; worst_difference(4, 0, 6, 10), 20);
}

#[test]
fn the_mirror_is_seen_from_the_end(rt: HostRuntime) -> Result<(), Fail> {
    let instance = touching_strips(rt.alloc())?;
    let mirrored = mirror(rt.alloc(), &instance)?;
    let [first, second] = mirrored.strips() else {
        return Err("there are two strips".into());
    };
    let forth = (first.windows[0].early, first.windows[0].late);
    let back = (first.windows[1].early, first.windows[1].late);
    let last = (second.windows[0].early, second.windows[0].late);
    assert_eq!(rt; (forth, back, last), ((7, 7), (7, 6), (0, 0)));
    Ok(())
}

// The label of this directed strip alone.
fn label_of_one(alloc: Global, side: &Side, x: Directed) -> Result<Label, Fail>
    requires { strip_of x < length side.now.instance.strips }
    ensures { IfOk result (IsLabelOf side.now) }
{
    match start(alloc, side, x)? {
        Some(label) => Ok(label),
        None => Err("there is no such label".into()),
    }
}

// The label of this directed strip and then directed strip 4.
fn label_of_two(alloc: Global, side: &Side, x: Directed) -> Result<Label, Fail>
    requires strips { length side.now.instance.strips ≡ 4 }
    requires first { strip_of x < 4 }
    ensures { IfOk result (IsLabelOf side.now) }
{
    let first = label_of_one(alloc, side, x)?;
    match extend(alloc, side, &first, Directed(4))? {
        Some(label) => Ok(label),
        None => Err("there is no such label".into()),
    }
}

#[test]
fn a_twin_out_of_reach_leaves_no_bound(rt: HostRuntime) -> Result<(), Fail> {
    let instance = twins_apart(rt.alloc())?;
    let side = Side::new(rt.alloc(), &instance, End::Forward, 12)?;
    let label = label_of_one(rt.alloc(), &side, Directed(0))?;
    assert!(rt; label.open() == DirectedSet::empty().with(0));
    assert!(rt; reach(&side, &label) == DirectedSet::empty().with(3).with(4));
    assert_eq!(rt; bound(&side, &label), 0);
    Ok(())
}

#[test]
fn a_label_that_gains_more_does_not_dominate(rt: HostRuntime) -> Result<(), Fail> {
    let instance = four_strips(rt.alloc())?;
    let side = Side::new(rt.alloc(), &instance, End::Forward, 12)?;
    let more = label_of_two(rt.alloc(), &side, Directed(0))?;
    let less = label_of_two(rt.alloc(), &side, Directed(2))?;
    assert_eq!(rt; (bound(&side, &more), bound(&side, &less)), (1020, 2020));
    assert!(rt; !dominates(&side, &more, &less), "400 - 1400 is below 0");
    assert!(rt; !dominates(&side, &less, &more));
    Ok(())
}

fn needs_sync<X: Sync>(_: &X) {}

fn needs_send<X: Send>(_: &X) {}

// A side and a label can be shared, and a label can be sent.
fn can_cross_threads(side: &Side, label: &Label) {
    needs_sync(side);
    needs_sync(label);
    needs_send(label);
}
