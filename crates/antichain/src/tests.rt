//! An antichain on a side with one strip.

ghost use Rattle.std.specs.Prelude.{◌≡◌, ◌<◌, length, IfOk};

use super::*;
use label::{Outline, Side, brief, outline_of, start};
use std::alloc::Global;
use std::test::Fail;
use strip_model::{Directed, End, Instance, Request, Strip, Window};

const ONLY: Strip = Strip {
    request: 0,
    twin: None,
    area: 10,
    windows: [
        Window {
            early: 0,
            late: 4,
            duration: 5,
        },
        Window {
            early: 1,
            late: 0,
            duration: 5,
        },
    ],
};

fn a_side(alloc: Global) -> Result<Side, Fail>
    ensures { IfOk result (λ side. length side.instance.strips ≡ 1) }
{
    let requests = vec![in alloc; Request { gain: 2 }]?;
    let strips = vec![in alloc; ONLY]?;
    let instance = Instance::new(alloc, requests, strips, &[0, 0, 0, 0])?;
    Ok(Side::new(alloc, &instance, End::Forward, 4)?)
}

// The outline of the label of the strip in direction 0.
fn an_outline(alloc: Global, side: &Side) -> Result<Outline, Fail>
    requires { 0 < length side.now.instance.strips }
{
    match start(alloc, side, Directed(0))? {
        Some(label) => Ok(outline_of(side, &brief(&label))),
        None => Err("its window is closed".into()),
    }
}

// A member with this outline and this id enters.
fn enter(antichain: &mut Antichain, id: u32, outline: &Outline) -> Result<(), Fail> {
    antichain.reserve()?;
    antichain.insert(Member {
        id,
        outline: *outline,
    });
    Ok(())
}

// Two members of this outline, the second with the lesser id.
fn two_members(alloc: Global, outline: &Outline) -> Result<Antichain, Fail> {
    let mut antichain = Antichain::empty(alloc);
    enter(&mut antichain, 7, outline)?;
    enter(&mut antichain, 3, outline)?;
    Ok(antichain)
}

// The ids of those that the label of the outline dominates, which are taken out.
fn beaten(
    alloc: Global,
    antichain: &mut Antichain,
    side: &Side,
    outline: &Outline,
) -> Result<Vec<u32>, Fail> {
    let mut ids = Vec::new(alloc);
    ids.reserve(antichain.len())?;
    antichain.take_beaten(side, outline, &mut ids);
    Ok(ids)
}

// The ids of those whose bound is at most the gain, which are taken out.
fn pruned(alloc: Global, antichain: &mut Antichain, gain: u64) -> Result<Vec<u32>, Fail> {
    let mut ids = Vec::new(alloc);
    ids.reserve(antichain.len())?;
    antichain.prune(gain, &mut ids);
    Ok(ids)
}

#[test]
fn members_stand_by_their_starts(rt: HostRuntime) -> Result<(), Fail> {
    let alloc = rt.alloc();
    let side = a_side(alloc)?;
    let early = an_outline(alloc, &side)?;
    let mut late = early;
    late.start = 3;
    let mut antichain = Antichain::empty(alloc);
    enter(&mut antichain, 5, &late)?;
    enter(&mut antichain, 8, &early)?;
    let gone = pruned(alloc, &mut antichain, early.bound)?;
    assert!(rt; *gone.as_slice() == *[8, 5].as_slice());
    assert!(rt; antichain.members().is_empty());
    Ok(())
}

#[test]
fn a_label_dominates_those_of_its_outline(rt: HostRuntime) -> Result<(), Fail> {
    let alloc = rt.alloc();
    let side = a_side(alloc)?;
    let outline = an_outline(alloc, &side)?;
    let mut antichain = two_members(alloc, &outline)?;
    assert!(rt; antichain.dominator(&side, &outline).is_some());
    assert!(rt; antichain.least_dominator(&side, &outline) == Some(3));
    antichain.remove(3, outline.start);
    let gone = beaten(alloc, &mut antichain, &side, &outline)?;
    assert!(rt; *gone.as_slice() == *[7].as_slice());
    assert!(rt; antichain.is_empty());
    Ok(())
}
