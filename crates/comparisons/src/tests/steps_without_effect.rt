//! Events that name no step of a core, which change nothing.

use super::made_by_hand::{CUT, FIRST, SECOND, SEED, attempt, event_of};
use bucket::{Id, State};
use inst_maker::make;
use label::Side;
use label_core::{Core, Event};
use std::alloc::Global;
use std::test::Fail;
use strip_model::{Acquisition, Directed, End};

const AT_30: Acquisition = Acquisition {
    start: 30,
    at: Directed(0),
};

// A core with a forward label that was taken, a backward one that waits, and the plan of the first strip.
fn begin(alloc: Global, core: &mut Core<'_>) -> Result<bool, Fail> {
    let mut legal = true;
    for number in 0..3 {
        legal = attempt(core, event_of(alloc, number)?)? && legal;
    }
    let plan = vec![in alloc; AT_30]?;
    Ok(attempt(core, Event::Publish { plan })? && legal)
}

// The events without a step, by number: a path that is there, a label that is to retire itself, or that was taken, or whose
// bound is too high, and a plan that gains less.
fn illegal_event(alloc: Global, number: u32) -> Result<Event, Fail> {
    match number {
        0 => event_of(alloc, 0),
        1 => Ok(Event::Retire {
            id: FIRST,
            by: FIRST,
        }),
        2 => Ok(Event::Take { id: FIRST }),
        3 => Ok(Event::Cut { id: FIRST }),
        _ => Ok(Event::Publish {
            plan: Vec::new(alloc),
        }),
    }
}

// Whether a label is there in this state, with this path.
fn is_there(core: &Core<'_>, id: Id, x: Directed, state: State) -> bool {
    core.is_there(id) && core.state_of(id) == state && core.path_of(id) == [x].as_slice()
}

// Whether all readers answer as after `begin`.
fn stays(core: &Core<'_>) -> bool {
    is_there(core, FIRST, Directed(0), State::Taken)
        && is_there(core, SECOND, Directed(2), State::Waiting)
        && core.labels() == 2
        && core.count(End::Forward, 0) == 1
        && core.count(End::Backward, 2) == 1
        && core.gain() == 28_910
        && core.plan() == [AT_30].as_slice()
}

// Whether no such event has a step, and each changes nothing.
fn change_nothing(alloc: Global, core: &mut Core<'_>) -> Result<bool, Fail> {
    for number in 0..5 {
        if attempt(core, illegal_event(alloc, number)?)? || !stays(core) {
            return Ok(false);
        }
    }
    Ok(true)
}

#[test]
fn what_has_no_step_changes_nothing(rt: HostRuntime) -> Result<(), Fail> {
    let instance = make(rt.alloc(), SEED, 2)?;
    let forward = Side::new(rt.alloc(), &instance, End::Forward, CUT)?;
    let backward = Side::new(rt.alloc(), &instance, End::Backward, CUT)?;
    let mut core = Core::new(rt.alloc(), &instance, &forward, &backward)?;
    assert!(rt; begin(rt.alloc(), &mut core)?);
    assert!(rt; stays(&core));
    assert!(rt; change_nothing(rt.alloc(), &mut core)?);
    Ok(())
}
