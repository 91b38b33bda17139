//! A plan as text and by its order.

use plan_check::{Published, earliest, read_plan, write_plan};
use std::test::Fail;
use strip_model::{Acquisition, Directed};
use worked_instances::touching_strips;

const TEXT: &[u8] = b"strips 2\n0 0 0\n7 1 0\nend\n";

const PLAN: [Acquisition; 2] = [
    Acquisition {
        start: 0,
        at: Directed(0),
    },
    Acquisition {
        start: 7,
        at: Directed(2),
    },
];

#[test]
fn a_plan_is_read_and_written(rt: HostRuntime) -> Result<(), Fail> {
    let plan = read_plan(rt.alloc(), TEXT)?;
    assert_eq!(rt; plan.as_slice(), PLAN.as_slice());
    assert_eq!(rt; write_plan(rt.alloc(), &plan)?.as_slice(), TEXT);
    Ok(())
}

#[test]
fn an_order_gets_earliest_starts(rt: HostRuntime) -> Result<(), Fail> {
    let instance = touching_strips(rt.alloc())?;
    let plan = earliest(rt.alloc(), &instance, &[Directed(0), Directed(2)])?;
    assert_eq!(rt; plan.ok_or("it fits")?.as_slice(), PLAN.as_slice());
    Ok(())
}

fn needs_send<X: Send>(_: &X) {}

fn needs_sync<X: Sync>(_: &X) {}

// A published plan can be sent to another thread, and shared.
fn can_cross_threads(published: &Published<'_>) {
    needs_send(published);
    needs_sync(published);
}
