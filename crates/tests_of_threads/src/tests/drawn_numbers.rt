//! Numbers that two threads draw.

ghost use Rattle.std.specs.Prelude.{◌≡◌};
ghost use Rattle.shared_budget.specs.Drawn.{IsDrawerOf};

use shared_budget::{Drawer, Draws, MOST_BUDGET};
use std::test::Fail;
use std::thread::join_mut;

// Draws this many numbers, and pushes those below the budget, as far as memory lasts.
fn draw_all(draws: &Draws, drawer: &mut Drawer, drawn: &mut Vec<u64>, count: u64)
    requires { IsDrawerOf draws.now drawer.old }
    ensures own { IsDrawerOf draws.now drawer.new }
    ensures weight { drawer.new.weight ≡ drawer.old.weight }
{
    for _ in 0..count {
        if let Ok(number) = draws.draw(drawer) {
            let _ = drawn.push(number);
        }
    }
}

#[test]
fn two_threads_draw_each_number_once(rt: HostRuntime) -> Result<(), Fail> {
    let (draws, mut first) = Draws::new(rt.alloc(), MOST_BUDGET)?;
    let mut second = draws.split(&mut first);
    let mut numbers = Vec::new(rt.alloc());
    let mut others = Vec::new(rt.alloc());
    join_mut(
        &rt,
        &mut || draw_all(&draws, &mut first, &mut numbers, 1_000),
        &mut || draw_all(&draws, &mut second, &mut others, 1_000),
    );
    draws.join(&mut first, second);
    draws.close(first);
    for number in others.as_slice() {
        numbers.push(*number)?;
    }
    numbers.sort()?;
    assert!(rt; numbers.iter().copied().eq(0..2_000));
    Ok(())
}

fn needs_sync<X: Sync>() {}

fn needs_send<X: Send>() {}

// A word can be shared and sent, and a drawer can be sent.
fn words_are_shared_and_drawers_are_sent() {
    needs_sync::<Draws>();
    needs_send::<Draws>();
    needs_send::<Drawer>();
}
