//! A list of numbers under a lock, to which two threads append.

ghost use Rattle.std.specs.Prelude.{◌≡◌, ◌≤◌, None};

use std::sync::Wait;
use std::test::Fail;
use std::thread::join_mut;
use turn_lock::{Chronicle, Held, Turn, TurnPass, TurnSpent};

// Numbers, whose history is the list of them.
#[derive(Drop)]
struct Numbers {
    list: Vec<u32>,
}

impl Chronicle for Numbers {
    type Entry = u32;

    type Frame = ();

    ghost history = { λ numbers. numbers.list.items };

    ghost frame = { λ _. tt };
}

// Appends a number in a turn of its own. Whether it did is the answer.
fn append<R: Wait>(
    rt: &R,
    turn: &Turn<Numbers>,
    pass: &mut TurnPass<Numbers>,
    number: u32,
) -> Result<bool, TurnSpent>
    requires lock { pass.old.lock ≡ turn.now }
    requires idle { pass.old.turn ≡ None }
    ensures lock { pass.new.lock ≡ pass.old.lock }
    ensures idle { pass.new.turn ≡ None }
    ensures weight { pass.new.weight ≡ pass.old.weight }
{
    let mut held = turn.enter(rt, pass)?;
    let pushed = held.value().list.push(number).is_ok();
    turn.leave(held, pass);
    Ok(pushed)
}

// The turns that each thread makes.
const TURNS: u32 = 1_000;

// Appends the [`TURNS`] numbers from `first` on, each in a turn of its own. The answer is how many were appended.
fn append_all<R: Wait>(
    rt: &R,
    turn: &Turn<Numbers>,
    pass: &mut TurnPass<Numbers>,
    first: u32,
) -> u32
    requires room { first ≤ 1000 }
    requires lock { pass.old.lock ≡ turn.now }
    requires idle { pass.old.turn ≡ None }
    ensures lock { pass.new.lock ≡ pass.old.lock }
    ensures idle { pass.new.turn ≡ None }
    ensures weight { pass.new.weight ≡ pass.old.weight }
{
    let mut appended = 0;
    for k in 0..TURNS {
        if let Ok(true) = append(rt, turn, pass, first + k) {
            appended += 1;
        }
    }
    appended
}

#[test]
fn two_threads_append_each_in_its_own_order(rt: HostRuntime) -> Result<(), Fail> {
    let first = Numbers {
        list: Vec::new(rt.alloc()),
    };
    let (turn, mut one) = Turn::new(rt.alloc(), first)?;
    let mut other = turn.split(&mut one);
    let (by_one, by_other) = join_mut(
        &rt,
        &mut || append_all(&rt, &turn, &mut one, 0),
        &mut || append_all(&rt, &turn, &mut other, TURNS),
    );
    turn.join(&mut one, other);
    let numbers = turn.close(one);
    assert!(rt; by_one == TURNS && by_other == TURNS);
    let list = numbers.list.as_slice();
    assert_eq!(rt; list.len(), 2 * TURNS as usize);
    assert!(rt; list.iter().filter(|n| **n < TURNS).copied().eq(0..TURNS));
    assert!(rt;
        list.iter()
            .filter(|n| **n >= TURNS)
            .copied()
            .eq(TURNS..2 * TURNS)
    );
    Ok(())
}

fn needs_sync<X: Sync>() {}

fn needs_send<X: Send>() {}

// Where the value can be sent, its lock can be shared, and passes and turns can be sent.
fn crosses_threads<T: Chronicle + Send>() {
    needs_sync::<Turn<T>>();
    needs_send::<Turn<T>>();
    needs_send::<TurnPass<T>>();
    needs_send::<Held<T>>();
}
