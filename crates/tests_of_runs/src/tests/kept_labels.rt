//! Labels that a caller inserted before a search.

ghost use Rattle.std.specs.Prelude.{◌≡◌, ◌<◌, length, IfSome};
ghost use Rattle.board.specs.Passes.{board_of};
ghost use Rattle.board.specs.Sharing.{AreSidesOf};
ghost use Rattle.label.specs.Labels.{IsLabelOf};
ghost use Rattle.strip_model.specs.Directed.{strip_of};
ghost use Rattle.strip_model.specs.declared.end.End.TheVariants.{Forward};

use board::{Board, Pass};
use closer::Outcome;
use label::{Label, Side, extend, start};
use label_core::log_of;
use plan_check::Published;
use pool::OpenGate;
use proof_log::Log;
use sequencer::search;
use std::alloc::Global;
use std::sync::Wait;
use std::test::Fail;
use std::thread::Threads;
use strip_model::{Directed, End, Instance};
use worked_instances::four_strips;

const BUDGET: u64 = 200_000;

// The forward label of this directed strip and directed strip 4.
fn label_by(alloc: Global, side: &Side, first: Directed) -> Option<Label>
    requires strips { length side.now.instance.strips ≡ 4 }
    requires first { strip_of first < 4 }
    ensures { IfSome result (IsLabelOf side.now) }
{
    let Ok(Some(one)) = start(alloc, side, first) else {
        return None;
    };
    match extend(alloc, side, &one, Directed(4)) {
        Ok(label) => label,
        Err(_) => None,
    }
}

// Inserts it.
fn insert_by<'a, R: Wait>(
    rt: &R,
    alloc: Global,
    board: &Board<'a>,
    pass: &mut Pass<'a>,
    first: Directed,
)
    requires board { board_of pass.old ≡ board.now }
    requires strips { length board.now.forward.side.instance.strips ≡ 4 }
    requires first { strip_of first < 4 }
    requires end { board.now.forward.side.end ≡ Forward }
    ensures board { board_of pass.new ≡ board.now }
    ensures weight { pass.new.weight ≡ pass.old.weight }
{
    if let Some(label) = label_by(alloc, board.side(End::Forward), first) {
        let _ = board.insert(rt, pass, label);
    }
}

// The log that a search by two workers leaves where the labels 0 4 and 2 4 were there.
fn log_after<R: Threads + Wait + Sync>(
    rt: &R,
    alloc: Global,
    instance: &Instance,
    forward: &Side,
    backward: &Side,
) -> Result<Log, Fail>
    requires strips { length instance.now.strips ≡ 4 }
    requires sides { AreSidesOf instance.now forward.now backward.now }
{
    let none = Published::new(instance, Vec::new(alloc))?;
    let (board, mut pass) = Board::new(alloc, instance, forward, backward, none, BUDGET)?;
    insert_by(rt, alloc, &board, &mut pass, Directed(0));
    insert_by(rt, alloc, &board, &mut pass, Directed(2));
    let outcome = search(rt, alloc, board, pass, BUDGET, 2, &OpenGate)?;
    let (Outcome::Optimal { core } | Outcome::Open { core }) = outcome;
    Ok(log_of(alloc, &core)?)
}

// Whether there is a forward label of this directed strip and directed strip 4.
fn lists(log: &Log, first: Directed) -> bool {
    for path in &log.forward {
        if path.as_slice() == [first, Directed(4)].as_slice() {
            return true;
        }
    }
    false
}

#[test]
fn a_search_keeps_what_was_inserted_before(rt: HostRuntime) -> Result<(), Fail> {
    let instance = four_strips(rt.alloc())?;
    let forward = Side::new(rt.alloc(), &instance, End::Forward, 12)?;
    let backward = Side::new(rt.alloc(), &instance, End::Backward, 12)?;
    let log = log_after(&rt, rt.alloc(), &instance, &forward, &backward)?;
    assert!(rt; lists(&log, Directed(0)) && lists(&log, Directed(2)));
    assert_eq!(rt; log.gain, 2020);
    Ok(())
}
