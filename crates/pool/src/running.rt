//! All workers, in threads of their own: passes are dealt, used and gathered, and then the board is closed.

ghost use Rattle.std.specs.Prelude.{◌≡◌, ℕ, ◌+◌, ◌≤◌, ◌<◌, ◌^◌, [], length, vec_capacity, sum_by, IfSome, OnSome, IfNone, IfOk};
ghost use Rattle.std.specs.List.{All};
ghost use Rattle.board.specs.Passes.{board_of, side_at};
ghost use Rattle.board.specs.Sharing.{AreSidesOf};
ghost use Rattle.pass_weight.specs.declared.whole_weight.TheConstants.{WHOLE_WEIGHT};
ghost use Rattle.joiner.specs.declared.limits.TheConstants.{MAX_WORKERS};
ghost use Rattle.pool.specs.Growth.{Grows};
ghost use Rattle.pool.specs.Lanes.{IsLaneOf};
ghost use Rattle.pool.specs.Running.{IsRun};

use crate::crew::Crew;
use crate::gate::{Gate, OpenGate};
use crate::lane::Lane;
use crate::post::Post;
use crate::rounds::make_rounds;
use crate::tally::Tally;
use crate::worker::Worker;
use board::{Board, Pass};
use bucket::{BUCKETS, Trace};
use plan_check::Published;
use std::alloc::{AllocError, Global};
use std::sync::Wait;
use std::thread::Threads;
use strip_model::End;

/// Runs this many workers on a board, 1 to [`MAX_WORKERS`](crate::MAX_WORKERS), each with a pass of its own in a thread of its own,
/// and closes the board. Before they begin, the label paths of one directed strip of both sides are inserted with the pass that was
/// given, each after a number was drawn; where one of these calls is refused, the rest is left out. Then they make rounds. In each the
/// labels of the next layer of last starts are cut or extended on both sides, and each bucket is one worker's alone, so that none
/// waits for a turn. They end where no label waits, or with the first call that is refused. No queue is used: who has threads of
/// their own calls [`work`](crate::work). A pass for which there is no memory means one worker fewer, and where a thread can't be
/// had, the caller does that work itself.
pub fn run_all<'a, R: Threads + Wait + Sync, G: Gate + Sync>(
    rt: &R,
    alloc: Global,
    board: Board<'a>,
    pass: Pass<'a>,
    workers: u32,
    gate: &G,
) -> Trace<'a>
    requires board { board_of pass ≡ board }
    requires whole { pass.weight ≡ WHOLE_WEIGHT }
    requires some { 1 ≤ workers }
    requires bounded { workers ≤ MAX_WORKERS }
    ensures { IsRun board.entry pass.entry result }
{
    // For its clause: the sides are those of the instance.
    let _ = board.instance();
    let mut pass = pass;
    search_by_rounds(rt, alloc, &board, &mut pass, workers, gate);
    board.close(pass)
}

// Plants the first labels, deals passes to the workers, has them make rounds, and gathers the passes again.
fn search_by_rounds<'a, R: Threads + Wait + Sync, G: Gate + Sync>(
    rt: &R,
    alloc: Global,
    board: &Board<'a>,
    pass: &mut Pass<'a>,
    workers: u32,
    gate: &G,
)
    requires board { board_of pass.old ≡ board.now }
    requires sides { AreSidesOf board.now.instance board.now.forward.side board.now.backward.side }
    requires some { 1 ≤ workers }
    requires bounded { workers ≤ MAX_WORKERS }
    ensures grows { Grows pass.old pass.new }
    ensures weight { pass.new.weight ≡ pass.old.weight }
{
    let Ok(lanes) = planted(rt, alloc, board, pass) else {
        return;
    };
    let Ok(room) = Vec::with_capacity(alloc, workers as usize) else {
        return;
    };
    let workers = deal(alloc, board, pass, gate, workers, room);
    let mut crew = Crew::new(alloc, board, workers);
    // However the rounds end, what is left to do is found by who goes on with the trace.
    let _ = make_rounds(rt, board, &mut crew, lanes);
    gather(board, pass, crew.into_workers());
}

// The lanes of a board, in which the label paths of one directed strip wait that live, as far as no call is refused.
fn planted<'a, R: Wait>(
    rt: &R,
    alloc: Global,
    board: &Board<'a>,
    pass: &mut Pass<'a>,
) -> Result<Vec<Lane<'a>>, AllocError>
    requires board { board_of pass.old ≡ board.now }
    requires sides { AreSidesOf board.now.instance board.now.forward.side board.now.backward.side }
    ensures grows { Grows pass.old pass.new }
    ensures weight { pass.new.weight ≡ pass.old.weight }
    ensures lanes { IfOk result (λ lanes. All (IsLaneOf board.now) lanes.items) }
{
    let post = Post {
        alloc,
        board,
        gate: &OpenGate,
        worker: 0,
    };
    let mut tally = Tally {
        step: 0,
        spare: false,
    };
    let mut lanes = lanes_of(alloc, board)?;
    let count = lanes.len();
    for k in 0..count {
        if post
            .plant_into(rt, pass, &mut tally, &mut lanes[k])
            .is_err()
        {
            return Ok(lanes);
        }
    }
    Ok(lanes)
}

// The lanes of a board, in which nothing waits.
fn lanes_of<'a>(alloc: Global, board: &Board<'a>) -> Result<Vec<Lane<'a>>, AllocError>
    requires { AreSidesOf board.now.instance board.now.forward.side board.now.backward.side }
    ensures { IfOk result (λ lanes. All (IsLaneOf board.now) lanes.items) }
{
    let mut lanes = Vec::new(alloc);
    add_lanes(alloc, board, End::Forward, &mut lanes)?;
    add_lanes(alloc, board, End::Backward, &mut lanes)?;
    Ok(lanes)
}

// Adds those of one side.
fn add_lanes<'a>(
    alloc: Global,
    board: &Board<'a>,
    end: End,
    lanes: &mut Vec<Lane<'a>>,
) -> Result<(), AllocError>
    requires end { (side_at board.now end).end ≡ end }
    requires lanes { All (IsLaneOf board.now) lanes.old.items }
    ensures { All (IsLaneOf board.now) lanes.new.items }
{
    for number in 0..BUCKETS as u8 {
        lanes.push(Lane::new(alloc, board.side(end), number))?;
    }
    Ok(())
}

// Splits off a pass for each worker for whose pass there is memory.
fn deal<'w, 'a, G>(
    alloc: Global,
    board: &'w Board<'a>,
    pass: &mut Pass<'a>,
    gate: &'w G,
    workers: u32,
    room: Vec<Worker<'w, 'a, G>>,
) -> Vec<Worker<'w, 'a, G>>
    requires board { board_of pass.old ≡ board.now }
    requires empty { room.items ≡ [] }
    requires room { workers ≤ vec_capacity room }
    ensures grows { Grows pass.old pass.new }
    ensures workers { All (λ w. w.board ≡ board.entry.now) result.items }
    ensures weights { pass.new.weight + sum_by (λ w. w.weight) result.items ≡ pass.old.weight }
{
    let mut dealt = room;
    for worker in 0..workers {
        match split_one(alloc, board, pass) {
            Some(new) => dealt.push_reserved(Worker::new(alloc, board, gate, worker, new)),
            None => {}
        }
    }
    dealt
}

// Splits one pass off, which begins with the empty plan, if there is memory.
fn split_one<'a>(alloc: Global, board: &Board<'a>, pass: &mut Pass<'a>) -> Option<Pass<'a>>
    requires board { board_of pass.old ≡ board.now }
    ensures grows { Grows pass.old pass.new }
    ensures none { IfNone result (pass.new.weight ≡ pass.old.weight) }
    ensures new { IfSome result (λ new. (board_of new ≡ board.now) × (pass.new.weight + new.weight ≡ pass.old.weight)) }
{
    let Ok(first) = Published::new(board.instance(), Vec::new(alloc)) else {
        return None;
    };
    if pass.weight() < 2 {
        return None;
    }
    match board.split(pass, first) {
        Ok(new) => Some(new),
        Err(_) => None,
    }
}

// Joins the passes of workers into one.
fn gather<'w, 'a, G>(board: &Board<'a>, pass: &mut Pass<'a>, workers: Vec<Worker<'w, 'a, G>>)
    requires board { board_of pass.old ≡ board.now }
    requires workers { All (λ w. w.board ≡ board.now) workers.items }
    ensures grows { Grows pass.old pass.new }
    ensures weight { pass.new.weight ≡ pass.old.weight + sum_by (λ w. w.weight) workers.entry.items }
{
    let mut left = workers;
    let count = left.len();
    for _ in 0..count {
        let Some(worker) = left.pop() else {
            unreachable!()
        };
        board.join(pass, worker.into_pass());
    }
    left.destroy_empty();
}
