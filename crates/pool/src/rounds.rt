//! The search by rounds: in each the labels of a layer of last starts are readied on both sides, and then extended.

ghost use Rattle.std.specs.Prelude.{◌≡◌, ◌≤◌, IfOk};
ghost use Rattle.std.specs.List.{All};
ghost use Rattle.board.specs.Passes.{side_at};
ghost use Rattle.board.specs.Sharing.{AreSidesOf};
ghost use Rattle.label.specs.Labels.{IsLabelOf};
ghost use Rattle.pool.specs.Lanes.{IsLaneOf};
ghost use Rattle.strip_model.specs.declared.end.End.TheVariants.{Forward};

use crate::crew::Crew;
use crate::gate::Gate;
use crate::lane::Lane;
use crate::layers::{end_of_layer, width_of};
use crate::order::Order;
use crate::work_end::WorkEnd;
use board::Board;
use label::Label;
use std::alloc::{AllocError, Global};
use std::sync::Wait;
use std::thread::Threads;
use strip_model::End;

/// Makes rounds until no label waits, one at least, in which all workers are asked.
///
/// # Errors
///
/// The end of a worker that was halted, or `Memory`.
pub(crate) fn make_rounds<'w, 'a, R: Threads + Wait + Sync, G: Gate + Sync>(
    rt: &R,
    board: &Board<'a>,
    crew: &mut Crew<'w, 'a, G>,
    lanes: Vec<Lane<'a>>,
) -> Result<(), WorkEnd>
    requires crew { crew.old.board ≡ board.now }
    requires sides { AreSidesOf board.now.instance board.now.forward.side board.now.backward.side }
    requires lanes { All (IsLaneOf board.now) lanes.items }
    ensures { crew.new ≡ crew.old }
{
    let forward = width_of(board.side(End::Forward));
    let backward = width_of(board.side(End::Backward));
    let mut lanes = lanes;
    for _ in rt.forever() {
        let labels = waiting_in(&lanes);
        if crew.has_begun() && labels == 0 {
            return Ok(());
        }
        let order = Order::Ready {
            forward: layer_of(&lanes, End::Forward, forward),
            backward: layer_of(&lanes, End::Backward, backward),
        };
        let readied = crew.carry_out(rt, lanes, &order, labels)?;
        let extended = extend_ready(rt, crew, readied)?;
        lanes = extended;
    }
    unreachable!()
}

// The second half of a round: what is ready is offered as a plan, if one is better, and extended.
fn extend_ready<'w, 'a, R: Threads + Wait + Sync, G: Gate + Sync>(
    rt: &R,
    crew: &mut Crew<'w, 'a, G>,
    lanes: Vec<Lane<'a>>,
) -> Result<Vec<Lane<'a>>, WorkEnd>
    requires forward { crew.old.board.forward.side.end ≡ Forward }
    requires lanes { All (IsLaneOf crew.old.board) lanes.items }
    ensures crew { crew.new ≡ crew.old }
    ensures lanes { IfOk result (λ lanes. All (IsLaneOf crew.old.board) lanes.items) }
{
    let alloc = crew.alloc();
    let board = crew.board();
    let mut lanes = lanes;
    let forward = take_ready(alloc, board, &mut lanes, End::Forward)?;
    let backward = take_ready(alloc, board, &mut lanes, End::Backward)?;
    crew.offer_best(&forward)?;
    let order = Order::Extend {
        forward: &forward,
        backward: &backward,
    };
    let labels = forward.len().saturating_add(backward.len());
    crew.carry_out(rt, lanes, &order, labels)
}

// How many labels wait in lanes.
fn waiting_in(lanes: &[Lane<'_>]) -> usize {
    let mut count = 0usize;
    for lane in lanes {
        count = count.saturating_add(lane.len());
    }
    count
}

// Where the layer of the least last start of a side ends, in ticks, and 0 where no label of it waits.
fn layer_of(lanes: &[Lane<'_>], end: End, width: u32) -> u32
    requires { 1 ≤ width }
{
    match first_start(lanes, end) {
        None => 0,
        Some(start) => end_of_layer(start, width),
    }
}

// The least last start of the labels of a side that wait, in ticks, and None where none does.
fn first_start(lanes: &[Lane<'_>], end: End) -> Option<u32> {
    let mut first = None;
    for lane in lanes {
        if lane.side().end() == end {
            first = lesser(first, lane.first_start());
        }
    }
    first
}

// The lesser of these, or the one that there is.
fn lesser(first: Option<u32>, second: Option<u32>) -> Option<u32> {
    match (first, second) {
        (None, second) => second,
        (first, None) => first,
        (Some(first), Some(second)) => Some(first.min(second)),
    }
}

// The labels of a side of a board that are ready, lane by lane.
fn take_ready(
    alloc: Global,
    board: &Board<'_>,
    lanes: &mut Vec<Lane<'_>>,
    end: End,
) -> Result<Vec<Label>, AllocError>
    requires { All (IsLaneOf board.now) lanes.old.items }
    ensures lanes { lanes.new.items ≡ lanes.old.items }
    ensures labels { IfOk result (λ labels. All (IsLabelOf (side_at board.now end)) labels.items) }
{
    let mut labels = Vec::new(alloc);
    let count = lanes.len();
    for k in 0..count {
        take_from(board, &mut lanes[k], end, &mut labels)?;
    }
    Ok(labels)
}

// Those of one lane, if it is of this side.
fn take_from(
    board: &Board<'_>,
    lane: &mut Lane<'_>,
    end: End,
    labels: &mut Vec<Label>,
) -> Result<(), AllocError>
    requires lane { IsLaneOf board.now lane.old }
    requires labels { All (IsLabelOf (side_at board.now end)) labels.old.items }
    ensures lane { lane.new ≡ lane.old }
    ensures labels { All (IsLabelOf (side_at board.now end)) labels.new.items }
{
    match (lane.side().end(), end) {
        (End::Forward, End::Forward) => lane.move_ready(labels),
        (End::Backward, End::Backward) => lane.move_ready(labels),
        _ => Ok(()),
    }
}
