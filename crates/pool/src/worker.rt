//! A worker that goes on from round to round.

ghost use Rattle.std.specs.Prelude.{◌≡◌};
ghost use Rattle.std.specs.List.{All};
ghost use Rattle.board.specs.Passes.{BoardName, board_of, side_at};
ghost use Rattle.label.specs.Labels.{IsLabelOf};
ghost use Rattle.pool.specs.Lanes.{IsLaneOf, IsOrderOf};

use crate::gate::Gate;
use crate::lane::Lane;
use crate::order::Order;
use crate::post::Post;
use crate::tally::Tally;
use crate::work_end::WorkEnd;
use board::{Board, Pass};
use label::Label;
use std::alloc::{AllocError, Global};
use std::marker::Model;
use std::sync::Wait;

/// A worker: its post, its pass, what it keeps count of, and the lanes that are its own in a round. Contracts see the board and
/// the weight of the pass.
pub(crate) struct Worker<'w, 'a, G> {
    post: Post<'w, 'a, G>,
    pass: Pass<'a>,
    tally: Tally,
    lanes: Vec<Lane<'a>>,
    // Why it was halted, if it was: a call was refused, or the gate stopped it.
    halt: Option<WorkEnd>,
}

impl<'w, 'a, G> Model for Worker<'w, 'a, G> {
    ghost use Rattle.std.specs.List.{All};
    ghost use Rattle.std.specs.Prelude.{◌≡◌};
    ghost use Rattle.board.specs.Passes.{board_of};
    ghost use Rattle.pool.specs.Lanes.{IsLaneOf};
    ghost use Rattle.pool.specs.Workers.{WorkerName};

    ghost Value = { WorkerName };

    ghost view = { λ w. record { board = w.post.board.now; weight = w.pass.weight } };

    ghost invariant = { λ w. (board_of w.pass ≡ w.post.board.now) × All (IsLaneOf w.post.board.now) w.lanes.items };
}

impl<'w, 'a, G> Worker<'w, 'a, G> {
    /// The worker with this number, without a lane. It takes no memory.
    pub(crate) fn new(
        alloc: Global,
        board: &'w Board<'a>,
        gate: &'w G,
        number: u32,
        pass: Pass<'a>,
    ) -> Worker<'w, 'a, G>
        requires { board_of pass ≡ board.now }
        ensures { result ≡ record { board = board.entry.now; weight = pass.entry.weight } }
    {
        Worker {
            post: Post {
                alloc,
                board,
                gate,
                worker: number,
            },
            pass,
            tally: Tally {
                step: 0,
                spare: false,
            },
            lanes: Vec::new(alloc),
            halt: None,
        }
    }

    /// The pass.
    pub(crate) fn into_pass(self) -> Pass<'a>
        ensures board { board_of result ≡ self.entry.board }
        ensures weight { result.weight ≡ self.entry.weight }
    {
        let Worker {
            post: _,
            pass,
            tally: _,
            lanes: _,
            halt: _,
        } = self;
        pass
    }

    /// How much work its lanes are.
    pub(crate) fn load(&self) -> u64 {
        let mut load = 0u64;
        for lane in &self.lanes {
            load = load.saturating_add(lane.weight()).saturating_add(1);
        }
        load
    }

    /// Takes a lane. It fails for want of memory alone.
    pub(crate) fn take(&mut self, lane: Lane<'a>) -> Result<(), AllocError>
        requires { IsLaneOf self.old.board lane }
        ensures { self.new ≡ self.old }
    {
        self.lanes.push(lane)?;
        Ok(())
    }

    /// Gives its lanes away.
    ///
    /// # Errors
    ///
    /// Its end, if it was halted, or `Memory`.
    pub(crate) fn give_lanes(&mut self, lanes: &mut Vec<Lane<'a>>) -> Result<(), WorkEnd>
        requires { All (IsLaneOf self.old.board) lanes.old.items }
        ensures worker { self.new ≡ self.old }
        ensures lanes { All (IsLaneOf self.old.board) lanes.new.items }
    {
        if let Some(end) = self.halt {
            return Err(end);
        }
        move_all(&mut self.lanes, lanes)?;
        Ok(())
    }
}

impl<'w, 'a, G: Gate> Worker<'w, 'a, G> {
    /// Does what is ordered in each of its lanes, as far as no call is refused.
    pub(crate) fn obey<R: Wait>(&mut self, rt: &R, order: &Order<'_>)
        requires { IsOrderOf self.old.board order.now }
        ensures { self.new ≡ self.old }
    {
        if let Err(end) = self.follow_all(rt, order) {
            self.halt = Some(end);
        }
    }

    // The gate is asked before, even where the worker has no lane.
    fn follow_all<R: Wait>(&mut self, rt: &R, order: &Order<'_>) -> Result<(), WorkEnd>
        requires { IsOrderOf self.old.board order.now }
        ensures { self.new ≡ self.old }
    {
        self.post.ask(&mut self.tally)?;
        let count = self.lanes.len();
        for k in 0..count {
            self.follow_at(rt, k, order)?;
        }
        Ok(())
    }

    // Does what is ordered in its lane at a place, if there is one.
    fn follow_at<R: Wait>(&mut self, rt: &R, k: usize, order: &Order<'_>) -> Result<(), WorkEnd>
        requires { IsOrderOf self.old.board order.now }
        ensures { self.new ≡ self.old }
    {
        if k >= self.lanes.len() {
            return Ok(());
        }
        self.post.follow(
            rt,
            &mut self.pass,
            &mut self.tally,
            &mut self.lanes[k],
            order,
        )
    }

    /// Offers the plan of a label, if it has no open twins and gains more than the best one.
    ///
    /// # Errors
    ///
    /// `Stopped` or `Memory`.
    pub(crate) fn publish(&mut self, label: &Label) -> Result<(), WorkEnd>
        requires { IsLabelOf (side_at self.old.board label.now.end) label.now }
        ensures { self.new ≡ self.old }
    {
        self.post.publish(&mut self.pass, &mut self.tally, label)?;
        Ok(())
    }
}

// Moves lanes from one list to the other.
fn move_all<'a>(from: &mut Vec<Lane<'a>>, into: &mut Vec<Lane<'a>>) -> Result<(), AllocError>
    ensures { (b : BoardName) → All (IsLaneOf b) from.old.items → All (IsLaneOf b) into.old.items
        → All (IsLaneOf b) from.new.items × All (IsLaneOf b) into.new.items }
{
    let count = from.len();
    for _ in 0..count {
        let Some(lane) = from.pop() else {
            unreachable!()
        };
        into.push(lane)?;
    }
    Ok(())
}
