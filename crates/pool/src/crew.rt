//! All workers of a search by rounds, and what they do side by side.

ghost use Rattle.std.specs.Prelude.{◌≡◌, ℕ, ◌<◌, length, slice_index_or, IfOk, IfSome, sum_by};
ghost use Rattle.std.specs.List.{All};
ghost use Rattle.std.specs.Thread.{IsSync};
ghost use Rattle.label.specs.Labels.{IsLabelOf};
ghost use Rattle.pool.specs.Lanes.{IsLaneOf, IsOrderOf};
ghost use Rattle.pool.specs.Workers.{WorkerName};
ghost use Rattle.strip_model.specs.declared.end.End.TheVariants.{Forward};

use crate::gate::Gate;
use crate::lane::Lane;
use crate::order::Order;
use crate::work_end::WorkEnd;
use crate::worker::Worker;
use board::Board;
use label::{Label, gain_of_strips};
use std::alloc::{AllocError, Global};
use std::marker::Model;
use std::sync::Wait;
use std::thread::{Threads, for_each_mut};
use strip_model::Instance;

// With fewer labels than these one worker does all alone, since threads take longer to start than that takes.
const FEW: usize = 64;

/// The workers on a board. Contracts see the board and the weight of all their passes.
pub(crate) struct Crew<'w, 'a, G> {
    alloc: Global,
    board: &'w Board<'a>,
    workers: Vec<Worker<'w, 'a, G>>,
    // Whether all of them have been asked once.
    begun: bool,
}

impl<'w, 'a, G> Model for Crew<'w, 'a, G> {
    ghost use Rattle.std.specs.List.{All};
    ghost use Rattle.std.specs.Prelude.{◌≡◌, sum_by};
    ghost use Rattle.pool.specs.Workers.{WorkerName};

    ghost Value = { WorkerName };

    ghost view = { λ c. record { board = c.board.now; weight = sum_by (λ w. w.weight) c.workers.items } };

    ghost invariant = { λ c. All (λ w. w.board ≡ c.board.now) c.workers.items };
}

impl<'w, 'a, G> Crew<'w, 'a, G> {
    /// These workers. It takes no memory.
    pub(crate) fn new(
        alloc: Global,
        board: &'w Board<'a>,
        workers: Vec<Worker<'w, 'a, G>>,
    ) -> Crew<'w, 'a, G>
        requires { All (λ w. w.board ≡ board.now) workers.items }
        ensures { result ≡ record { board = board.entry.now; weight = sum_by (λ w. w.weight) workers.entry.items } }
    {
        Crew {
            alloc,
            board,
            workers,
            begun: false,
        }
    }

    /// The workers.
    pub(crate) fn into_workers(self) -> Vec<Worker<'w, 'a, G>>
        ensures board { All (λ w. w.board ≡ self.entry.board) result.items }
        ensures weight { sum_by (λ w. w.weight) result.items ≡ self.entry.weight }
    {
        let Crew {
            alloc: _,
            board: _,
            workers,
            begun: _,
        } = self;
        workers
    }

    /// The board.
    pub(crate) fn board(&self) -> &'w Board<'a>
        ensures { result.now ≡ self.now.board }
    {
        self.board
    }

    /// Where memory comes from.
    pub(crate) fn alloc(&self) -> Global {
        self.alloc
    }

    /// Whether all of them have been asked once.
    pub(crate) fn has_begun(&self) -> bool {
        self.begun
    }
}

impl<'w, 'a, G: Gate + Sync> Crew<'w, 'a, G> {
    /// Hands the lanes out, has what is ordered done in them, which is about so many labels, and gives the lanes back in the order
    /// of their places.
    ///
    /// # Errors
    ///
    /// The end of a worker that was halted, or `Memory`, also where there is no worker; the lanes are gone then.
    pub(crate) fn carry_out<R: Threads + Wait + Sync>(
        &mut self,
        rt: &R,
        lanes: Vec<Lane<'a>>,
        order: &Order<'_>,
        labels: usize,
    ) -> Result<Vec<Lane<'a>>, WorkEnd>
        requires lanes { All (IsLaneOf self.old.board) lanes.items }
        requires order { IsOrderOf self.old.board order.now }
        ensures crew { self.new ≡ self.old }
        ensures lanes { IfOk result (λ lanes. All (IsLaneOf self.old.board) lanes.items) }
    {
        if self.workers.is_empty() {
            return Err(WorkEnd::Memory);
        }
        let alone = self.begun && labels < FEW;
        self.begun = true;
        set_to_work(rt, &mut self.workers, self.board, lanes, order, alone)?;
        collect(self.alloc, &mut self.workers, self.board)
    }

    /// Offers the plan of the forward label that gains most, of those without open twins, if it gains more than the best one.
    ///
    /// # Errors
    ///
    /// `Stopped` or `Memory`.
    pub(crate) fn offer_best(&mut self, forward: &[Label]) -> Result<(), WorkEnd>
        requires end { self.old.board.forward.side.end ≡ Forward }
        requires labels { All (IsLabelOf self.old.board.forward.side) forward.now }
        ensures { self.new ≡ self.old }
    {
        if self.workers.is_empty() {
            return Ok(());
        }
        let Some(place) = best_of(self.board.instance(), forward) else {
            return Ok(());
        };
        self.workers[0].publish(&forward[place])
    }
}

// Hands the lanes out and has what is ordered done in them, by the first worker alone or by all. It fails for want of memory alone.
fn set_to_work<'w, 'a, R: Threads + Wait + Sync, G: Gate + Sync>(
    rt: &R,
    workers: &mut Vec<Worker<'w, 'a, G>>,
    board: &Board<'a>,
    lanes: Vec<Lane<'a>>,
    order: &Order<'_>,
    alone: bool,
) -> Result<(), AllocError>
    requires some { 0 < length workers.old.items }
    requires workers { All (λ w. w.board ≡ board.now) workers.old.items }
    requires lanes { All (IsLaneOf board.now) lanes.items }
    requires order { IsOrderOf board.now order.now }
    ensures { workers.new.items ≡ workers.old.items }
{
    if alone {
        hand_to_first(workers, board, lanes)?;
        workers[0].obey(rt, order);
        return Ok(());
    }
    hand_out(workers, board, lanes)?;
    all_obey(rt, workers, order);
    Ok(())
}

// Has all workers do what is ordered, each in a thread of its own where one can be made.
fn all_obey<'w, 'a, R: Threads + Wait + Sync, G: Gate + Sync>(
    rt: &R,
    workers: &mut Vec<Worker<'w, 'a, G>>,
    order: &Order<'_>,
)
    requires { All (λ w. IsOrderOf w.board order.now) workers.old.items }
    ensures len { length workers.new.items ≡ length workers.old.items }
    ensures same { (k : ℕ) (d : WorkerName) → k < length workers.old.items
        → slice_index_or workers.new.items k d ≡ slice_index_or workers.old.items k d }
{
    let threads = workers.len().max(1);
    for_each_mut(
        rt,
        workers.as_mut_slice(),
        threads,
        &|_: usize, worker: &mut Worker<G>|
            requires { IsSync R.row × IsOrderOf worker.old.board order.now }
            ensures { worker.new ≡ worker.old }
        { worker.obey(rt, order) },
    );
}

// Takes the lanes from workers, in the order of their places.
fn collect<'w, 'a, G>(
    alloc: Global,
    workers: &mut Vec<Worker<'w, 'a, G>>,
    board: &Board<'a>,
) -> Result<Vec<Lane<'a>>, WorkEnd>
    requires { All (λ w. w.board ≡ board.now) workers.old.items }
    ensures workers { workers.new.items ≡ workers.old.items }
    ensures lanes { IfOk result (λ lanes. All (IsLaneOf board.now) lanes.items) }
{
    let mut lanes = Vec::new(alloc);
    let count = workers.len();
    for k in 0..count {
        workers[k].give_lanes(&mut lanes)?;
    }
    lanes.sort_by_key(|lane| lane.place())?;
    Ok(lanes)
}

// Hands the lanes out: the heaviest first, each to the worker with the least to do. It fails for want of memory alone.
fn hand_out<'w, 'a, G>(
    workers: &mut Vec<Worker<'w, 'a, G>>,
    board: &Board<'a>,
    lanes: Vec<Lane<'a>>,
) -> Result<(), AllocError>
    requires some { 0 < length workers.old.items }
    requires workers { All (λ w. w.board ≡ board.now) workers.old.items }
    requires lanes { All (IsLaneOf board.now) lanes.items }
    ensures { workers.new.items ≡ workers.old.items }
{
    let mut lanes = lanes;
    lanes.sort_by_key(|lane| lane.weight())?;
    let count = lanes.len();
    for _ in 0..count {
        let Some(lane) = lanes.pop() else {
            unreachable!()
        };
        let idlest = idlest_of(workers);
        workers[idlest].take(lane)?;
    }
    Ok(())
}

// Hands all lanes to the first worker. It fails for want of memory alone.
fn hand_to_first<'w, 'a, G>(
    workers: &mut Vec<Worker<'w, 'a, G>>,
    board: &Board<'a>,
    lanes: Vec<Lane<'a>>,
) -> Result<(), AllocError>
    requires some { 0 < length workers.old.items }
    requires workers { All (λ w. w.board ≡ board.now) workers.old.items }
    requires lanes { All (IsLaneOf board.now) lanes.items }
    ensures { workers.new.items ≡ workers.old.items }
{
    let mut lanes = lanes;
    let count = lanes.len();
    for _ in 0..count {
        let Some(lane) = lanes.pop() else {
            unreachable!()
        };
        workers[0].take(lane)?;
    }
    Ok(())
}

// The worker with the least to do, the first of such.
fn idlest_of<G>(workers: &[Worker<'_, '_, G>]) -> usize
    requires { 0 < length workers.now }
    ensures { result < length workers.now }
{
    let mut idlest = 0;
    for k in 0..workers.len() {
        if workers[k].load() < workers[idlest].load() {
            idlest = k;
        }
    }
    idlest
}

// Where the label stands that gains most, of those without open twins, the first of such.
fn best_of(instance: &Instance, labels: &[Label]) -> Option<usize>
    ensures { IfSome result (λ place. place < length labels.now) }
{
    let mut best = None;
    let mut most = 0;
    for k in 0..labels.len() {
        let gain = closed_gain(instance, &labels[k]);
        if gain > most {
            most = gain;
            best = Some(k);
        }
    }
    best
}

// What a label gains that has no open twins, in twentieths, and 0 for one that has.
fn closed_gain(instance: &Instance, label: &Label) -> u64 {
    if label.open().is_empty() {
        gain_of_strips(instance, label.visited().strips())
    } else {
        0
    }
}
