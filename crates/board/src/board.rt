//! The board: its calls, each of which makes one call of one part, for the end that it is about.

ghost use Rattle.std.specs.Prelude.{◌≡◌, ◌≤◌, IfOk, OnOk, OnErr, IfErr};
ghost use Rattle.board.specs.Passes.{side_at, board_of, gain, HalfChanged, LockChanged};
ghost use Rattle.board.specs.Queues.{IsPushReply, IsNextReply, IsNext};
ghost use Rattle.board.specs.Shares.{Seeing, Offering};
ghost use Rattle.board.specs.Sharing.{first_board_pass, first_half, pass_kept, pass_split_off, AreSidesOf, IsJoined, IsClosed};
ghost use Rattle.board.specs.Turns.{IsInsertReply, IsTakeReply, IsCutReply, Cutting};
ghost use Rattle.board.specs.Drawing.{IsDrawn};
ghost use Rattle.pass_weight.specs.declared.whole_weight.TheConstants.{WHOLE_WEIGHT};
ghost use Rattle.bucket.specs.Histories.{bucket_of};
ghost use Rattle.shared_budget.specs.declared.draws.TheConstants.{MOST_BUDGET};
ghost use Rattle.shared_budget.specs.Calls.{first_drawer};
ghost use Rattle.incumbent.specs.Peak.{IsShareOf};
ghost use Rattle.incumbent.specs.Share.{plan_of, seen_by, weight_of};
ghost use Rattle.label.specs.Labels.{IsLabelOf};

use crate::asked::Asked;
use crate::half::Half;
use crate::half_pass::HalfToken;
use crate::pass::Pass;
use crate::refusal::{BoardRefusal, Full, TakeRefusal};
use crate::replies::{insert_reply, number_of, take_reply};
use crate::turns::{CutCall, InsertCall, TakeCall};
use bucket::{BUCKETS, CutAnswer, Id, Inserted, State, Taken, Trace};
use incumbent::{Offered, Peak, Share};
use label::{Label, Side};
use plan_check::Published;
use shared_budget::{DrawSpent, Drawer, Draws};
use std::alloc::{AllocError, Global};
use std::marker::Model;
use std::sync::Wait;
use strip_model::{End, Instance};
use turn_lock::TurnSpent;

/// All that workers share: for each end the buckets of that side under their locks and a queue of ids, the incumbent, and the
/// word of drawn numbers. Threads share it by reference, and each calls it with a [`Pass`] of its own.
///
/// Contracts see its instance, its sides, and the names of its parts, which tell boards apart. It can't be dropped:
/// [`Board::close`] takes it apart.
pub struct Board<'a> {
    alloc: Global,
    instance: &'a Instance,
    forward: Half<'a>,
    backward: Half<'a>,
    peak: Peak,
    draws: Draws,
}

impl<'a> Model for Board<'a> {
    ghost use Rattle.board.specs.Passes.{BoardName};
    ghost use Rattle.board.specs.Sharing.{AreSidesOf};

    ghost Value = { BoardName };

    ghost view = { λ b. record { instance = b.instance.now; forward = b.forward; backward = b.backward; peak = b.peak.table.shared.table_id; draws = b.draws } };

    ghost invariant = { λ b. AreSidesOf b.instance.now b.forward.side b.backward.side };
}

impl<'a> Board<'a> {
    /// A board of these two sides with nothing on it but a plan, and its first pass, which has the whole weight,
    /// [`WHOLE_WEIGHT`](crate::WHOLE_WEIGHT), and has offered that plan. Draws of numbers from `budget` on are refused.
    ///
    /// `AllocError` where memory ran out; then `first` is dropped.
    pub fn new(
        alloc: Global,
        instance: &'a Instance,
        forward: &'a Side,
        backward: &'a Side,
        first: Published<'a>,
        budget: u64,
    ) -> Result<(Board<'a>, Pass<'a>), AllocError>
        requires plan { first.instance ≡ instance.now }
        requires sides { AreSidesOf instance.now forward.now backward.now }
        requires some_budget { 1 ≤ budget }
        requires bounded { budget ≤ MOST_BUDGET }
        ensures instance { IfOk result (λ made. made.0.instance ≡ instance.entry.now) }
        ensures forward { IfOk result (λ made. made.0.forward.side ≡ forward.entry.now) }
        ensures backward { IfOk result (λ made. made.0.backward.side ≡ backward.entry.now) }
        ensures pass { IfOk result (λ made. made.1 ≡ first_board_pass made.0 first.entry budget) }
    {
        let asked = Asked::new(alloc)?;
        let (peak, share, draws, drawer) = new_words(alloc, first, budget)?;
        match new_halves(alloc, forward, backward) {
            Ok(((forward, forward_pass), (backward, backward_pass))) => {
                let board = Board {
                    alloc,
                    instance,
                    forward,
                    backward,
                    peak,
                    draws,
                };
                let pass = Pass {
                    forward: forward_pass,
                    backward: backward_pass,
                    share,
                    drawer,
                    asked,
                };
                Ok((board, pass))
            }
            Err(_) => {
                drop(peak.close(share));
                draws.close(drawer);
                Err(AllocError)
            }
        }
    }

    /// The instance. The sides are its own.
    pub fn instance(&self) -> &'a Instance
        ensures value { result.now ≡ self.now.instance }
        ensures sides { AreSidesOf self.now.instance self.now.forward.side self.now.backward.side }
    {
        self.instance
    }

    /// The side at an end.
    pub fn side(&self, end: End) -> &'a Side
        ensures { result.now ≡ side_at self.now end }
    {
        match end {
            End::Forward => self.forward.side(),
            End::Backward => self.backward.side(),
        }
    }

    /// Inserts a label of the board's side of its end into its bucket, in one turn, and answers its id and what became of it, as
    /// the bucket does. It may wait for the turn.
    ///
    /// # Errors
    ///
    /// `Turn` exactly where the pass has made `MOST_TURNS` turns of that bucket, which then isn't looked at. Else `Present`,
    /// `Crowded` and `Memory` as the bucket answers them. The turn is made and given back with each of these three, and no entry
    /// is made.
    pub fn insert<R: Wait>(
        &self,
        rt: &R,
        pass: &mut Pass<'a>,
        label: Label,
    ) -> Result<(Id, Inserted), BoardRefusal>
        requires board { board_of pass.old ≡ self.now }
        requires label { IsLabelOf (side_at self.now label.end) label }
        ensures { LockChanged pass.old pass.new label.end (bucket_of label.path.items)
            (IsInsertReply (side_at self.now label.end) label.end (bucket_of label.path.items) label.path.items result) }
    {
        let end = label.end();
        let number = number_of(self.side(end), &label);
        let call = InsertCall { label };
        let answer = match end {
            End::Forward => self.forward.turn(rt, &mut pass.forward, number, call),
            End::Backward => self.backward.turn(rt, &mut pass.backward, number, call),
        };
        insert_reply(end, number, answer)
    }

    /// Takes the label with an id, in one turn of its bucket: a copy of it where it waits, and else its state. An id that isn't
    /// there is answered as `Gone` with the state `Waiting`. It may wait for the turn.
    ///
    /// # Errors
    ///
    /// `Turn` exactly where there is such a bucket and the pass has made `MOST_TURNS` turns of it, which then isn't looked at;
    /// `Memory` for want of memory alone. No entry is made.
    pub fn take<R: Wait>(&self, rt: &R, pass: &mut Pass<'a>, id: Id) -> Result<Taken, TakeRefusal>
        requires board { board_of pass.old ≡ self.now }
        ensures { IsTakeReply self.now id result pass.old pass.new }
    {
        if u16::from(id.bucket) >= BUCKETS {
            return Ok(Taken::Gone {
                state: State::Waiting,
            });
        }
        let call = TakeCall { id: id.index };
        let answer = match id.end {
            End::Forward => self.forward.turn(rt, &mut pass.forward, id.bucket, call),
            End::Backward => self.backward.turn(rt, &mut pass.backward, id.bucket, call),
        };
        take_reply(answer)
    }

    /// Looks at the incumbent, and then cuts the label with an id, in one turn of its bucket, if it is live and its bound is at
    /// most the gain that was seen, in twentieths. An id that isn't there is answered as `Gone` with the state `Waiting`. It may
    /// wait for the turn, and takes no memory.
    ///
    /// # Errors
    ///
    /// [`TurnSpent`] exactly where there is such a bucket and the pass has made `MOST_TURNS` turns of it, which then isn't looked
    /// at.
    pub fn cut<R: Wait>(&self, rt: &R, pass: &mut Pass<'a>, id: Id) -> Result<CutAnswer, TurnSpent>
        requires board { board_of pass.old ≡ self.now }
        ensures { Cutting self.now id result pass.old pass.new }
    {
        let value = self.see(pass);
        self.cut_at(rt, pass, id, value)
    }

    // Cuts the label with an id at a value.
    fn cut_at<R: Wait>(
        &self,
        rt: &R,
        pass: &mut Pass<'a>,
        id: Id,
        value: u64,
    ) -> Result<CutAnswer, TurnSpent>
        requires board { board_of pass.old ≡ self.now }
        ensures { IsCutReply self.now id value result pass.old pass.new }
    {
        if u16::from(id.bucket) >= BUCKETS {
            return Ok(CutAnswer::Gone {
                state: State::Waiting,
            });
        }
        let call = CutCall {
            id: id.index,
            value,
        };
        match id.end {
            End::Forward => self.forward.turn(rt, &mut pass.forward, id.bucket, call),
            End::Backward => self.backward.turn(rt, &mut pass.backward, id.bucket, call),
        }
    }

    /// The greatest gain that any pass has offered, in twentieths, at a moment of the call. It waits for nobody.
    pub fn see(&self, pass: &mut Pass<'a>) -> u64
        requires board { board_of pass.old ≡ self.now }
        ensures { Seeing pass.old pass.new result }
    {
        self.peak.see(&mut pass.share)
    }

    /// Offers a plan of the board's instance. It waits for nobody.
    pub fn offer(&self, pass: &mut Pass<'a>, plan: Published<'a>) -> Offered
        requires board { board_of pass.old ≡ self.now }
        requires plan { plan.instance ≡ self.now.instance }
        ensures { Offering pass.old pass.new plan.entry result }
    {
        self.peak.offer(&mut pass.share, plan)
    }

    /// Puts an id at the back of the queue of its end.
    ///
    /// # Errors
    ///
    /// [`Full`], with the id, only where that queue held [`QUEUE_IDS`](crate::QUEUE_IDS) ids at a moment of the call.
    pub fn push<R: Wait>(&self, rt: &R, pass: &mut Pass<'a>, id: Id) -> Result<(), Full>
        requires board { board_of pass.old ≡ self.now }
        ensures { HalfChanged pass.old pass.new id.end (λ old new. IsPushReply old new id result) }
    {
        match id.end {
            End::Forward => self.forward.push(rt, &mut pass.forward, id),
            End::Backward => self.backward.push(rt, &mut pass.backward, id),
        }
    }

    /// The id at the front of the queue of an end, which leaves it. `None` only where that queue was empty at a moment of the
    /// call. The pass keeps the reply.
    pub fn next<R: Wait>(&self, rt: &R, pass: &mut Pass<'a>, end: End) -> Option<Id>
        requires board { board_of pass.old ≡ self.now }
        ensures { IsNext end pass.old pass.new result }
    {
        let id = self.next_of(rt, pass, end);
        pass.hear(end, id);
        id
    }

    // The id at the front of the queue of an end, whose reply isn't kept yet.
    fn next_of<R: Wait>(&self, rt: &R, pass: &mut Pass<'a>, end: End) -> Option<Id>
        requires board { board_of pass.old ≡ self.now }
        ensures { HalfChanged pass.old pass.new end (λ old new. IsNextReply old new result) }
    {
        match end {
            End::Forward => self.forward.next(rt, &mut pass.forward),
            End::Backward => self.backward.next(rt, &mut pass.backward),
        }
    }

    /// Draws a number. It waits for nobody.
    ///
    /// # Errors
    ///
    /// [`DrawSpent`] exactly where the pass was exhausted before, and then nothing is drawn, or became so, since the number that
    /// it drew isn't below the budget. The pass keeps that number.
    pub fn draw(&self, pass: &mut Pass<'a>) -> Result<u64, DrawSpent>
        requires board { board_of pass.old ≡ self.now }
        ensures { IsDrawn pass.old pass.new result }
    {
        self.draws.draw(&mut pass.drawer)
    }

    /// Splits a pass off for another thread, which begins with the plan `first`. It has seen what this one has, has made no entry
    /// and no turn, has drawn nothing and had no reply, is exhausted where this one is, and takes half of the weight, rounded
    /// down.
    ///
    /// `AllocError` where memory ran out; then `first` is dropped, and the pass is as it was.
    pub fn split(&self, pass: &mut Pass<'a>, first: Published<'a>) -> Result<Pass<'a>, AllocError>
        requires board { board_of pass.old ≡ self.now }
        requires plan { first.instance ≡ self.now.instance }
        requires seen { gain first ≤ pass.old.seen }
        requires weight { 2 ≤ pass.old.weight }
        ensures new { IfOk result (λ new. new ≡ pass_split_off pass.old first.entry) }
        ensures old { OnOk result (pass.new ≡ pass_kept pass.old) }
        ensures refused { OnErr result (pass.new ≡ pass.old) }
    {
        let asked = Asked::new(self.alloc)?;
        let forward_room = Vec::with_capacity(self.alloc, usize::from(BUCKETS))?;
        let Ok(backward_room) = Vec::with_capacity(self.alloc, usize::from(BUCKETS)) else {
            forward_room.destroy_empty();
            return Err(AllocError);
        };
        Ok(Pass {
            forward: self.forward.split(&mut pass.forward, forward_room),
            backward: self.backward.split(&mut pass.backward, backward_room),
            share: self.peak.split(&mut pass.share, first),
            drawer: self.draws.split(&mut pass.drawer),
            asked,
        })
    }

    /// Joins a pass into another, part by part. It waits for nobody and takes no memory.
    pub fn join(&self, into: &mut Pass<'a>, other: Pass<'a>)
        requires board { board_of into.old ≡ self.now }
        requires other { board_of other ≡ self.now }
        ensures { IsJoined into.old other.entry into.new }
    {
        let Pass {
            forward,
            backward,
            share,
            drawer,
            asked: _,
        } = other;
        self.forward.join(&mut into.forward, forward);
        self.backward.join(&mut into.backward, backward);
        self.peak.join(&mut into.share, share);
        self.draws.join(&mut into.drawer, drawer);
    }

    /// Ends the board and its last pass, which has the whole weight, so every other one was joined into it. It waits for nobody
    /// and takes no memory.
    pub fn close(self, pass: Pass<'a>) -> Trace<'a>
        requires board { board_of pass ≡ self }
        requires whole { pass.weight ≡ WHOLE_WEIGHT }
        ensures { IsClosed self.entry pass.entry result }
    {
        let Board {
            alloc: _,
            instance: _,
            forward,
            backward,
            peak,
            draws,
        } = self;
        let Pass {
            forward: forward_pass,
            backward: backward_pass,
            share,
            drawer,
            asked: _,
        } = pass;
        draws.close(drawer);
        Trace {
            plan: peak.close(share),
            forward: forward.close(forward_pass),
            backward: backward.close(backward_pass),
        }
    }
}

// The incumbent and the word of drawn numbers.
fn new_words<'a>(
    alloc: Global,
    first: Published<'a>,
    budget: u64,
) -> Result<(Peak, Share<Published<'a>>, Draws, Drawer), AllocError>
    requires some_budget { 1 ≤ budget }
    requires bounded { budget ≤ MOST_BUDGET }
    ensures own { IfOk result (λ made. IsShareOf made.0 made.1) }
    ensures plan { IfOk result (λ made. plan_of made.1 ≡ first.entry) }
    ensures seen { IfOk result (λ made. seen_by made.1 ≡ gain first.entry) }
    ensures weight { IfOk result (λ made. weight_of made.1 ≡ WHOLE_WEIGHT) }
    ensures drawer { IfOk result (λ made. made.3 ≡ first_drawer made.2 budget) }
{
    let (peak, share) = Peak::new(alloc, first)?;
    match Draws::new(alloc, budget) {
        Ok((draws, drawer)) => Ok((peak, share, draws, drawer)),
        Err(_) => {
            drop(peak.close(share));
            Err(AllocError)
        }
    }
}

// Both halves of a board, and their first passes.
fn new_halves<'a>(
    alloc: Global,
    forward: &'a Side,
    backward: &'a Side,
) -> Result<((Half<'a>, HalfToken<'a>), (Half<'a>, HalfToken<'a>)), AllocError>
    ensures forward { IfOk result (λ made. made.0.0.side ≡ forward.entry.now) }
    ensures backward { IfOk result (λ made. made.1.0.side ≡ backward.entry.now) }
    ensures forward_pass { IfOk result (λ made. made.0.1 ≡ first_half made.0.0) }
    ensures backward_pass { IfOk result (λ made. made.1.1 ≡ first_half made.1.0) }
{
    let (one, one_pass) = Half::new(alloc, forward)?;
    match Half::new(alloc, backward) {
        Ok(other) => Ok(((one, one_pass), other)),
        Err(_) => {
            drop(one.close(one_pass));
            Err(AllocError)
        }
    }
}
