//! What a worker does in one of its lanes.

ghost use Rattle.std.specs.Prelude.{◌≡◌, ◌<◌, None, length, IfOk};
ghost use Rattle.std.specs.List.{All};
ghost use Rattle.board.specs.Passes.{board_of, side_at};
ghost use Rattle.bucket.specs.declared.limits.TheConstants.{BUCKETS};
ghost use Rattle.label.specs.Labels.{IsLabelOf};
ghost use Rattle.pool.specs.Acting.{Acts};
ghost use Rattle.pool.specs.Lanes.{IsLaneOf, IsOrderOf};
ghost use Rattle.strip_model.specs.Directed.{strip_of};

use crate::extensions::extensions;
use crate::gate::Gate;
use crate::lane::{Lane, Waiting};
use crate::order::Order;
use crate::post::Post;
use crate::tally::Tally;
use crate::work_end::WorkEnd;
use board::Pass;
use bucket::{BUCKETS, CutAnswer, Id};
use label::{Label, start};
use std::sync::Wait;
use strip_model::{Directed, End};

impl<'w, 'a, G: Gate> Post<'w, 'a, G> {
    /// Does what is ordered, in one lane.
    ///
    /// # Errors
    ///
    /// `Stopped`, `Spent`, `TurnSpent`, `Crowded` or `Memory`.
    pub(crate) fn follow<R: Wait>(
        &self,
        rt: &R,
        pass: &mut Pass<'a>,
        tally: &mut Tally,
        lane: &mut Lane<'a>,
        order: &Order<'_>,
    ) -> Result<(), WorkEnd>
        requires board { board_of pass.old ≡ self.now.board.now }
        requires lane { IsLaneOf self.now.board.now lane.old }
        requires order { IsOrderOf self.now.board.now order.now }
        ensures acts { Acts self.now.board.now None pass.old tally.old.spare pass.new tally.new.spare }
        ensures lane { lane.new ≡ lane.old }
    {
        match (order, lane.side().end()) {
            (Order::Ready { forward, .. }, End::Forward) => {
                self.ready(rt, pass, tally, lane, *forward)
            }
            (Order::Ready { backward, .. }, End::Backward) => {
                self.ready(rt, pass, tally, lane, *backward)
            }
            (Order::Extend { forward, .. }, End::Forward) => {
                self.extend_into(rt, pass, tally, lane, forward)
            }
            (Order::Extend { backward, .. }, End::Backward) => {
                self.extend_into(rt, pass, tally, lane, backward)
            }
        }
    }

    // Readies the labels that wait in a lane with a last start below the limit, in ticks.
    fn ready<R: Wait>(
        &self,
        rt: &R,
        pass: &mut Pass<'a>,
        tally: &mut Tally,
        lane: &mut Lane<'a>,
        limit: u32,
    ) -> Result<(), WorkEnd>
        requires board { board_of pass.old ≡ self.now.board.now }
        ensures acts { Acts self.now.board.now None pass.old tally.old.spare pass.new tally.new.spare }
        ensures lane { lane.new ≡ lane.old }
    {
        let mut waiting = lane.take_waiting(self.alloc);
        let count = waiting.len();
        for _ in 0..count {
            let Some(one) = waiting.pop() else {
                unreachable!()
            };
            self.ready_one(rt, pass, tally, lane, limit, one)?;
        }
        Ok(())
    }

    // Readies a label, unless it is to wait on.
    fn ready_one<R: Wait>(
        &self,
        rt: &R,
        pass: &mut Pass<'a>,
        tally: &mut Tally,
        lane: &mut Lane<'a>,
        limit: u32,
        one: Waiting,
    ) -> Result<(), WorkEnd>
        requires board { board_of pass.old ≡ self.now.board.now }
        requires label { IsLabelOf lane.old.side one.label }
        ensures acts { Acts self.now.board.now None pass.old tally.old.spare pass.new tally.new.spare }
        ensures lane { lane.new ≡ lane.old }
    {
        if one.label.start_of_last() >= limit {
            lane.wait_on(one)?;
            return Ok(());
        }
        let Waiting { index, label } = one;
        if self.stays(rt, pass, tally, lane.id(index))? {
            lane.make_ready(label)?;
        }
        Ok(())
    }

    // Cuts a label if its bound doesn't exceed the best gain that was offered. Whether it lives on.
    fn stays<R: Wait>(
        &self,
        rt: &R,
        pass: &mut Pass<'a>,
        tally: &mut Tally,
        id: Id,
    ) -> Result<bool, WorkEnd>
        requires board { board_of pass.old ≡ self.now.board.now }
        ensures { Acts self.now.board.now None pass.old tally.old.spare pass.new tally.new.spare }
    {
        self.ask(tally)?;
        match self.board.cut(rt, pass, id) {
            Ok(CutAnswer::Higher { .. }) => Ok(true),
            Ok(CutAnswer::Done) => Ok(false),
            Ok(CutAnswer::Gone { .. }) => Ok(false),
            Err(spent) => Err(WorkEnd::TurnSpent { count: spent.count }),
        }
    }

    // Inserts the extensions of these labels that fall into a lane, the least last start first.
    fn extend_into<R: Wait>(
        &self,
        rt: &R,
        pass: &mut Pass<'a>,
        tally: &mut Tally,
        lane: &mut Lane<'a>,
        labels: &[Label],
    ) -> Result<(), WorkEnd>
        requires board { board_of pass.old ≡ self.now.board.now }
        requires lane { IsLaneOf self.now.board.now lane.old }
        requires labels { All (IsLabelOf lane.old.side) labels.now }
        ensures acts { Acts self.now.board.now None pass.old tally.old.spare pass.new tally.new.spare }
        ensures lane { lane.new ≡ lane.old }
    {
        let mut fresh = extensions(self.alloc, lane.side(), lane.number(), labels)?;
        let count = fresh.len();
        for _ in 0..count {
            let Some(label) = fresh.pop() else {
                unreachable!()
            };
            self.insert_into(rt, pass, tally, lane, label)?;
        }
        Ok(())
    }

    /// Inserts the label paths of one directed strip that fall into a lane.
    ///
    /// # Errors
    ///
    /// `Stopped`, `Spent`, `TurnSpent`, `Crowded` or `Memory`; then the rest isn't inserted.
    pub(crate) fn plant_into<R: Wait>(
        &self,
        rt: &R,
        pass: &mut Pass<'a>,
        tally: &mut Tally,
        lane: &mut Lane<'a>,
    ) -> Result<(), WorkEnd>
        requires board { board_of pass.old ≡ self.now.board.now }
        requires lane { IsLaneOf self.now.board.now lane.old }
        ensures acts { Acts self.now.board.now None pass.old tally.old.spare pass.new tally.new.spare }
        ensures lane { lane.new ≡ lane.old }
    {
        let count = 2 * lane.side().instance().strips().len() as u16;
        for turn in 0..=count / BUCKETS {
            let y = turn * BUCKETS + u16::from(lane.number());
            if y < count {
                self.plant_one(rt, pass, tally, lane, Directed(y))?;
            }
        }
        Ok(())
    }

    // Inserts the label path of one directed strip, if it is one.
    fn plant_one<R: Wait>(
        &self,
        rt: &R,
        pass: &mut Pass<'a>,
        tally: &mut Tally,
        lane: &mut Lane<'a>,
        y: Directed,
    ) -> Result<(), WorkEnd>
        requires board { board_of pass.old ≡ self.now.board.now }
        requires lane { IsLaneOf self.now.board.now lane.old }
        requires exists { strip_of y < length lane.old.side.instance.strips }
        ensures acts { Acts self.now.board.now None pass.old tally.old.spare pass.new tally.new.spare }
        ensures lane { lane.new ≡ lane.old }
    {
        match start(self.alloc, lane.side(), y)? {
            None => Ok(()),
            Some(label) => self.insert_into(rt, pass, tally, lane, label),
        }
    }

    // Draws a number, unless one is at hand, and inserts a label of a lane, in which it waits if it lives and its bound exceeds
    // the best gain that was offered.
    fn insert_into<R: Wait>(
        &self,
        rt: &R,
        pass: &mut Pass<'a>,
        tally: &mut Tally,
        lane: &mut Lane<'a>,
        label: Label,
    ) -> Result<(), WorkEnd>
        requires board { board_of pass.old ≡ self.now.board.now }
        requires lane { IsLaneOf self.now.board.now lane.old }
        requires label { IsLabelOf lane.old.side label }
        ensures acts { Acts self.now.board.now None pass.old tally.old.spare pass.new tally.new.spare }
        ensures lane { lane.new ≡ lane.old }
    {
        self.draw(pass, tally)?;
        let copy = label.copy(self.alloc)?;
        let Some(id) = self.insert(rt, pass, tally, label)? else {
            return Ok(());
        };
        if self.stays(rt, pass, tally, id)? {
            lane.wait(id.index, copy)?;
        }
        Ok(())
    }
}
