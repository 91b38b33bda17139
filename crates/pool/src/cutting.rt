//! What the best plan does to a label, and a label to the best plan.

ghost use Rattle.std.specs.Prelude.{◌≡◌, ◌<◌, None, true, false, length, OnOk, IfOk, IfErr};
ghost use Rattle.board.specs.Passes.{board_of, side_at};
ghost use Rattle.label_list.specs.Labels.{is_live};
ghost use Rattle.label.specs.Labels.{IsLabelOf};
ghost use Rattle.pool.specs.Acting.{Acts};
ghost use Rattle.pool.specs.Ends.{IsHalt};
ghost use Rattle.pool.specs.Seen.{IsSeen, state_seen};

use crate::gate::Gate;
use crate::post::Post;
use crate::tally::Tally;
use crate::work_end::WorkEnd;
use board::Pass;
use bucket::{CutAnswer, Id};
use label::{Label, bound, gain_of_strips};
use plan_check::{Published, earliest};
use std::sync::Wait;
use strip_model::End;

impl<'w, 'a, G: Gate> Post<'w, 'a, G> {
    /// Looks at the greatest gain that was offered, in twentieths, and offers a forward label that has no open twins as a plan,
    /// if it gains more. The greater of both gains.
    ///
    /// # Errors
    ///
    /// `Stopped` or `Memory`.
    pub(crate) fn publish(
        &self,
        pass: &mut Pass<'a>,
        tally: &mut Tally,
        label: &Label,
    ) -> Result<u64, WorkEnd>
        requires board { board_of pass.old ≡ self.now.board.now }
        requires label { IsLabelOf (side_at self.now.board.now label.now.end) label.now }
        ensures acts { Acts self.now.board.now None pass.old tally.old.spare pass.new tally.new.spare }
        ensures ending { IfErr result (IsHalt (G.stops self.now.gate.now) self.now.worker pass.new) }
    {
        self.ask(tally)?;
        let seen = self.board.see(pass);
        if label.end() != End::Forward || !label.open().is_empty() {
            return Ok(seen);
        }
        let gain = gain_of_strips(self.board.instance(), label.visited().strips());
        if gain <= seen {
            return Ok(seen);
        }
        self.offer(pass, tally, label)?;
        Ok(gain)
    }

    // Offers the plan of a label's path at earliest starts, if it is feasible.
    fn offer(&self, pass: &mut Pass<'a>, tally: &mut Tally, label: &Label) -> Result<(), WorkEnd>
        requires board { board_of pass.old ≡ self.now.board.now }
        ensures acts { Acts self.now.board.now None pass.old tally.old.spare pass.new tally.new.spare }
        ensures ending { IfErr result (IsHalt (G.stops self.now.gate.now) self.now.worker pass.new) }
    {
        let instance = self.board.instance();
        let Some(plan) = earliest(self.alloc, instance, label.path())? else {
            return Ok(());
        };
        let Ok(plan) = Published::new(instance, plan) else {
            return Ok(());
        };
        self.ask(tally)?;
        self.board.offer(pass, plan);
        Ok(())
    }

    /// Cuts a label whose bound doesn't exceed a value, in twentieths. Whether it isn't live then.
    ///
    /// # Errors
    ///
    /// `Stopped` or `TurnSpent`.
    pub(crate) fn cut<R: Wait>(
        &self,
        rt: &R,
        pass: &mut Pass<'a>,
        tally: &mut Tally,
        id: Id,
        label: &Label,
        value: u64,
    ) -> Result<bool, WorkEnd>
        requires board { board_of pass.old ≡ self.now.board.now }
        requires label { IsLabelOf (side_at self.now.board.now label.now.end) label.now }
        requires seen { IsSeen pass.old id }
        ensures acts { Acts self.now.board.now None pass.old tally.old.spare pass.new tally.new.spare }
        ensures dead { IfOk result (λ dead. dead ≡ true → is_live (state_seen pass.new id) ≡ false) }
        ensures ending { IfErr result (IsHalt (G.stops self.now.gate.now) self.now.worker pass.new) }
    {
        let side = self.board.side(label.end());
        if bound(side, label) > value {
            return Ok(false);
        }
        self.ask(tally)?;
        match self.board.cut(rt, pass, id) {
            Ok(CutAnswer::Done) => Ok(true),
            Ok(CutAnswer::Gone { .. }) => Ok(true),
            Ok(CutAnswer::Higher { .. }) => Ok(false),
            Err(spent) => Err(WorkEnd::TurnSpent { count: spent.count }),
        }
    }
}
