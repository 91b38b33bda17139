//! One worker: round by round an id of each queue, and all that is to be done about the label that it names.

ghost use Rattle.std.specs.Prelude.{◌≡◌, Option, None, Some, true, false, OnOk, OnErr, IfOk, IfErr};
ghost use Rattle.board.specs.Passes.{board_of, side_at};
ghost use Rattle.board.specs.Sharing.{AreSidesOf};
ghost use Rattle.label.specs.Labels.{IsLabelOf};
ghost use Rattle.pool.specs.Acting.{Works, Acts};
ghost use Rattle.pool.specs.Counts.{DrawsFew, InsertsFew};
ghost use Rattle.pool.specs.Ends.{IsEnd, IsHalt, GivesNone, FindsNone};
ghost use Rattle.pool.specs.Growth.{Grows, IsLawful};
ghost use Rattle.pool.specs.Handling.{Handles, Leaves, IsLastGiven};
ghost use Rattle.pool.specs.Seen.{IsSeen, IsSettled, IsDone, path_seen};

use crate::gate::Gate;
use crate::post::Post;
use crate::tally::Tally;
use crate::work_end::WorkEnd;
use board::{Board, Pass, TakeRefusal};
use bucket::{Id, Taken};
use label::Label;
use std::alloc::Global;
use std::sync::Wait;
use strip_model::End;

/// Works on a board with a pass of it, until it ends: takes the labels whose ids the queues give, from both sides by turns, offers
/// forward labels without open twins as plans, cuts labels that gain no more than the best plan, and inserts all extensions of the
/// others, each after a number was drawn, which is kept for the next one where the label is there already. The ids of those that
/// live are pushed. The gate is asked before each call on the board, with the worker's number. It may wait for turns.
pub fn work<'a, R: Wait, G: Gate>(
    rt: &R,
    alloc: Global,
    board: &Board<'a>,
    pass: &mut Pass<'a>,
    gate: &G,
    worker: u32,
) -> WorkEnd
    requires board { board_of pass.old ≡ board.now }
    ensures grows { Grows pass.old pass.new }
    ensures lawful { IsLawful board.now pass.old pass.new }
    ensures weight { pass.new.weight ≡ pass.old.weight }
    ensures draws { DrawsFew pass.old pass.new }
    ensures inserts { InsertsFew pass.old pass.new }
    ensures leaves { Leaves board.now pass.old pass.new result }
    ensures ending { IsEnd (G.stops gate.now) worker pass.old pass.new result }
{
    // For its clause: the sides are those of the instance.
    let _ = board.instance();
    let post = Post {
        alloc,
        board,
        gate,
        worker,
    };
    let mut tally = Tally {
        step: 0,
        spare: false,
    };
    for _ in rt.forever() {
        match post.round(rt, pass, &mut tally) {
            Ok(true) => {}
            Ok(false) => return WorkEnd::Empty,
            Err(end) => return end,
        }
    }
    unreachable!()
}

impl<'w, 'a, G: Gate> Post<'w, 'a, G> {
    // One id of each queue. Whether there was any.
    fn round<R: Wait>(
        &self,
        rt: &R,
        pass: &mut Pass<'a>,
        tally: &mut Tally,
    ) -> Result<bool, WorkEnd>
        requires board { board_of pass.old ≡ self.now.board.now }
        requires sides { AreSidesOf self.now.board.now.instance self.now.board.now.forward.side self.now.board.now.backward.side }
        ensures works { OnOk result (Works self.now.board.now None pass.old tally.old.spare pass.new tally.new.spare) }
        ensures refused { OnErr result ((last : Option Id) × IsLastGiven pass.old pass.new last × Works self.now.board.now last pass.old tally.old.spare pass.new tally.new.spare) }
        ensures empty { IfOk result (λ any. any ≡ false → FindsNone pass.old pass.new) }
        ensures ending { IfErr result (IsHalt (G.stops self.now.gate.now) self.now.worker pass.new) }
    {
        let forward = self.one_of(rt, pass, tally, End::Forward)?;
        let backward = self.one_of(rt, pass, tally, End::Backward)?;
        Ok(forward || backward)
    }

    // The next id of a queue, with all that is done about it. Whether there was one.
    fn one_of<R: Wait>(
        &self,
        rt: &R,
        pass: &mut Pass<'a>,
        tally: &mut Tally,
        end: End,
    ) -> Result<bool, WorkEnd>
        requires board { board_of pass.old ≡ self.now.board.now }
        requires sides { AreSidesOf self.now.board.now.instance self.now.board.now.forward.side self.now.board.now.backward.side }
        ensures works { OnOk result (Works self.now.board.now None pass.old tally.old.spare pass.new tally.new.spare) }
        ensures refused { OnErr result ((last : Option Id) × IsLastGiven pass.old pass.new last × Works self.now.board.now last pass.old tally.old.spare pass.new tally.new.spare) }
        ensures empty { IfOk result (λ any. any ≡ false → GivesNone end pass.old pass.new) }
        ensures ending { IfErr result (IsHalt (G.stops self.now.gate.now) self.now.worker pass.new) }
    {
        self.ask(tally)?;
        match self.board.next(rt, pass, end) {
            None => Ok(false),
            Some(id) => {
                self.handle(rt, pass, tally, id)?;
                Ok(true)
            }
        }
    }

    // Takes the label with an id, and does all that is to be done about it.
    fn handle<R: Wait>(
        &self,
        rt: &R,
        pass: &mut Pass<'a>,
        tally: &mut Tally,
        id: Id,
    ) -> Result<(), WorkEnd>
        requires board { board_of pass.old ≡ self.now.board.now }
        requires sides { AreSidesOf self.now.board.now.instance self.now.board.now.forward.side self.now.board.now.backward.side }
        ensures acts { Acts self.now.board.now (Some id) pass.old tally.old.spare pass.new tally.new.spare }
        ensures settled { OnOk result (IsSettled pass.old pass.new id) }
        ensures handles { OnOk result (Handles self.now.board.now None pass.old pass.new) }
        ensures ending { IfErr result (IsHalt (G.stops self.now.gate.now) self.now.worker pass.new) }
    {
        self.ask(tally)?;
        match self.board.take(rt, pass, id) {
            Ok(Taken::Label(label)) => self.treat(rt, pass, tally, id, &label),
            Ok(Taken::Gone { .. }) => Ok(()),
            Err(TakeRefusal::Turn(spent)) => Err(WorkEnd::TurnSpent { count: spent.count }),
            Err(TakeRefusal::Memory) => Err(WorkEnd::Memory),
        }
    }

    // Does all that is to be done about a label that was taken.
    fn treat<R: Wait>(
        &self,
        rt: &R,
        pass: &mut Pass<'a>,
        tally: &mut Tally,
        id: Id,
        label: &Label,
    ) -> Result<(), WorkEnd>
        requires board { board_of pass.old ≡ self.now.board.now }
        requires label { IsLabelOf (side_at self.now.board.now label.now.end) label.now }
        requires end { label.now.end ≡ id.end }
        requires seen { IsSeen pass.old id }
        requires path { path_seen pass.old id ≡ label.now.path.items }
        ensures acts { Acts self.now.board.now None pass.old tally.old.spare pass.new tally.new.spare }
        ensures done { OnOk result (IsDone self.now.board.now pass.new id) }
        ensures ending { IfErr result (IsHalt (G.stops self.now.gate.now) self.now.worker pass.new) }
    {
        let value = self.publish(pass, tally, label)?;
        if self.cut(rt, pass, tally, id, label, value)? {
            return Ok(());
        }
        self.extend_all(rt, pass, tally, label)
    }
}
