//! A worker's post: single calls on the board, each after the gate was asked.

ghost use Rattle.std.specs.Prelude.{◌≡◌, ℕ, None, true, OnOk, OnErr, IfOk, IfErr};
ghost use Rattle.board.specs.Passes.{BoardPass, board_of, side_at};
ghost use Rattle.label.specs.Labels.{IsLabelOf};
ghost use Rattle.pool.specs.Acting.{Acts};
ghost use Rattle.pool.specs.Ends.{IsHalt};
ghost use Rattle.pool.specs.Seen.{IsPathSeen};

use crate::gate::{Gate, Go};
use crate::tally::Tally;
use crate::work_end::WorkEnd;
use board::{Board, BoardRefusal, Pass};
use bucket::{Id, Inserted};
use label::Label;
use std::alloc::Global;
use std::sync::Wait;

/// Where a worker works: the board, the gate, and the worker's number.
#[derive(Drop)]
pub(crate) struct Post<'w, 'a, G> {
    pub(crate) alloc: Global,
    pub(crate) board: &'w Board<'a>,
    pub(crate) gate: &'w G,
    pub(crate) worker: u32,
}

impl<'w, 'a, G: Gate> Post<'w, 'a, G> {
    /// Asks the gate.
    ///
    /// # Errors
    ///
    /// `Stopped`, where it says so.
    pub(crate) fn ask(&self, tally: &mut Tally) -> Result<(), WorkEnd>
        ensures spare { tally.new.spare ≡ tally.old.spare }
        ensures ending { (p : BoardPass) → IfErr result (IsHalt (G.stops self.now.gate.now) self.now.worker p) }
    {
        let go = self.gate.at(self.worker, tally.step);
        tally.step = tally.step.saturating_add(1);
        match go {
            Go::On => Ok(()),
            Go::Stop => Err(WorkEnd::Stopped),
        }
    }

    /// Has a number at hand: draws one, where there is none.
    ///
    /// # Errors
    ///
    /// `Stopped`, or `Spent`.
    pub(crate) fn draw(&self, pass: &mut Pass<'a>, tally: &mut Tally) -> Result<(), WorkEnd>
        requires board { board_of pass.old ≡ self.now.board.now }
        ensures acts { Acts self.now.board.now None pass.old tally.old.spare pass.new tally.new.spare }
        ensures spare { OnOk result (tally.new.spare ≡ true) }
        ensures ending { IfErr result (IsHalt (G.stops self.now.gate.now) self.now.worker pass.new) }
    {
        if tally.spare {
            return Ok(());
        }
        self.ask(tally)?;
        match self.board.draw(pass) {
            Ok(_) => {
                tally.spare = true;
                Ok(())
            }
            Err(spent) => Err(WorkEnd::Spent {
                number: spent.number,
            }),
        }
    }

    /// Inserts a label, for which a number is at hand. The id, if it lives; the number is used unless the label was there already.
    ///
    /// # Errors
    ///
    /// `Stopped`, `TurnSpent`, `Crowded` or `Memory`.
    pub(crate) fn insert<R: Wait>(
        &self,
        rt: &R,
        pass: &mut Pass<'a>,
        tally: &mut Tally,
        label: Label,
    ) -> Result<Option<Id>, WorkEnd>
        requires board { board_of pass.old ≡ self.now.board.now }
        requires label { IsLabelOf (side_at self.now.board.now label.end) label }
        requires spare { tally.old.spare ≡ true }
        ensures acts { Acts self.now.board.now None pass.old tally.old.spare pass.new tally.new.spare }
        ensures there { OnOk result (IsPathSeen pass.new label.end label.path.items) }
        ensures ending { IfErr result (IsHalt (G.stops self.now.gate.now) self.now.worker pass.new) }
    {
        self.ask(tally)?;
        match self.board.insert(rt, pass, label) {
            Ok((id, inserted)) => {
                tally.spare = false;
                Ok(id_if_live(id, inserted))
            }
            Err(BoardRefusal::Present { .. }) => Ok(None),
            Err(BoardRefusal::Crowded { labels }) => Err(WorkEnd::Crowded { labels }),
            Err(BoardRefusal::Turn(spent)) => Err(WorkEnd::TurnSpent { count: spent.count }),
            Err(BoardRefusal::Memory) => Err(WorkEnd::Memory),
        }
    }

    /// Pushes the id of a label. Where the queue is full the label waits without it.
    ///
    /// # Errors
    ///
    /// `Stopped`.
    pub(crate) fn push<R: Wait>(
        &self,
        rt: &R,
        pass: &mut Pass<'a>,
        tally: &mut Tally,
        id: Id,
    ) -> Result<(), WorkEnd>
        requires board { board_of pass.old ≡ self.now.board.now }
        ensures acts { Acts self.now.board.now None pass.old tally.old.spare pass.new tally.new.spare }
        ensures ending { IfErr result (IsHalt (G.stops self.now.gate.now) self.now.worker pass.new) }
    {
        self.ask(tally)?;
        // Full or not: a label without its id waits.
        let _ = self.board.push(rt, pass, id);
        Ok(())
    }
}

// The id of a label that was inserted, if it lives.
fn id_if_live(id: Id, inserted: Inserted) -> Option<Id> {
    match inserted {
        Inserted::Dominated { .. } => None,
        Inserted::Live { .. } => Some(id),
    }
}
