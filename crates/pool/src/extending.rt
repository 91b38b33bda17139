//! New labels on the board: all extensions of a label.

ghost use Rattle.std.specs.Prelude.{◌≡◌, ℕ, ◌<◌, ◌∷◌, ◌++◌, [], None, length, OnOk, IfErr};
ghost use Rattle.board.specs.Passes.{board_of, side_at};
ghost use Rattle.label.specs.Labels.{IsLabelOf};
ghost use Rattle.pool.specs.Acting.{Acts};
ghost use Rattle.pool.specs.Ends.{IsHalt};
ghost use Rattle.pool.specs.Seen.{IsPathSeen, IsExtended};
ghost use Rattle.strip_model.specs.Directed.{strip_of};
ghost use Rattle.strip_model.specs.LabelPath.{LabelPath};

use crate::gate::Gate;
use crate::post::Post;
use crate::tally::Tally;
use crate::work_end::WorkEnd;
use board::Pass;
use label::{Label, extend};
use std::sync::Wait;
use strip_model::Directed;

impl<'w, 'a, G: Gate> Post<'w, 'a, G> {
    /// Inserts each label path that extends a label by one directed strip.
    ///
    /// # Errors
    ///
    /// As `enter`; then the rest isn't inserted.
    pub(crate) fn extend_all<R: Wait>(
        &self,
        rt: &R,
        pass: &mut Pass<'a>,
        tally: &mut Tally,
        label: &Label,
    ) -> Result<(), WorkEnd>
        requires board { board_of pass.old ≡ self.now.board.now }
        requires label { IsLabelOf (side_at self.now.board.now label.now.end) label.now }
        ensures acts { Acts self.now.board.now None pass.old tally.old.spare pass.new tally.new.spare }
        ensures extended { OnOk result (IsExtended self.now.board.now pass.new label.now.end label.now.path.items) }
        ensures ending { IfErr result (IsHalt (G.stops self.now.gate.now) self.now.worker pass.new) }
    {
        let side = self.board.side(label.end());
        let count = 2 * side.instance().strips().len() as u16;
        for y in 0..count {
            self.extend_by(rt, pass, tally, label, Directed(y))?;
        }
        Ok(())
    }

    // Inserts the label with one more directed strip, if its path is a label path.
    fn extend_by<R: Wait>(
        &self,
        rt: &R,
        pass: &mut Pass<'a>,
        tally: &mut Tally,
        label: &Label,
        y: Directed,
    ) -> Result<(), WorkEnd>
        requires board { board_of pass.old ≡ self.now.board.now }
        requires label { IsLabelOf (side_at self.now.board.now label.now.end) label.now }
        requires exists { strip_of y < length (side_at self.now.board.now label.now.end).instance.strips }
        ensures acts { Acts self.now.board.now None pass.old tally.old.spare pass.new tally.new.spare }
        ensures extended { OnOk result (LabelPath (side_at self.now.board.now label.now.end) (label.now.path.items ++ y ∷ [])
            → IsPathSeen pass.new label.now.end (label.now.path.items ++ y ∷ [])) }
        ensures ending { IfErr result (IsHalt (G.stops self.now.gate.now) self.now.worker pass.new) }
    {
        let side = self.board.side(label.end());
        match extend(self.alloc, side, label, y)? {
            None => Ok(()),
            Some(longer) => self.enter(rt, pass, tally, longer),
        }
    }

    /// Draws a number, unless one is at hand, inserts a label, and pushes its id, if it lives.
    ///
    /// # Errors
    ///
    /// `Stopped`, `Spent`, `TurnSpent`, `Crowded` or `Memory`.
    pub(crate) fn enter<R: Wait>(
        &self,
        rt: &R,
        pass: &mut Pass<'a>,
        tally: &mut Tally,
        label: Label,
    ) -> Result<(), WorkEnd>
        requires board { board_of pass.old ≡ self.now.board.now }
        requires label { IsLabelOf (side_at self.now.board.now label.end) label }
        ensures acts { Acts self.now.board.now None pass.old tally.old.spare pass.new tally.new.spare }
        ensures there { OnOk result (IsPathSeen pass.new label.end label.path.items) }
        ensures ending { IfErr result (IsHalt (G.stops self.now.gate.now) self.now.worker pass.new) }
    {
        self.draw(pass, tally)?;
        match self.insert(rt, pass, tally, label)? {
            None => Ok(()),
            Some(id) => self.push(rt, pass, tally, id),
        }
    }
}
