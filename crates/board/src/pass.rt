//! A caller's token of a board, which has one of each of its parts.

ghost use Rattle.std.specs.Prelude.{◌≡◌, ◌≤◌, ◌++◌, ◌∷◌, []};
ghost use Rattle.pass_weight.specs.declared.whole_weight.TheConstants.{WHOLE_WEIGHT};

use crate::asked::Asked;
use crate::half_pass::HalfToken;
use bucket::Id;
use incumbent::Share;
use plan_check::Published;
use shared_budget::Drawer;
use std::marker::Model;
use strip_model::End;

/// A caller's token of one board: a pass of each of its locks and of both queues, a share of the incumbent, a drawer, and
/// the replies that it had from the queues.
/// Contracts see it part by part, as `BoardPass` in `specs/Passes.antt`.
///
/// It goes to one thread at a time, and can't be dropped: [`Board::join`](crate::Board::join) and
/// [`Board::close`](crate::Board::close) take it.
pub struct Pass<'a> {
    pub(crate) forward: HalfToken<'a>,
    pub(crate) backward: HalfToken<'a>,
    pub(crate) share: Share<Published<'a>>,
    pub(crate) drawer: Drawer,
    pub(crate) asked: Asked,
}

impl<'a> Model for Pass<'a> {
    ghost use Rattle.board.specs.Inside.{pass_of, IsPass};
    ghost use Rattle.board.specs.Passes.{BoardPass};
    ghost use Rattle.incumbent.specs.Share.{plan_of, seen_by, weight_of};

    ghost Value = { BoardPass };

    ghost view = { λ p. pass_of p.forward p.backward p.share.seat.table_id (plan_of p.share) (seen_by p.share) p.drawer p.asked (weight_of p.share) };

    ghost invariant = { λ p. IsPass p.forward p.backward p.drawer (weight_of p.share) };
}

impl<'a> Pass<'a> {
    /// The weight: at least 1, and at most [`WHOLE_WEIGHT`](crate::WHOLE_WEIGHT), which all passes of the board have together. Only `split` and `join`
    /// change it.
    pub fn weight(&self) -> u64
        ensures weight { result ≡ self.now.weight }
        ensures positive { 1 ≤ result }
        ensures bounded { result ≤ WHOLE_WEIGHT }
    {
        self.share.weight()
    }

    // Keeps the reply of a queue.
    pub(crate) fn hear(&mut self, end: End, id: Option<Id>)
        ensures { self.new ≡ record self.old { asked = self.old.asked ++ record { end = end; id = id } ∷ [] } }
    {
        self.asked.hear(end, id);
    }
}
