//! A party's token: the numbers that it drew, and the one that it keeps where it draws no more.
ghost use Rattle.std.specs.Prelude.{◌≡◌, ◌≤◌};
ghost use Rattle.pass_weight.specs.declared.whole_weight.TheConstants.{WHOLE_WEIGHT};

use crate::rule::DrawSeat;
use std::marker::Model;

/// A party's token of one word. Contracts see it as the numbers that it drew and those of the drawers that were joined into
/// it, the number that it keeps where it is exhausted, and the other parts of `Drawn` in `specs/Drawn.antt`.
///
/// It goes to one thread at a time, and can't be dropped: [`Draws::join`](crate::Draws::join) and
/// [`Draws::close`](crate::Draws::close) take it.
pub struct Drawer {
    pub(crate) seat: DrawSeat,
    pub(crate) kept: Option<u64>,
    pub(crate) budget: u64,
    pub(crate) weight: u64,
}

impl Model for Drawer {
    ghost use Rattle.shared_budget.specs.Drawn.{Drawn};
    ghost use Rattle.shared_budget.specs.Inside.{drawn_of, IsDrawer};

    ghost Value = { Drawn };

    ghost view = { λ d. drawn_of d.seat.table_id d.seat.me.0 };

    ghost invariant = { λ d. IsDrawer d.seat.me.0 d.seat.me.1 d.kept d.budget d.weight };
}

impl Drawer {
    /// The weight: at least 1, and at most [`WHOLE_WEIGHT`](crate::WHOLE_WEIGHT), which all drawers of the word have together. Only `split` and
    /// `join` change it.
    pub fn weight(&self) -> u64
        ensures weight { result ≡ self.now.weight }
        ensures positive { 1 ≤ result }
        ensures bounded { result ≤ WHOLE_WEIGHT }
    {
        self.weight
    }
}
