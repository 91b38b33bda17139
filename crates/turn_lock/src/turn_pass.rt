//! A caller's token of a lock: what it has seen of the history, which entries it made, and how many turns.
ghost use Rattle.std.specs.Prelude.{◌≡◌, ◌≤◌};
ghost use Rattle.pass_weight.specs.declared.whole_weight.TheConstants.{WHOLE_WEIGHT};

use crate::chronicle::Chronicle;
use crate::rule::TurnSeat;
use std::marker::Model;

/// A caller's token of one lock. Contracts see it as what it has seen of the history, the entries that it made, and the
/// other parts of `Pass` in `specs/Pass.antt`.
///
/// It goes to one thread at a time, and can't be dropped: [`Turn::join`](crate::Turn::join) and
/// [`Turn::close`](crate::Turn::close) take it.
pub struct TurnPass<T: Chronicle> {
    pub(crate) seat: TurnSeat<T>,
    pub(crate) turns: u64,
    pub(crate) weight: u64,
}

impl<T: Chronicle> Model for TurnPass<T> {
    ghost use Rattle.turn_lock.specs.Pass.{Pass};
    ghost use Rattle.turn_lock.specs.Inside.{pass_of, IsPass};

    ghost Value = { Pass T.Entry T.Frame };

    ghost view = { λ p. pass_of p.seat.table_id p.seat.me.0 p.turns };

    ghost invariant = { λ p. IsPass p.seat.me.0 p.seat.me.1 p.turns p.weight };
}

impl<T: Chronicle> TurnPass<T> {
    /// The weight: at least 1, and at most [`WHOLE_WEIGHT`](crate::WHOLE_WEIGHT), which all passes of the lock have together.
    pub fn weight(&self) -> u64
        ensures weight { result ≡ self.now.weight }
        ensures positive { 1 ≤ result }
        ensures bounded { result ≤ WHOLE_WEIGHT }
    {
        self.weight
    }
}
