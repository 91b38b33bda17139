//! A party's share of a peak: its best plan, and the greatest number that it has seen.
ghost use Rattle.std.specs.Prelude.{◌≡◌, ◌<◌, ◌≤◌, []};
ghost use Rattle.pass_weight.specs.declared.whole_weight.TheConstants.{WHOLE_WEIGHT};

use crate::knowledge::Knowledge;
use crate::worth::Worth;
use atomic_table::Seat;

/// A party's share of a [`Peak`](crate::Peak): it keeps the best plan that the party has offered and the greatest
/// number that it has seen. It can't be dropped: `join` or `close` of its peak ends it.
pub struct Share<P: Worth> {
    pub(crate) plan: P,
    pub(crate) weight: u64,
    pub(crate) seat: Seat<(), Knowledge>,
    ghost offers_its_plan: { seat.me.0.offered ≡ P.worth plan },
    ghost has_seen_its_plan: { P.worth plan ≤ seat.me.0.seen },
    ghost weighs: { seat.me.0.weight ≡ weight },
    ghost weighs_something: { 0 < weight },
    ghost weighs_at_most_all: { weight ≤ WHOLE_WEIGHT },
    ghost holds_no_slot: { seat.me.1 ≡ [] },
}

impl<P: Worth> Share<P> {
    ghost use Rattle.std.specs.Prelude.{◌≡◌, ◌<◌, ◌≤◌};
    ghost use Rattle.incumbent.specs.Share.{weight_of};

    /// The share's part of [`WHOLE_WEIGHT`](crate::WHOLE_WEIGHT). Only `split` and `join` change it.
    pub fn weight(&self) -> u64
        ensures value { result ≡ weight_of self.now }
        ensures at_least_one { 0 < result }
        ensures at_most_whole { result ≤ WHOLE_WEIGHT }
    {
        self.weight
    }
}
