//! The iterator over a set.
ghost use Rattle.std.specs.Prelude.{◌≡◌};
ghost use Rattle.std.specs.Iterator.{YieldsFirst, item_count};

use crate::{DirectedSet, StripSet};
use std::marker::Model;

/// The members of a set in rising order, seen as the list of those that are left.
#[derive(Drop, Debug)]
pub struct SetIter {
    rest: Rest,
}

#[derive(Drop, Debug)]
enum Rest {
    Strips(StripSet),
    Directed(DirectedSet),
}

impl Model for SetIter {
    ghost use Rattle.std.specs.Prelude.{ℕ, List};

    ghost Value = { List ℕ };

    ghost use Rattle.strip_set.specs.Rest.{members_left};

    ghost view = { λ it. members_left it.rest };
}

impl SetIter {
    pub(crate) fn over_strips(set: StripSet) -> SetIter
        ensures { result ≡ set }
    {
        SetIter {
            rest: Rest::Strips(set),
        }
    }

    pub(crate) fn over_directed(set: DirectedSet) -> SetIter
        ensures { result ≡ set }
    {
        SetIter {
            rest: Rest::Directed(set),
        }
    }
}

impl Iterator for SetIter {
    type Item = u16;

    ghost next_gives = { YieldsFirst (λ rest. rest) };

    ghost remaining = { item_count (λ rest. rest) };

    fn next(&mut self) -> Option<u16> {
        match &mut self.rest {
            Rest::Strips(set) => set.take_first(),
            Rest::Directed(set) => set.take_first(),
        }
    }
}
