//! The rule of a peak's word, and its kinds of step.
ghost use Rattle.std.specs.Prelude.{ℕ};
ghost use Rattle.incumbent.specs.Knowledge.{first_of, spent, after_split, split_off, together};
ghost use Rattle.incumbent.specs.Rule.{HasOneWord};
ghost use Rattle.incumbent.specs.Steps.{Sees, Offers, Weighs};

use crate::knowledge::Knowledge;
use atomic_table::{Join, Play, Split, TableRule};
use std::marker::{Brand, PhantomData};

/// The word is the greatest offer, and nobody has seen more. The key is the worth of the first plan.
pub struct Greatest;

impl TableRule<(), Knowledge, u64> for Greatest {
    ghost holds = { λ _ state. HasOneWord state.words state.views };

    ghost first = { first_of };
}

/// A load: the share sees the word.
pub struct See;

impl Play<(), Knowledge> for See {
    ghost then = { Sees };
}

/// A `fetch_max`: the share offers a worth.
pub struct Offer;

impl Play<(), Knowledge> for Offer {
    ghost then = { Offers };
}

/// A load: the share learns that it weighs no more than the whole.
pub struct Weigh;

impl Play<(), Knowledge> for Weigh {
    ghost then = { Weighs };
}

/// The worth of a plan that a new share is given. Each call of `split` picks it.
pub trait Given {
    ghost worth: { ℕ };
}

impl Given for Brand {
    ghost worth = { 0 };
}

/// A new share is split off, with a plan of a given worth.
pub struct Halve<G> {
    of: PhantomData<G>,
}

impl<G: Given> Split<Knowledge> for Halve<G> {
    ghost left = { after_split };

    ghost right = { split_off G.worth };
}

/// A share is joined into another.
pub struct Unite;

impl Join<Knowledge> for Unite {
    ghost both = { together };

    ghost spent = { spent };
}
