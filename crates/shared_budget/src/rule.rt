//! The word's table: its rule, and its kinds of step.

use crate::view::View;
use atomic_table::{Join, Play, Seat, Split, Table, TableRule};
use std::alloc::Global;

/// The word of the next number.
pub const NEXT: usize = 0;

/// The table of a word.
pub type DrawTable = Table<(), View, u64, DrawRule, Global>;

/// What a drawer steps with.
pub type DrawSeat = Seat<(), View>;

/// The rule of the table. Its key is the budget.
pub struct DrawRule;

impl TableRule<(), View, u64> for DrawRule {
    ghost use Rattle.shared_budget.specs.Rule.{Keeps, first_view};

    ghost holds = { Keeps };

    ghost first = { first_view };
}

/// A `fetch_add`: a number is drawn.
pub struct DrawOne;

impl Play<(), View> for DrawOne {
    ghost use Rattle.shared_budget.specs.Steps.{DrawsOne};

    ghost then = { DrawsOne };
}

/// A drawer is split off.
pub struct Halve;

impl Split<View> for Halve {
    ghost use Rattle.shared_budget.specs.Steps.{kept_half, new_half};

    ghost left = { kept_half };

    ghost right = { new_half };
}

/// A drawer is joined.
pub struct Unite;

impl Join<View> for Unite {
    ghost use Rattle.shared_budget.specs.Rule.{left_over};
    ghost use Rattle.shared_budget.specs.Steps.{united};

    ghost both = { united };

    ghost spent = { left_over };
}

/// A load: the drawer learns that it weighs no more than the whole, and that the number that it keeps isn't below the
/// budget. It is a step of its own, since the join of two seats tells no fact about both.
pub struct Weigh;

impl Play<(), View> for Weigh {
    ghost use Rattle.shared_budget.specs.Steps.{Weighs};

    ghost then = { Weighs };
}
