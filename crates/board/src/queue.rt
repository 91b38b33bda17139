//! The queues of ids, and their rule.

use bucket::Id;
use crossbeam_queue::protocol::{Join, Lesson, Outcome, Protocol, Split};
use crossbeam_queue::{Pass, RuledArrayQueue};
use std::collections::LinkedList;

/// What a pass of a queue knows: its part of the whole weight, how many ids it has pushed, and which ids it was given. No value
/// of it is made.
pub struct Hand {
    pub weight: u64,
    pub pushes: u64,
    pub ids: LinkedList<Id>,
}

/// The rule: the passes have pushed as many ids as they were given and as the queue holds.
pub struct Counted;

impl Protocol<Id, Hand> for Counted {
    ghost use Rattle.board.specs.Queues.{Balanced, first_hand};

    ghost holds = { Balanced };

    ghost first = { first_hand };
}

/// An id is pushed.
pub struct Pushed;

impl Outcome<Id, Hand> for Pushed {
    ghost use Rattle.std.specs.Prelude.{◌≡◌};
    ghost use Rattle.board.specs.Queues.{with_push};

    ghost then = { λ v x w. w ≡ with_push v };
}

impl Lesson<Id, Hand> for Pushed {
    ghost use Rattle.board.specs.Queues.{IsKnown};

    ghost fact = { IsKnown };
}

/// An id is given.
pub struct Given;

impl Outcome<Id, Hand> for Given {
    ghost use Rattle.std.specs.Prelude.{◌≡◌};
    ghost use Rattle.board.specs.Queues.{with_id};

    ghost then = { λ v x w. w ≡ with_id v x };
}

impl Lesson<Id, Hand> for Given {
    ghost use Rattle.board.specs.Queues.{IsKnown};

    ghost fact = { IsKnown };
}

/// A pass is split off.
pub struct Halve;

impl Split<Hand> for Halve {
    ghost use Rattle.board.specs.Queues.{kept_hand, new_hand};

    ghost left = { kept_hand };

    ghost right = { new_hand };
}

/// A pass is joined into another.
pub struct Unite;

impl Join<Hand> for Unite {
    ghost use Rattle.board.specs.Queues.{joined_hand, spent_hand};

    ghost both = { joined_hand };

    ghost spent = { spent_hand };
}

/// A queue of ids.
pub type IdQueue = RuledArrayQueue<Id, Hand, Counted>;

/// A pass of it.
pub type IdPass = Pass<Id, Hand>;
