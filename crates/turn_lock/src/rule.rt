//! The lock's table: its words, its slot, its rule, and its kinds of step.
//!
//! Word [`TICKET`] is the next ticket and word [`SERVING`] the ticket that is served, both modulo 2^64. Slot [`SLOT`] has
//! the value. A pass draws a ticket, looks until it is served and then takes the slot, and gives the slot back with the
//! step that serves the next ticket.

use crate::chronicle::Chronicle;
use crate::view::View;
use atomic_table::{Join, Play, Seat, Shared, Split, Table, TableRule};
use std::alloc::Global;
use std::marker::PhantomData;
use std::snapshot::Snapshot;

/// The word of the next ticket.
pub const TICKET: usize = 0;
/// The word of the ticket that is served.
pub const SERVING: usize = 1;
/// The slot of the value.
pub const SLOT: usize = 0;

/// The table of a lock.
pub type TurnTable<T: Chronicle> = Table<
    Option<T>,
    View<T::Entry, T::Frame>,
    Snapshot<T>,
    TurnRule<T>,
    Global,
>;

/// The table as threads see it.
pub type TurnShared<T: Chronicle> = Shared<
    Option<T>,
    View<T::Entry, T::Frame>,
    Snapshot<T>,
    TurnRule<T>,
>;

/// What a pass steps with.
pub type TurnSeat<T: Chronicle> = Seat<Option<T>, View<T::Entry, T::Frame>>;

/// The rule of the table. Its key is the lock's first value, whose frame all later ones have.
pub struct TurnRule<T> {
    of: PhantomData<T>,
}

impl<T: Chronicle> TableRule<Option<T>, View<T::Entry, T::Frame>, Snapshot<T>> for TurnRule<T> {
    ghost use Rattle.turn_lock.specs.Rule.{Keeps, first_view};

    ghost holds = { λ key. Keeps T.history T.frame (T.frame key.value) };

    ghost first = { λ key. first_view (T.frame key.value) };
}

/// A ticket is drawn.
pub struct Draw;

impl<S, E, F> Play<S, View<E, F>> for Draw {
    ghost use Rattle.turn_lock.specs.Steps.{Draws};

    ghost then = { Draws };
}

/// A look at the ticket that is served, which takes the value where it is the own one.
pub struct Look<T> {
    of: PhantomData<T>,
}

impl<T: Chronicle> Play<Option<T>, View<T::Entry, T::Frame>> for Look<T> {
    ghost use Rattle.turn_lock.specs.Steps.{Looks};

    ghost then = { Looks T.history T.frame };
}

/// The next ticket is served, and the value is given back.
pub struct Serve<T> {
    of: PhantomData<T>,
}

impl<T: Chronicle> Play<Option<T>, View<T::Entry, T::Frame>> for Serve<T> {
    ghost use Rattle.turn_lock.specs.Steps.{Serves};

    ghost then = { Serves T.history T.frame };
}

/// A pass is split off.
pub struct Halve;

impl<E, F> Split<View<E, F>> for Halve {
    ghost use Rattle.turn_lock.specs.Steps.{kept_half, new_half};

    ghost left = { kept_half };

    ghost right = { new_half };
}

/// A pass is joined.
pub struct Merge;

impl<E, F> Join<View<E, F>> for Merge {
    ghost use Rattle.turn_lock.specs.Rule.{left_over};
    ghost use Rattle.turn_lock.specs.Steps.{merged};

    ghost both = { merged };

    ghost spent = { left_over };
}

/// What was seen is compared with what the joined pass had seen. It is a step of its own, since the join of two seats tells
/// no fact about both.
pub struct Compare;

impl<S, E, F> Play<S, View<E, F>> for Compare {
    ghost use Rattle.turn_lock.specs.Steps.{Compares};

    ghost then = { Compares };
}
