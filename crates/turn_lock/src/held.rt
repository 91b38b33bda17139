//! The turn, which has the value while a caller may change it.
ghost use Rattle.std.specs.Prelude.{◌≡◌};
ghost use Rattle.std.specs.Borrow.{Lends, sem};
ghost use Rattle.turn_lock.specs.contracts.held.Held.{the_row};

use std::marker::Model;

/// The turn of a lock, which has its value. It is given back by [`Turn::leave`](crate::Turn::leave). Contracts see it as
/// the value.
pub struct Held<T> {
    value: T,
}

impl<T> Model for Held<T> {
    ghost use Rattle.std.specs.Prelude.{◌≡◌};

    ghost Value = { T };

    ghost view = { λ held. held.value };
}

impl<T> Held<T> {
    pub(crate) fn new(value: T) -> Held<T>
        ensures { result ≡ value }
    {
        Held { value }
    }

    /// The value.
    pub fn value(&mut self) -> &mut T
        ensures* writes_back { sem 𝓛 (Lends (the_row T.row) T.row self.entry result (λ value. value)) }
        ensures value { result.now ≡ self.old }
    {
        &mut self.value
    }

    pub(crate) fn into_value(self) -> T
        ensures { result ≡ self }
    {
        let Held { value } = self;
        value
    }
}
