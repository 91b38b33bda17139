//! Strips with a direction.

ghost use Rattle.std.specs.Prelude.{◌≡◌, ◌+◌, ◌*◌, ◌<◌, ◌^◌};
ghost use Rattle.strip_model.specs.Directed.{strip_of, direction_of};

use std::marker::Model;

/// A strip with one of its two directions: the number `2 * strip + direction`. Contracts see the number.
#[derive(Clone, Copy, Debug, PartialEq, Eq, PartialOrd, Ord, Hash)]
pub struct Directed(pub u16);

impl Model for Directed {
    ghost use Rattle.std.specs.Prelude.{ℕ};

    ghost Value = { ℕ };

    ghost view = { λ x. x.0 };

    ghost inverse = { λ n. record { 0 = n } };
}

impl Directed {
    /// A strip with a direction, which is 0 or 1.
    pub fn of(strip: u16, direction: u16) -> Directed
        requires strip { strip < 2 ^ 15 }
        requires direction { direction < 2 }
        ensures value { result ≡ 2 * strip + direction }
        ensures strip { strip_of result ≡ strip }
        ensures direction { direction_of result ≡ direction }
    {
        Directed(2 * strip + direction)
    }

    /// The strip's number.
    pub fn strip(self) -> u16
        ensures value { result ≡ strip_of self }
        ensures small { result < 2 ^ 15 }
    {
        self.0 / 2
    }

    /// 0 or 1.
    pub fn direction(self) -> u16
        ensures value { result ≡ direction_of self }
        ensures small { result < 2 }
    {
        self.0 % 2
    }
}
