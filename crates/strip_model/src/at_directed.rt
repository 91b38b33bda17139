//! What stands in a sequence of directed strips.

use crate::{Acquisition, Directed};

/// What stands in a sequence: a directed strip, or an acquisition of one. Calls that ask what stands there take either.
pub trait AtDirected {
    ghost use Rattle.std.specs.Prelude.{ℕ, ◌≡◌};

    ghost directed: { Self → ℕ };

    /// The directed strip.
    fn directed(&self) -> Directed
        ensures { result ≡ directed self.now };
}

impl AtDirected for Directed {
    ghost directed = { λ x. x };

    fn directed(&self) -> Directed {
        *self
    }
}

impl AtDirected for Acquisition {
    ghost directed = { λ a. a.at };

    fn directed(&self) -> Directed {
        self.at
    }
}
