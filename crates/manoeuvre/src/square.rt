//! Entries in rows, before a rule is known of them.

ghost use Rattle.std.specs.Prelude.{◌≡◌, ◌*◌, ◌<◌, ◌≤◌, length, All};
ghost use Rattle.manoeuvre.specs.Grid.{entry_at};

use crate::limits::{MAX_DIRECTED, MAX_MANOEUVRE};
use std::marker::Model;

/// A square of manoeuvre times in ticks, of which no rule is known yet.
#[derive(Drop)]
pub struct Square<'a> {
    size: u16,
    entries: &'a [u32],
}

impl<'a> Model for Square<'a> {
    ghost use Rattle.manoeuvre.specs.Grid.{Grid};
    ghost use Rattle.manoeuvre.specs.Square.{IsSquare};

    ghost Value = { Grid };

    ghost view = { λ s. record { size = s.size; entries = s.entries.now } };

    ghost invariant = { λ s. IsSquare (record { size = s.size; entries = s.entries.now }) };
}

impl<'a> Square<'a> {
    /// The square with `size` rows of `size` entries.
    pub fn new(size: u16, entries: &'a [u32]) -> Square<'a>
        requires small { size ≤ MAX_DIRECTED }
        requires square { length entries.now ≡ size * size }
        requires bounded { All (λ m. m ≤ MAX_MANOEUVRE) entries.now }
        ensures { result ≡ record { size = size; entries = entries.entry.now } }
    {
        Square { size, entries }
    }

    /// The number of rows, and of columns.
    pub fn size(&self) -> u16
        ensures { result ≡ self.now.size }
    {
        self.size
    }

    /// The entry of row `x` and column `y`.
    pub fn entry(&self, x: u16, y: u16) -> u32
        requires row { x < self.now.size }
        requires column { y < self.now.size }
        ensures entry { result ≡ entry_at self.now x y }
        ensures bounded { result ≤ MAX_MANOEUVRE }
    {
        self.entries[usize::from(x) * usize::from(self.size) + usize::from(y)]
    }
}
