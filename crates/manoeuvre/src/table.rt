//! The table of manoeuvre times, which no shortcut undercuts and which costs nothing within a strip.

ghost use Rattle.std.specs.Prelude.{◌≡◌, ◌%◌, ◌<◌, ◌≤◌, length, All, slice_index, IfOk, IfErr};
ghost use Rattle.manoeuvre.specs.Grid.{entry_at, turned, IsTable, KeepsShortcut};
ghost use Rattle.manoeuvre.specs.Refusal.{IsCause, grid_of};

use crate::limits::{MAX_DIRECTED, MAX_DURATION, MAX_MANOEUVRE};
use crate::refusal::TableRefusal;
use crate::square::Square;
use crate::{same_strip, shortcut};
use std::alloc::{AllocError, Global};
use std::marker::Model;

/// Manoeuvre times in ticks between directed strips, which keep the same-strip rule.
#[derive(Drop, Debug)]
pub struct Table {
    size: u16,
    entries: Vec<u32>,
}

impl Model for Table {
    ghost use Rattle.manoeuvre.specs.Grid.{Grid, IsTable};

    ghost Value = { Grid };

    ghost view = { λ t. record { size = t.size; entries = t.entries.items } };

    ghost invariant = { λ t. IsTable (record { size = t.size; entries = t.entries.items }) };
}

impl Table {
    /// The table of these manoeuvre times, in ticks: a row for each directed strip, the rows one
    /// after another. `durations` has the duration in ticks of each directed strip.
    ///
    /// Refusals: `Shape` for a wrong number of entries, `SameStrip` and `Shortcut` for the first
    /// place that breaks that rule, in this order, and `Memory`.
    pub fn new(alloc: Global, durations: &[u32], entries: &[u32]) -> Result<Table, TableRefusal>
        requires even { length durations.now % 2 ≡ 0 }
        requires small { length durations.now ≤ MAX_DIRECTED }
        requires durations { All (λ p. (1 ≤ p) × (p ≤ MAX_DURATION)) durations.now }
        requires entries { All (λ m. m ≤ MAX_MANOEUVRE) entries.now }
        ensures grid { IfOk result (λ t. t ≡ grid_of durations.now entries.now) }
        ensures table { IfOk result IsTable }
        ensures shortcut { IfOk result (KeepsShortcut (slice_index durations.now)) }
        ensures refused { IfErr result (IsCause durations.now entries.now) }
    {
        let expected = durations.len() * durations.len();
        if entries.len() != expected {
            return Err(TableRefusal::Shape {
                expected: expected as u64,
                found: entries.len() as u64,
            });
        }
        let size = durations.len() as u16;
        let square = Square::new(size, entries);
        if let Some((x, y)) = same_strip::first_broken(&square) {
            let value = square.entry(x, y);
            return Err(TableRefusal::SameStrip { x, y, value });
        }
        if let Some((x, y, z)) = shortcut::first_broken(&square, durations) {
            return Err(TableRefusal::Shortcut { x, y, z });
        }
        let entries = entries.to_vec(alloc)?;
        Ok(Table { size, entries })
    }

    /// The time in ticks from the end of an acquisition of `x` to the start of one of `y`.
    pub fn between(&self, x: u16, y: u16) -> u32
        requires from { x < self.now.size }
        requires to { y < self.now.size }
        ensures entry { result ≡ entry_at self.now x y }
        ensures bounded { result ≤ MAX_MANOEUVRE }
    {
        self.entries[usize::from(x) * usize::from(self.size) + usize::from(y)]
    }

    /// The number of directed strips, two for each strip.
    pub fn size(&self) -> u16
        ensures size { result ≡ self.now.size }
        ensures table { IsTable self.now }
    {
        self.size
    }

    /// The same table once more. It fails for want of memory alone.
    pub fn copy(&self, alloc: Global) -> Result<Table, AllocError>
        ensures value { IfOk result (λ t. t ≡ self.now) }
    {
        let entries = Vec::from_slice(alloc, &self.entries)?;
        Ok(Table {
            size: self.size,
            entries,
        })
    }

    /// The table turned round: from `x` to `y` it takes the time that it takes here from `y` to `x`. It fails for want of
    /// memory alone.
    pub fn turned(&self, alloc: Global) -> Result<Table, AllocError>
        ensures value { IfOk result (λ t. t ≡ turned self.now) }
        ensures table { IfOk result IsTable }
    {
        let size = usize::from(self.size());
        let mut entries = Vec::with_capacity(alloc, size * size)?;
        for place in 0..size * size {
            let row = (place / size) as u16;
            let column = (place % size) as u16;
            entries.push(self.between(column, row))?;
        }
        Ok(Table {
            size: self.size(),
            entries,
        })
    }
}
