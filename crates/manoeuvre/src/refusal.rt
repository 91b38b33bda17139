//! Why a table is refused, with the first place that breaks the rule.

ghost use Rattle.std.specs.Prelude.{◌≡◌};
ghost use Rattle.manoeuvre.specs.declared.refusal.TableRefusal.TheVariants.{Memory};

use std::alloc::AllocError;
use std::error::Error;
use thiserror::Error;

/// Why [`Table::new`](crate::Table::new) made no table. The causes are tested in this order.
#[derive(Debug, Drop, Error)]
pub enum TableRefusal {
    /// The number of entries isn't the square of the number of durations.
    #[error("{found} manoeuvre times where {expected} belong")]
    Shape {
        /// the square of the number of durations
        expected: u64,
        /// the number of entries
        found: u64,
    },

    /// The manoeuvre from `x` to `y`, two directions of one strip, takes time. No earlier row has
    /// such an entry, and this row has none at an earlier column.
    #[error("from {x} to {y} the manoeuvre takes {value} ticks within one strip")]
    SameStrip {
        /// the row, a directed strip
        x: u16,
        /// the column, a directed strip
        y: u16,
        /// the entry, in ticks
        value: u32,
    },

    /// From `x` to `z` the manoeuvre takes longer than by an acquisition of `y`. The triple is the
    /// least such one, by `x` first, then by `y`, then by `z`.
    #[error("from {x} to {z} the detour by {y} is shorter")]
    Shortcut {
        /// the directed strip before the manoeuvre
        x: u16,
        /// the directed strip on the detour
        y: u16,
        /// the directed strip after the manoeuvre
        z: u16,
    },

    /// Memory ran out.
    #[error("out of memory")]
    Memory,
}

impl From<AllocError> for TableRefusal {
    ghost from_gives = { λ _ refusal. refusal ≡ Memory };

    fn from(_error: AllocError) -> TableRefusal {
        TableRefusal::Memory
    }
}
