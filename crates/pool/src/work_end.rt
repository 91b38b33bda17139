//! Why a worker ended, one variant a cause.

use std::alloc::AllocError;

/// Why a worker ended.
#[derive(Clone, Copy, Debug, PartialEq, Eq)]
pub enum WorkEnd {
    /// The gate said so.
    Stopped,
    /// In its last round neither queue gave an id: first the forward one was asked, then the other.
    Empty,
    /// No more numbers are drawn.
    Spent {
        /// the number that the pass keeps, which is no less than the budget
        number: u64,
    },
    /// The pass makes no more turns of some bucket.
    TurnSpent {
        /// how many it has made of it: `MOST_TURNS`
        count: u64,
    },
    /// A label wasn't inserted, since its bucket has as many as it can.
    Crowded {
        /// how many labels the bucket has
        labels: u32,
    },
    /// No memory was left.
    Memory,
}

impl From<AllocError> for WorkEnd {
    ghost use Rattle.std.specs.Prelude.{◌≡◌};
    ghost use Rattle.pool.specs.declared.work_end.WorkEnd.TheVariants.{Memory};

    ghost from_gives = { λ _ e. e ≡ Memory };

    fn from(_: AllocError) -> Self {
        WorkEnd::Memory
    }
}
