//! Why a call on a board was refused.

use bucket::Id;
use thiserror::Error;
use turn_lock::TurnSpent;

/// Why a label was not inserted.
#[derive(Debug, Drop, Error)]
pub enum BoardRefusal {
    /// A label with this path is there already, in whatever state.
    #[error("a label with this path is there already")]
    Present {
        /// the name of that label
        id: Id,
    },
    /// No label has this path, and its bucket has as many labels as it can.
    #[error("the bucket has {labels} labels")]
    Crowded {
        /// how many labels the bucket has
        labels: u32,
    },
    /// The pass makes no more turns of that bucket, which was not looked at.
    #[error(transparent)]
    Turn(TurnSpent),
    /// No memory was left.
    #[error("out of memory")]
    Memory,
}

/// Why a label was not taken.
#[derive(Debug, Drop, Error)]
pub enum TakeRefusal {
    /// The pass makes no more turns of that bucket, which was not looked at.
    #[error(transparent)]
    Turn(TurnSpent),
    /// No memory was left.
    #[error("out of memory")]
    Memory,
}

/// The queue of the id's side was full.
#[derive(Clone, Copy, Debug, PartialEq, Eq, Drop, Error)]
#[error("the queue of ids is full")]
pub struct Full {
    /// the id that was not pushed
    pub id: Id,
}
