//! Why a pass gets no turn: it has made as many as it can.

use thiserror::Error;

/// The most turns that one pass makes.
pub const MOST_TURNS: u64 = 1 << 32;

/// The pass has made [`MOST_TURNS`] turns, and makes no more.
#[derive(Debug, Drop, Error)]
#[error("a pass has made {count} turns, and makes no more")]
pub struct TurnSpent {
    /// how many turns the pass has made
    pub count: u64,
}
