//! Why a drawer gets no number below the budget.

use thiserror::Error;

/// The drawer is exhausted: it drew a number that isn't below the budget, or it was split from a drawer that had, or such a
/// one was joined into it. It draws no more.
#[derive(Debug, Drop, PartialEq, Eq, Error)]
#[error("the budget is reached: the number {number} isn't below it")]
pub struct DrawSpent {
    /// the number that the drawer keeps, at least the budget
    pub number: u64,
}
