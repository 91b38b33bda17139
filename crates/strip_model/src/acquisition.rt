//! Acquisitions: what a plan is a list of.

use crate::Directed;

/// One acquisition of a plan: which directed strip, and when it starts. A plan is a list of these in time order.
#[derive(Clone, Copy, Debug, PartialEq, Eq)]
pub struct Acquisition {
    /// The start, in ticks.
    pub start: u32,
    /// The strip and its direction.
    pub at: Directed,
}
