//! What a search leaves as its proof.

use crate::Mark;
use strip_model::{Acquisition, Directed};

/// A log: a plan with its gain, and all that shows that no plan gains more.
#[derive(Debug, Drop)]
pub struct Log {
    /// The cut time in ticks: forward labels start by it, backward ones end after it.
    pub cut: u32,
    /// The gain of the plan, in twentieths.
    pub gain: u64,
    /// The plan, in time order.
    pub plan: Vec<Acquisition>,
    /// The label paths of the forward side, in time order.
    pub forward: Vec<Vec<Directed>>,
    /// The label paths of the backward side, each in the order of the mirror: the last acquisition first.
    pub backward: Vec<Vec<Directed>>,
    /// The marks, in the order in which they were made.
    pub marks: Vec<Mark>,
}
