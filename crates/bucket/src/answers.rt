//! What the calls of a bucket answer.

use crate::State;
use label::Label;

/// What became of a label that was inserted.
#[derive(Clone, Copy, Debug, PartialEq, Eq)]
pub enum Inserted {
    /// A live label dominates it, and so it was retired at once: `by` is the least id of a live label that dominates it.
    Dominated { id: u32, by: u32 },
    /// It waits, and has retired each live label that it dominates: `retired` of them.
    Live { id: u32, retired: u32 },
}

/// What taking a label gave.
#[derive(Debug, Drop)]
pub enum Taken {
    /// A copy of the label, which waited and is taken now.
    Label(Label),
    /// The label didn't wait: this is its state.
    Gone { state: State },
}

/// What cutting a label gave.
#[derive(Clone, Copy, Debug, PartialEq, Eq)]
pub enum CutAnswer {
    /// The label isn't live: this is its state.
    Gone { state: State },
    /// The label is live, and its bound, in twentieths, exceeds the value.
    Higher { bound: u64 },
    /// The label was live, and is cut now.
    Done,
}
