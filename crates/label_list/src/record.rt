//! What is kept of a label.

use crate::State;
use label::Brief;

/// A label of a list: where its path stands among the directed strips of all paths, its state and its brief.
#[derive(Clone, Copy, Debug)]
pub(crate) struct Record {
    // Where its path begins.
    pub(crate) from: usize,
    // Where the next begins.
    pub(crate) to: usize,
    pub(crate) state: State,
    pub(crate) brief: Brief,
}
