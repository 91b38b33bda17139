//! What a search for joins answers.

/// A forward label and a backward one that join, by their places in the lists that were searched; None is the root.
#[derive(Clone, Copy, Debug, PartialEq, Eq)]
pub struct Pair {
    pub forward: Option<u32>,
    pub backward: Option<u32>,
    /// What the two gain together, in twentieths.
    pub gain: u64,
}
