//! What a search for the first label over a floor answers.

/// A forward label that joins with some backward one for more than a floor, by its place in the list that was searched;
/// None is the root.
#[derive(Clone, Copy, Debug, PartialEq, Eq)]
pub struct Over {
    pub forward: Option<u32>,
}
