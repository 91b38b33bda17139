//! The entries of a history.

/// What was done to a label, by its id. A bucket keeps the path of each id.
#[derive(Clone, Copy, Debug, PartialEq, Eq)]
pub enum Entry {
    /// A label was inserted: `id` is how many were there before it.
    Insert { id: u32 },
    /// A label that waited was taken.
    Take { id: u32 },
    /// A live label was retired by another live label, which dominates it.
    Retire { id: u32, by: u32 },
    /// A live label was cut.
    Cut { id: u32 },
}
