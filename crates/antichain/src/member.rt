//! What an antichain keeps of a label.

use label::Outline;

/// A label of an antichain: its id, and the outline of its path.
#[derive(Clone, Copy, Debug)]
pub struct Member {
    /// The label's id.
    pub id: u32,
    /// The outline of its path.
    pub outline: Outline,
}
