//! What the workers of a round do, each in its lanes.

use label::Label;

/// What all workers do side by side.
#[derive(Drop)]
pub(crate) enum Order<'r> {
    /// Each label that waits with a last start below that of its side, in ticks, is readied, or cut.
    Ready {
        /// on the forward side
        forward: u32,
        /// on the backward side
        backward: u32,
    },
    /// The extensions of these labels are inserted.
    Extend {
        /// of the forward side
        forward: &'r [Label],
        /// of the backward side
        backward: &'r [Label],
    },
}
