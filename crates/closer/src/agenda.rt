//! What a search keeps beside its core.

use crate::queue::Queue;
use antichain::Antichain;

/// The antichains of both sides, by directed strip, and what waits to be extended. A contract says by `Keeps` that they are those of
/// a core.
#[derive(Drop)]
pub(crate) struct Agenda {
    pub(crate) forward: Vec<Antichain>,
    pub(crate) backward: Vec<Antichain>,
    pub(crate) queue: Queue,
}
