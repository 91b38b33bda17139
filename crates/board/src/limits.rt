//! The limits of a board: how many ids a queue holds.

/// The most ids in one queue.
pub const QUEUE_IDS: usize = 65_536;
