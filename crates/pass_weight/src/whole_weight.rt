//! The whole weight.

/// The weight of all passes together, and so of the first pass: 2^62, so that a pass and the new one of each split can be split 62 times in a row, and
/// counts that the weights bound stay far below 2^64.
pub const WHOLE_WEIGHT: u64 = 1 << 62;
