//! How many bytes each command reads at most.

/// The greatest number of bytes that `solve` reads: 16 MiB.
pub const MAX_SOLVE_INPUT: u32 = 16_777_216;

/// The greatest number of bytes that `check` reads: 768 MiB. The text of an instance and the longest answer are shorter.
pub const MAX_CHECK_INPUT: u32 = 805_306_368;

/// The greatest number of bytes that `score` reads: 768 MiB.
pub const MAX_SCORE_INPUT: u32 = 805_306_368;
