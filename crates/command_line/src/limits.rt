//! The limits of the numbers of a job that no other crate sets.

/// The greatest seed of an instance that is made.
pub const MAX_SEED: u32 = u32::MAX;
