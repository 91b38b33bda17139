//! The limits of what is made.

use strip_model::MAX_STRIPS;

/// The greatest number of strips that can be made: as many as an instance can have.
pub const MAX_SIZE: u16 = MAX_STRIPS as u16;

/// Both ends of each window of a made strip are at most this, in ticks: those of strip `i` lie between `100 * i` and
/// `100 * (i + 1)`, but for windows that are closed.
pub const MAX_END: u32 = 100 * MAX_SIZE as u32;
