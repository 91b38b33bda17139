//! The limits of a table and of what it is made from.

/// The most directed strips, two for each strip.
pub const MAX_DIRECTED: u16 = 128;

/// The longest duration of an acquisition, in ticks.
pub const MAX_DURATION: u32 = 1_000_000;

/// The longest manoeuvre, in ticks.
pub const MAX_MANOEUVRE: u32 = 1_000_000;
