//! The limits of what is kept of labels.

/// The greatest number of labels in one list, so that their names and places, and one more for a root, are 32-bit numbers.
pub const MAX_LISTED: u32 = 4_294_967_294;
