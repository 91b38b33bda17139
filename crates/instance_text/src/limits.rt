/// The greatest number of bytes of a text: the number of each of its lines, and of the line past its last, is a `u32`.
pub const MAX_TEXT_BYTES: usize = u32::MAX as usize - 1;

// The lines before those that tell the requests: the version.
pub(crate) const HEAD_LINES: usize = 1;
