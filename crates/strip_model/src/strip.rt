//! Strips: what is acquired, with a window in each direction.

use crate::Window;

/// A ground strip, acquired at most once, in one of two opposite directions.
#[derive(Clone, Copy, Debug, PartialEq, Eq)]
pub struct Strip {
    /// The number of its request.
    pub request: u16,
    /// The other strip of its stereoscopic pair, if it has one.
    pub twin: Option<u16>,
    /// Its share of the request's area, from 1 to `MAX_STRIP_AREA`.
    pub area: u32,
    /// Its window in direction 0 and in direction 1.
    pub windows: [Window; 2],
}
