//! Windows: the possible starts in one direction, and how long it takes.

/// When a strip can be acquired in one direction, in ticks. The start lies between `early` and `late`, ends included.
/// Where `early` is above `late` the direction is closed.
#[derive(Clone, Copy, Debug, PartialEq, Eq)]
pub struct Window {
    /// The first possible start.
    pub early: u32,
    /// The last possible start.
    pub late: u32,
    /// How long the acquisition takes, at least 1.
    pub duration: u32,
}
