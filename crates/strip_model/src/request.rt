//! Requests, which strips name by their numbers.

/// What a customer asks for: the strips that name it. Each unit of its area is worth `gain` when all of it is acquired, and
/// less by the curve when a part is.
#[derive(Clone, Copy, Debug, PartialEq, Eq)]
pub struct Request {
    /// The gain per unit of area, at most `MAX_GAIN`.
    pub gain: u32,
}
