//! What a worker keeps count of: how often it asked the gate, and whether it has a number at hand.

/// How often a worker has asked the gate, and whether it has a number at hand: one that it drew, and that no insertion has used.
#[derive(Clone, Copy, Debug, PartialEq, Eq)]
pub(crate) struct Tally {
    pub(crate) step: u64,
    pub(crate) spare: bool,
}
