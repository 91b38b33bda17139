//! The answer to an offer: whether it raised the word, and what the word was just before.

/// What an offer did to the word. `old` is the word just before.
#[derive(Clone, Copy, Debug, PartialEq, Eq)]
pub enum Offered {
    /// The plan is worth more than the word was, and the word is now its worth.
    Raised { old: u64 },
    /// The plan is worth no more than the word, which stays.
    Kept { old: u64 },
}
