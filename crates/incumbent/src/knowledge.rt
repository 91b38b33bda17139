//! What one share knows of the word, in proofs alone.

/// A share's view of the word, in the proofs alone: no value of it is made.
pub struct Knowledge {
    /// The greatest number that it has seen in the word.
    pub seen: u64,
    /// The greatest worth that it has offered, or a share that was joined into it.
    pub offered: u64,
    /// Its part of the whole weight.
    pub weight: u64,
}
