//! What a drawer knows of its word, in proofs alone.

use std::collections::LinkedList;

/// What a drawer knows of its word. No value of it is ever made.
pub struct View {
    /// The numbers that it drew, in order.
    pub own: LinkedList<u64>,
    /// The own numbers of each drawer that was joined into it, and of those that were joined into these.
    pub joined: LinkedList<LinkedList<u64>>,
    /// The number that it keeps, where it draws no more.
    pub kept: Option<u64>,
    /// The budget of the word.
    pub budget: u64,
    /// Its part of the whole weight.
    pub weight: u64,
}
