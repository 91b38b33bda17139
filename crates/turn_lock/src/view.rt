//! What a pass knows of its lock, in proofs alone.

use std::collections::LinkedList;

/// An entry, and its place in the history.
pub struct Placed<E> {
    pub place: u64,
    pub entry: E,
}

/// Whether a pass has a ticket, and whether it holds the turn.
pub enum Stage<E> {
    /// No ticket.
    Idle,
    /// This ticket, which is not served yet.
    Waiting(u64),
    /// This ticket, which is served, and the history that was found.
    Holding(u64, LinkedList<E>),
}

/// What a pass knows of its lock. No value of it is ever made.
pub struct View<E, F> {
    pub seen: LinkedList<E>,
    pub told: LinkedList<E>,
    pub own: LinkedList<Placed<E>>,
    pub joined: LinkedList<LinkedList<Placed<E>>>,
    pub stage: Stage<E>,
    pub frame: Option<F>,
    pub weight: u64,
}
