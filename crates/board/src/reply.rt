//! What a queue answered: for which end, and the id that it gave, or none.

use bucket::Id;
use strip_model::End;

/// What a call for the next id of an end answered: the id, or that the queue had none.
#[derive(Clone, Copy, Debug, PartialEq, Eq, Drop)]
pub struct Reply {
    /// the end whose queue was asked
    pub end: End,
    /// the id that it gave
    pub id: Option<Id>,
}
