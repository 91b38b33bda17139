//! What may come next in a core, as a caller asks for it.

use bucket::Id;
use strip_model::{Acquisition, Directed, End};

/// What may come next in a core.
#[derive(Debug, Drop)]
pub enum Event {
    /// A label path of a side, which isn't there yet, gets a label that waits.
    Insert {
        end: End,
        path: Vec<Directed>,
    },
    /// A label that waits is taken.
    Take {
        id: Id,
    },
    /// A live label is retired by another live label of its side, which dominates it.
    Retire {
        id: Id,
        by: Id,
    },
    /// A live label is cut, whose bound is at most the incumbent's gain.
    Cut {
        id: Id,
    },
    /// A feasible plan, which gains at least what the incumbent gains, becomes the incumbent.
    Publish {
        plan: Vec<Acquisition>,
    },
    /// A live forward label and a live backward one, or the root where there is no name, join: their plan, which gains at least
    /// what the incumbent gains, becomes the incumbent.
    Join {
        forward: Option<Id>,
        backward: Option<Id>,
    },
}
