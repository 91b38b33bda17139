//! What comes of a search.

use label_core::Core;

/// The last state of a search, and whether anything is left open.
#[derive(Drop)]
pub enum Outcome<'a> {
    /// Nothing is: the core is closed, so its incumbent gains most of all feasible plans.
    Optimal {
        /// The last state.
        core: Core<'a>,
    },
    /// The budget of labels is reached, and an extension of a root or live label is missing.
    Open {
        /// The last state.
        core: Core<'a>,
    },
}
