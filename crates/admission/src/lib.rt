//! How a label enters a core that is being searched. Of each side, for each directed strip, an antichain has the live labels
//! that end with it, none of which dominates another. [`admit`] inserts a new label and does at once what it makes possible;
//! [`gather`] makes the antichains of the labels that a core has already; [`prune`] cuts the labels of an antichain that the
//! incumbent leaves nothing to gain.
#![tactic(auto)]

mod clearing;
mod contests;
mod gathering;
mod newcomers;
mod pruning;

pub use gathering::gather;
pub use newcomers::admit;
pub use pruning::prune;
