//! Joins of forward labels and backward ones. [`joined`] tells exactly whether two labels join, by the law that [`joiner_laws`]
//! states, and what they gain together. [`best_pair`] finds the first of the pairs that gain most, [`best_pair_with`] the same
//! with threads, and [`first_over`] the first forward label that joins for more than a floor. They look at few pairs, and never
//! at a path: backward labels stand in groups by their last directed strip, in the order of their ends, and for the best pair
//! forward ones stand in the order of their bounds.
#![tactic(auto)]

mod best;
mod best_with;
mod entries;
mod entry;
mod first;
mod group;
mod grouping;
mod joining;
mod laws;
mod limits;
mod looks;
mod matching;
mod offers;
mod over;
mod pair;
mod ranked;
mod ranking;
mod references;
mod tip;
mod waiting;
mod walk;

pub use best::{best_pair, best_pair_of};
pub use best_with::{best_pair_of_with, best_pair_with};
pub use first::{first_over, first_over_of};
pub use joining::joined;
pub use laws::joiner_laws;
pub use limits::MAX_WORKERS;
pub use over::Over;
pub use pair::Pair;
