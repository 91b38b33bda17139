//! Antichains: labels with the same last directed strip, of which none dominates another, kept by their ids with their
//! outlines, in rising order of their starts. What can dominate a label starts no later than it, and what it can dominate no
//! earlier, so that each search goes along a part of the labels alone.
#![tactic(auto)]

mod antichain;
mod dominating;
mod member;
mod places;
mod room;
mod sifting;
#[cfg(test)]
mod tests;

pub use antichain::Antichain;
pub use member::Member;
