//! Makes instances of any size up to the limit from a seed, for examples, tests and measurements.
//!
//! The promise of this crate: [`make`] gives the instance that the definition `made` names, a function of the seed and the
//! size alone. So a seed and a size are enough to have the same instance again.
#![tactic(auto)]

mod draws;
mod limits;
mod maker;
mod manoeuvres;
mod placed;
mod requests;
mod windows;

pub use limits::{MAX_END, MAX_SIZE};
pub use maker::make;
