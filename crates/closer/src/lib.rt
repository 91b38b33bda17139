//! The search that closes a core. [`finish`] goes on from a given core by a careful run: it extends what waits in the order of
//! last starts, and ends where nothing is left to extend, or where the budget of labels is reached. What it answers says which,
//! with what holds of the core then. [`finish_with`] is the same with threads, which together look for what is extended by all
//! already, and for the best pair of labels.
#![tactic(auto)]

mod agenda;
mod crew;
mod exploring;
mod extension;
mod finishing;
mod growing;
mod joining;
mod looking;
mod opening;
mod outcome;
mod queue;
mod starts;
mod sweeping;
mod wait;

pub use finishing::{finish, finish_with};
pub use outcome::Outcome;
