//! Checks logs. [`check`] accepts a log exactly where it keeps the eight rules of a proof, so the plan of an accepted log is
//! optimal; else it names the first rule that is broken and the first place. [`check_laws`] says that there is one such
//! fault, and that a log which has one is no proof.
#![tactic(auto)]

mod checking;
mod extending;
mod indexing;
mod joining;
mod laws;
mod listed;
mod listing;
mod marked;
mod marking;
mod naming;
mod planning;
mod reading;
mod seated;
mod standing;
mod times;
mod verdict;

pub use checking::check;
pub use laws::check_laws;
pub use verdict::Verdict;
