//! A first plan, by beam search: good, quickly found, and nothing is claimed of it but that it is feasible with earliest
//! starts. A search that begins with it cuts more of its labels at once. No proof of optimality rests on this crate.
#![tactic(auto)]

mod candidate;
mod followers;
mod narrowing;
mod outlook;
mod planning;
mod rank;
mod searching;

pub use planning::first_plan;

#[cfg(test)]
mod tests;
