//! The plain program that computes an optimal plan: it lists every order. It is slow, and stays plain, so that it can be read
//! beside the definition; solvers are compared with it in tests.
#![tactic(auto)]

mod exploring;

pub use exploring::best_plan;
