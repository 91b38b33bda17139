//! The top calls: the words and the bytes of the program in, its answer out.
//!
//! [`run`] solves with as many workers as the words ask for, and [`run_gated`] has each worker ask a gate before each of its calls;
//! both may wait. [`run_alone`] does the same jobs by one thread, and returns. Their clauses are in one text, `Runs` in
//! `specs/Run.antt`, and are the theorem of the README. [`search`] is the search of workers alone, on a board of the caller's.
#![tactic(auto)]

mod answer;
mod answering;
mod checking;
mod finding;
mod laws;
mod limits;
mod opening;
mod running;
mod scoring;
mod searching;
mod solution;
mod solving;
mod status;
mod stop;
mod task;
mod texts;
mod trying;

pub use command_line::{
    DEFAULT_BUDGET, DEFAULT_SEED, DEFAULT_SIZE, DEFAULT_WORKERS, Job, JobRefusal, MAX_SEED,
    MAX_WORKERS, job_of,
};
pub use laws::budget_laws;
pub use limits::{MAX_CHECK_INPUT, MAX_SCORE_INPUT, MAX_SOLVE_INPUT};
pub use running::{run, run_alone, run_gated};
pub use searching::search;
pub use status::Status;
