//! What the words of a command line ask for.
//!
//! [`job_of`] finds the one [`Job`] that the words have, or refuses them. Words in the plain form, a command and options behind it,
//! are read here; others by the toolchain's `clap`. The crate promises
//!
//! - that a job is found only where the words ask for it, that words are refused only where they ask for none or memory ran out,
//!   which it never does over words in the plain form, and that words ask for one job at most;
//! - that the numbers of each job are in range: a budget, a cut, a size, and a number of workers up to [`MAX_WORKERS`].
//!
//! [`fault_line`] names a wrong word for people; nothing is promised of it.
#![tactic(auto)]

mod command;
mod job;
mod limits;
mod line;
mod option;
mod settings;

pub use job::{
    DEFAULT_BUDGET, DEFAULT_SEED, DEFAULT_SIZE, DEFAULT_WORKERS, Job, JobRefusal, job_of,
};
pub use joiner::MAX_WORKERS;
pub use limits::MAX_SEED;
pub use line::fault_line;
