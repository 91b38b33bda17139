//! Judges plans, and reads and writes their texts. [`judge`] tells exactly whether a plan is feasible, with its gain, or
//! else its first fault. A [`Published`] is a plan that was judged feasible, for one instance, with its gain. [`earliest`]
//! gives an order of directed strips its earliest starts. [`write_plan`] spells a plan, and [`read_plan`] reads exactly what
//! is so spelled, or names the first line that can't stand. Bytes are the text of one plan, or have one such line: those are
//! the laws [`plan_text_laws`].
#![tactic(auto)]

mod earliest_starts;
mod fault;
mod gain;
mod judging;
mod laws;
mod published;
mod reading;
mod refusal;
mod writing;

pub use earliest_starts::earliest;
pub use fault::PlanFault;
pub use gain::Gain;
pub use judging::judge;
pub use laws::{fault_laws, plan_text_laws};
pub use published::Published;
pub use reading::read_plan;
pub use refusal::PlanRefusal;
pub use writing::{put_plan_lines, write_plan};
