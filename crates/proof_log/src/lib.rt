//! Logs: how a search shows that a plan is optimal. A [`Log`] has the plan, the label paths of both sides, and the marks
//! that retire or cut a label. Whoever wrote it, the plan of a log that keeps the eight rules of `IsProof` is optimal:
//! that is the law [`proof_laws`]. The text of an answer, with a log or without, stands for one answer: that is the law
//! [`log_text_laws`].
#![tactic(auto)]

mod front;
mod labels;
mod laws;
mod limits;
mod lines;
mod log;
mod mark;
mod marks;
mod reading;
mod refusal;
mod text_laws;
mod unread;
mod writing;

pub use laws::proof_laws;
pub use limits::{GAIN_UNIT, MAX_LABELS};
pub use log::Log;
pub use mark::Mark;
pub use reading::read;
pub use refusal::{LogCause, LogRefusal};
pub use text_laws::log_text_laws;
pub use writing::{put_answer_lines, put_best_lines, write};
