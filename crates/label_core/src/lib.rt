//! The core of the search: the labels of both sides with their states, the marks in the order in which they came, and the
//! best plan so far. It changes by legal steps alone, and a closed state that legal steps reach leaves a log that is a proof:
//! that is the law [`core_laws`].
#![tactic(auto)]

mod both_sides;
mod event;
mod laws;
mod limits;
mod logging;
mod machine;
mod names;
mod note;
mod refusal;
mod side_labels;
mod stepping;
mod tracing;

pub use event::Event;
pub use laws::core_laws;
pub use limits::MAX_CORE_LABELS;
pub use logging::log_of;
pub use machine::Core;
pub use note::Note;
pub use refusal::StepRefusal;
pub use stepping::step;
