//! How a call begins.

use crate::answer::Answer;
use crate::task::Task;

/// How a call begins.
#[derive(Drop)]
pub(crate) enum Opening {
    /// With its answer, for which nobody has to search.
    Answered(Answer),
    /// With a search, whoever does it. What it comes to is the answer.
    Search(Task),
}
