//! When labels are marked.

ghost use Rattle.std.specs.Prelude.{◌≡◌, ◌<◌, ◌≤◌, ℕ, length, take, get_or, IfOk, IfSome, if◌then◌else◌, ◌&&◌, ◌==◌, false};
ghost use Rattle.std.specs.Option.{option_map_or};
ghost use Rattle.log_check.specs.Times.{IsTimeTable, AreTimes, AllNamed, times_in};
ghost use Rattle.proof_log.specs.Labels.{paths_in, is_marked};

use crate::naming::{mark_at, marked_label, paths_of};
use proof_log::Log;
use std::alloc::{AllocError, Global};
use strip_model::End;

/// For each label of both sides the number of the first mark that marks it, and the number of marks where none does.
#[derive(Debug, Drop)]
pub(crate) struct Times {
    pub(crate) forward: Vec<usize>,
    pub(crate) backward: Vec<usize>,
}

/// When the labels of a log are marked: one pass over the marks for each side.
pub(crate) fn times_of(alloc: Global, log: &Log) -> Result<Times, AllocError>
    requires { AllNamed log.now }
    ensures { IfOk result (AreTimes log.now) }
{
    Ok(Times {
        forward: times_at(alloc, log, End::Forward)?,
        backward: times_at(alloc, log, End::Backward)?,
    })
}

// When the labels of a side are marked.
fn times_at(alloc: Global, log: &Log, end: End) -> Result<Vec<usize>, AllocError>
    requires { AllNamed log.now }
    ensures { IfOk result (λ times. IsTimeTable log.now end times.items) }
{
    let never = log.marks.len();
    let mut times = Vec::from_elem(alloc, never, paths_of(log, end).len())?;
    for j in 0..never {
        let label = marked_label(mark_at(log, j), end);
        note(&mut times, label, j, never);
    }
    Ok(times)
}

// Writes the number of a mark at the label that it marks, where none stood there before.
fn note(times: &mut Vec<usize>, label: Option<u32>, number: usize, never: usize)
    requires { IfSome label (λ k. k < length times.old.items) }
    ensures size { length times.new.items ≡ length times.old.items }
    ensures each { (k : ℕ) → get_or times.new.items k 0 ≡ (if option_map_or (λ l. l == k) label false && get_or times.old.items k 0 == never then number else get_or times.old.items k 0) }
{
    if let Some(label) = label {
        let at = label as usize;
        if times[at] == never {
            times[at] = number;
        }
    }
}

/// Whether one of the first `marks` marks marks a label.
pub(crate) fn is_marked_before(
    log: &Log,
    times: &Times,
    end: End,
    label: usize,
    marks: usize,
) -> bool
    requires times { AreTimes log.now times.now }
    requires label { label < length (paths_in log.now end) }
    requires marks { marks ≤ length log.now.marks.items }
    ensures { result ≡ is_marked end label (take marks log.now.marks.items) }
{
    times_of_side(times, end)[label] < marks
}

/// Whether a mark marks a label.
pub(crate) fn is_marked(log: &Log, times: &Times, end: End, label: usize) -> bool
    requires times { AreTimes log.now times.now }
    requires label { label < length (paths_in log.now end) }
    ensures { result ≡ is_marked end label log.now.marks.items }
{
    is_marked_before(log, times, end, label, log.marks.len())
}

// The numbers of a side.
fn times_of_side(times: &Times, end: End) -> &[usize]
    ensures { result.now ≡ times_in times.now end }
{
    match end {
        End::Forward => &times.forward,
        End::Backward => &times.backward,
    }
}
