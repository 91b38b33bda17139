//! The fourth rule: marks name labels that are there.

ghost use Rattle.std.specs.Prelude.{◌≡◌, ◌<◌, ◌↔◌, ℕ, IsTrue, length, slice_get, Some, false, ◌==◌};
ghost use Rattle.std.specs.Option.{option_map_or};
ghost use Rattle.log_check.specs.Faults.{Rule, IsTested};
ghost use Rattle.log_check.specs.Paths.{plain};
ghost use Rattle.proof_log.specs.Labels.{paths_in, is_mark_of};
ghost use Rattle.proof_log.specs.Rules.{NamesLabels};
ghost use Rattle.strip_model.specs.Orbit.{Orbit};

use proof_log::{Log, Mark};
use strip_model::{Directed, End};

/// The first mark that names a label that isn't there, or none.
pub(crate) fn first_unnamed(log: &Log) -> Option<u64>
    ensures { (I : Orbit) → IsTested I log.now Rule.MarksNameLabels result }
{
    for j in 0..log.marks.len() {
        if !names_labels(log, mark_at(log, j)) {
            return Some(j as u64);
        }
    }
    None
}

/// The mark of a number.
pub(crate) fn mark_at(log: &Log, j: usize) -> Mark
    requires { j < length log.now.marks.items }
    ensures { slice_get log.now.marks.items j ≡ Some result }
{
    log.marks[j]
}

// Whether the labels that a mark names are there.
fn names_labels(log: &Log, mark: Mark) -> bool
    ensures { IsTrue result ↔ NamesLabels log.now mark }
{
    match mark {
        Mark::Retire { end, label, by } => {
            let count = paths_of(log, end).len();
            (label as usize) < count && (by as usize) < count
        }
        Mark::Cut { end, label } => (label as usize) < paths_of(log, end).len(),
    }
}

/// The paths of a side.
pub(crate) fn paths_of(log: &Log, end: End) -> &[Vec<Directed>]
    ensures value { plain result.now ≡ paths_in log.now end }
    ensures count { length result.now ≡ length (paths_in log.now end) }
{
    match end {
        End::Forward => &log.forward,
        End::Backward => &log.backward,
    }
}

/// The label of this side that a mark marks, if it marks one of this side.
pub(crate) fn marked_label(mark: Mark, end: End) -> Option<u32>
    ensures { (k : ℕ) → is_mark_of end k mark ≡ option_map_or (λ label. label == k) result false }
{
    let (of, label) = match mark {
        Mark::Retire { end, label, .. } => (end, label),
        Mark::Cut { end, label } => (end, label),
    };
    if of == end { Some(label) } else { None }
}
