//! The fifth and the sixth rule: what marks say of labels.

ghost use Rattle.std.specs.Prelude.{◌≡◌, ℕ, ◌<◌, ◌≤◌, ◌↔◌, length, take, IsTrue};
ghost use Rattle.log_check.specs.Faults.{Rule, Keeps, IsTested};
ghost use Rattle.proof_log.specs.Labels.{paths_in, path_at};
ghost use Rattle.proof_log.specs.Rules.{MayRetire, MayCut};
ghost use Rattle.strip_model.specs.Dominance.{Dominates};
ghost use Rattle.strip_model.specs.Reach.{bound};
ghost use Rattle.strip_model.specs.Side.{facing};

use crate::listed::Listed;
use crate::marked::Marked;
use label::{bound_of, brief_dominates};
use proof_log::Mark;
use strip_model::End;

/// The first mark that retires a label though it may not, or none.
pub(crate) fn first_unretired(marked: &Marked<'_>) -> Option<u64>
    ensures { IsTested marked.now.instance marked.now.log Rule.RetiredAreDominated result }
{
    for j in 0..marked.marks() {
        if !keeps_retire_rule(marked, j) {
            return Some(j as u64);
        }
    }
    None
}

// Whether mark j retires no label that it may not.
fn keeps_retire_rule(marked: &Marked<'_>, j: usize) -> bool
    requires { j < length marked.now.log.marks.items }
    ensures { IsTrue result ↔ Keeps marked.now.instance marked.now.log Rule.RetiredAreDominated j }
{
    match marked.mark(j) {
        Mark::Cut { .. } => true,
        Mark::Retire { end, label, by } => {
            may_retire(marked, j, end, label as usize, by as usize)
        }
    }
}

// Whether after the first j marks label b may retire label a.
fn may_retire(marked: &Marked<'_>, j: usize, end: End, a: usize, b: usize) -> bool
    requires there { j ≤ length marked.now.log.marks.items }
    requires named { (a < length (paths_in marked.now.log end)) × (b < length (paths_in marked.now.log end)) }
    ensures { IsTrue result ↔ MayRetire marked.now.instance marked.now.log (take j marked.now.log.marks.items) end a b }
{
    if a == b {
        return false;
    }
    if marked.is_marked_before(end, a, j) {
        return false;
    }
    if marked.is_marked_before(end, b, j) {
        return false;
    }
    label_dominates(marked.listed(), end, b, a)
}

// Whether label b of a side dominates label a.
fn label_dominates(listed: &Listed<'_>, end: End, b: usize, a: usize) -> bool
    requires b { b < length (paths_in listed.now.log end) }
    requires a { a < length (paths_in listed.now.log end) }
    ensures { IsTrue result ↔ Dominates (facing listed.now.instance end) (path_at listed.now.log end b) (path_at listed.now.log end a) }
{
    let b = listed.brief(end, b);
    let a = listed.brief(end, a);
    brief_dominates(listed.reading().side(end), &b, &a)
}

/// The first mark that cuts a label though it may not, or none.
pub(crate) fn first_uncut(marked: &Marked<'_>) -> Option<u64>
    ensures { IsTested marked.now.instance marked.now.log Rule.CutAreBounded result }
{
    for j in 0..marked.marks() {
        if !keeps_cut_rule(marked, j) {
            return Some(j as u64);
        }
    }
    None
}

// Whether mark j cuts no label that it may not.
fn keeps_cut_rule(marked: &Marked<'_>, j: usize) -> bool
    requires { j < length marked.now.log.marks.items }
    ensures { IsTrue result ↔ Keeps marked.now.instance marked.now.log Rule.CutAreBounded j }
{
    match marked.mark(j) {
        Mark::Retire { .. } => true,
        Mark::Cut { end, label } => may_cut(marked, j, end, label as usize),
    }
}

// Whether after the first j marks label a may be cut.
fn may_cut(marked: &Marked<'_>, j: usize, end: End, a: usize) -> bool
    requires there { j ≤ length marked.now.log.marks.items }
    requires named { a < length (paths_in marked.now.log end) }
    ensures { IsTrue result ↔ MayCut marked.now.instance marked.now.log (take j marked.now.log.marks.items) end a }
{
    if marked.is_marked_before(end, a, j) {
        return false;
    }
    label_bound(marked.listed(), end, a) <= marked.listed().reading().log().gain
}

// The bound of a label.
fn label_bound(listed: &Listed<'_>, end: End, a: usize) -> u64
    requires { a < length (paths_in listed.now.log end) }
    ensures { result ≡ bound (facing listed.now.instance end) (path_at listed.now.log end a) }
{
    let brief = listed.brief(end, a);
    bound_of(listed.reading().side(end), &brief)
}
