//! The log of a core.

ghost use Rattle.std.specs.Prelude.{◌≡◌, ◌<◌, ◌++◌, ◌∷◌, [], length, map, set, replicate, get_or, IfOk, OnOk};
ghost use Rattle.bucket.specs.declared.limits.TheConstants.{BUCKETS};
ghost use Rattle.label_core.specs.Closed.{IsClosed};
ghost use Rattle.label_core.specs.CoreState.{Note, buckets_of, labels_in, marked_by, IsThere, NamesThere};
ghost use Rattle.label_core.specs.LogOf.{IsLogOf, all_paths, number, mark_of, by_bucket, in_order, items_of};
ghost use Rattle.label_core.specs.SortedMarks.{AreSorted, lists_of};
ghost use Rattle.proof_log.specs.Rules.{IsProof};

use crate::names::is_same_end;
use crate::{Core, Note};
use bucket::{BUCKETS, Id};
use proof_log::{Log, Mark};
use std::alloc::{AllocError, Global};
use strip_model::{Directed, End};

/// The log of a core: its incumbent with its gain, the cut, the paths of its labels, numbered by bucket and then by place, and
/// its marks, those of the forward side first, by bucket, and in each in the order in which they came. Where the core is closed,
/// its log is a proof. It fails for want of memory alone.
pub fn log_of(alloc: Global, core: &Core<'_>) -> Result<Log, AllocError>
    ensures log { IfOk result (IsLogOf core.now.instance core.now.cut core.now.state) }
    ensures proof { IfOk result (λ log. IsClosed core.now.instance core.now.cut core.now.state → IsProof core.now.instance log) }
{
    let forward = paths_of(alloc, core, End::Forward)?;
    let backward = paths_of(alloc, core, End::Backward)?;
    let marks = marks_of(alloc, core)?;
    let plan = Vec::from_slice(alloc, core.plan())?;
    Ok(Log {
        cut: core.side(End::Forward).cut(),
        gain: core.gain(),
        plan,
        forward,
        backward,
        marks,
    })
}

// The paths of a side's labels, bucket after bucket.
fn paths_of(alloc: Global, core: &Core<'_>, end: End) -> Result<Vec<Vec<Directed>>, AllocError>
    ensures { IfOk result (λ paths. items_of paths.items ≡ all_paths (buckets_of core.now.state end)) }
{
    // For its clause: what legal steps reach has all its buckets.
    let _ = core.labels();
    let mut paths = Vec::new(alloc);
    for bucket in 0..BUCKETS as u8 {
        add_paths(alloc, core, end, bucket, &mut paths)?;
    }
    Ok(paths)
}

// Adds the paths of a bucket's labels.
fn add_paths(
    alloc: Global,
    core: &Core<'_>,
    end: End,
    bucket: u8,
    paths: &mut Vec<Vec<Directed>>,
) -> Result<(), AllocError>
    requires { bucket < BUCKETS }
    ensures { OnOk result (items_of paths.new.items ≡ items_of paths.old.items ++ map (λ h. h.path) (labels_in core.now.state end bucket)) }
{
    for index in 0..core.count(end, bucket) {
        let path = Vec::from_slice(alloc, core.path_of(Id { end, bucket, index }))?;
        paths.push(path)?;
    }
    Ok(())
}

// The marks of a core, in the order of a log.
fn marks_of(alloc: Global, core: &Core<'_>) -> Result<Vec<Mark>, AllocError>
    ensures { IfOk result (λ marks. marks.items ≡ map (mark_of core.now.state) (in_order core.now.state.notes)) }
{
    let mut marks = Vec::with_capacity(alloc, core.notes().len())?;
    add_side(alloc, core, End::Forward, &mut marks)?;
    add_side(alloc, core, End::Backward, &mut marks)?;
    Ok(marks)
}

// Adds the marks of a side, bucket after bucket.
fn add_side(
    alloc: Global,
    core: &Core<'_>,
    end: End,
    marks: &mut Vec<Mark>,
) -> Result<(), AllocError>
    ensures { OnOk result (marks.new.items ≡ marks.old.items ++ map (mark_of core.now.state) (by_bucket end BUCKETS core.now.state.notes)) }
{
    let sorted = sorted_marks(alloc, core, end)?;
    for bucket in 0..BUCKETS as u8 {
        marks.extend_from_slice(marks_at(&sorted, bucket))?;
    }
    Ok(())
}

// The marks of a side, those of each bucket in the order in which they came.
fn sorted_marks(alloc: Global, core: &Core<'_>, end: End) -> Result<Vec<Vec<Mark>>, AllocError>
    ensures { IfOk result (λ sorted. AreSorted core.now.state end core.now.state.notes (lists_of sorted.items)) }
{
    // For its clause: what legal steps reach has all its buckets, and its marks name labels in them.
    let _ = core.labels();
    let mut sorted = no_marks(alloc)?;
    for k in 0..core.notes().len() {
        let note = note_at(core, k);
        let label = marked_by(note);
        if is_same_end(label.end, end) {
            add_mark(&mut sorted, label.bucket, mark_of(core, note))?;
        }
    }
    Ok(sorted)
}

// No marks, for each bucket.
fn no_marks(alloc: Global) -> Result<Vec<Vec<Mark>>, AllocError>
    ensures { IfOk result (λ sorted. lists_of sorted.items ≡ replicate BUCKETS []) }
{
    let mut sorted = Vec::with_capacity(alloc, usize::from(BUCKETS))?;
    for _ in 0..BUCKETS {
        sorted.push(Vec::new(alloc))?;
    }
    Ok(sorted)
}

// Adds a mark to those of a bucket.
fn add_mark(sorted: &mut Vec<Vec<Mark>>, bucket: u8, mark: Mark) -> Result<(), AllocError>
    requires { bucket < length (lists_of sorted.old.items) }
    ensures { OnOk result (lists_of sorted.new.items
        ≡ set (lists_of sorted.old.items) bucket (get_or (lists_of sorted.old.items) bucket [] ++ mark ∷ [])) }
{
    sorted[usize::from(bucket)].push(mark)?;
    Ok(())
}

// The marks of a bucket.
fn marks_at(sorted: &Vec<Vec<Mark>>, bucket: u8) -> &[Mark]
    requires { bucket < length (lists_of sorted.now.items) }
    ensures { result.now ≡ get_or (lists_of sorted.now.items) bucket [] }
{
    &sorted[usize::from(bucket)]
}

// A mark of the core.
fn note_at(core: &Core<'_>, k: usize) -> Note
    requires { k < length core.now.state.notes }
    ensures value { (d : Note) → result ≡ get_or core.now.state.notes k d }
    ensures there { NamesThere core.now.state result }
{
    core.notes()[k]
}

// The label that is marked.
fn marked_by(note: Note) -> Id
    ensures { result ≡ marked_by note }
{
    match note {
        Note::Retires { label, by: _ } => label,
        Note::Cuts { label } => label,
    }
}

// The mark of the log for a mark of the core.
fn mark_of(core: &Core<'_>, note: Note) -> Mark
    requires { NamesThere core.now.state note }
    ensures { result ≡ mark_of core.now.state note }
{
    match note {
        Note::Retires { label, by } => Mark::Retire {
            end: label.end,
            label: number_of(core, label),
            by: number_of(core, by),
        },
        Note::Cuts { label } => Mark::Cut {
            end: label.end,
            label: number_of(core, label),
        },
    }
}

// The number of a label in its side: as many labels as stand in earlier buckets, and its place in its own.
fn number_of(core: &Core<'_>, id: Id) -> u32
    requires { IsThere core.now.state id }
    ensures { result ≡ number core.now.state id }
{
    // For its clause: all numbers are below the number of labels.
    let _ = core.labels();
    let mut number = id.index;
    for bucket in 0..id.bucket {
        number += core.count(id.end, bucket);
    }
    number
}
