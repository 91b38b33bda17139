//! The labels of paths that anyone may have written.

ghost use Rattle.std.specs.Prelude.{◌≡◌, [], ◌∷◌, ◌++◌, ◌<◌, ◌↔◌, length, IfOk, OnOk, IsTrue, MatchOption};
ghost use Rattle.label.specs.Labels.{IsFace, IsLabelOf, IsLabelWith, IsNext};
ghost use Rattle.label.specs.Restoring.{IsRestored, IsLengthened};
ghost use Rattle.strip_model.specs.Directed.{strip_of};
ghost use Rattle.strip_model.specs.LabelPath.{LabelPath};

use crate::extending::{first_label, first_start, next_start, open_with};
use crate::{Label, Side};
use std::alloc::{AllocError, Global};
use strip_model::Directed;

/// The label of a path that anyone may have written, and None where it is no label path of this side. Any list of directed
/// strips is taken. The path is gone over once, and its memory is taken once. It fails for want of memory alone.
pub fn restore(alloc: Global, side: &Side, path: &[Directed]) -> Result<Option<Label>, AllocError>
    ensures { IfOk result (λ o. MatchOption o (¬ LabelPath side.now path.now) (λ l. (l.path.items ≡ path.now) × IsLabelOf side.now l)) }
{
    let Some((first, rest)) = path.split_first() else {
        return Ok(None);
    };
    match begun(alloc, side, *first, path.len())? {
        None => Ok(None),
        Some(label) => continued(side, label, rest),
    }
}

// The label of one directed strip, whose strip may not exist, with memory for a path of `room` directed strips.
fn begun(alloc: Global, side: &Side, x: Directed, room: usize) -> Result<Option<Label>, AllocError>
    ensures { IfOk result (IsRestored side.now (x ∷ [])) }
{
    if !exists(side, x) {
        return Ok(None);
    }
    match first_start(side, x) {
        None => Ok(None),
        Some(start) => {
            let label = first_label(alloc, side, x, start, room)?;
            Ok(Some(label))
        }
    }
}

// The label with these directed strips after its path.
fn continued(side: &Side, label: Label, rest: &[Directed]) -> Result<Option<Label>, AllocError>
    requires { IsLabelOf side.now label }
    ensures { IfOk result (IsRestored side.now (label.path.items ++ rest.now)) }
{
    let mut longer = label;
    for x in rest {
        if !lengthen(side, &mut longer, *x)? {
            return Ok(None);
        }
    }
    Ok(Some(longer))
}

// Puts a directed strip, whose strip may not exist, after the last of the label's path, if that makes a label path. Tells
// whether it does.
fn lengthen(side: &Side, label: &mut Label, x: Directed) -> Result<bool, AllocError>
    requires { IsLabelOf side.now label.old }
    ensures { IfOk result (λ longer. IsLengthened side.now label.old.path.items x label.new longer) }
{
    if !exists(side, x) {
        return Ok(false);
    }
    match next_start(side, label, x) {
        None => Ok(false),
        Some(start) => {
            put_last(side, label, x, start)?;
            Ok(true)
        }
    }
}

// Puts `x` after the last of the label's path, at this earliest start.
fn put_last(side: &Side, label: &mut Label, x: Directed, start: u32) -> Result<(), AllocError>
    requires face { IsFace side.now }
    requires label { IsLabelOf side.now label.old }
    requires next { IsNext side.now label.old.path.items x start }
    ensures { OnOk result (IsLabelWith side.now (label.old.path.items ++ x ∷ []) label.new) }
{
    label.path.push(x)?;
    label.lone = open_with(side, label.visited, label.lone, x);
    label.visited = label.visited.with(x.0);
    label.last = x;
    label.start = start;
    Ok(())
}

// Whether the strip of a directed strip exists.
fn exists(side: &Side, x: Directed) -> bool
    ensures value { IsTrue result ↔ (strip_of x < length side.now.instance.strips) }
    ensures sound { IsFace side.now }
{
    usize::from(x.strip()) < side.instance().strips().len()
}
