//! All labels of a side, one extension after another, for tests that go over them.

ghost use Rattle.std.specs.Prelude.{◌≡◌, ◌<◌, slice_get, length, All, IfOk, IfSome, OnOk, Some};
ghost use Rattle.joiner.specs.LabelJoins.{IsLabelAt};
ghost use Rattle.label.specs.Labels.{IsLabelOf};

use label::{Label, Side, extend, start};
use std::alloc::{AllocError, Global};
use std::test::Fail;
use strip_model::{Directed, End, Instance};

// No side has more labels here.
const MOST: usize = 40_000;

/// All labels of a side, each after the one that it extends. There are at most `MOST`.
pub fn all_labels(alloc: Global, side: &Side) -> Result<Vec<Label>, Fail>
    ensures { IfOk result (λ labels. All (IsLabelOf side.now) labels.items) }
{
    let mut labels = Vec::new(alloc);
    add_first(alloc, side, &mut labels)?;
    for place in 0..MOST {
        add_extensions_at(alloc, side, &mut labels, place)?;
    }
    if labels.len() > MOST {
        return Err("there are many labels".into());
    }
    Ok(labels)
}

/// All labels of an instance's side with this cut.
pub fn all_labels_at(
    alloc: Global,
    instance: &Instance,
    end: End,
    cut: u32,
) -> Result<Vec<Label>, Fail>
    ensures { IfOk result (λ labels. All (IsLabelAt instance.now end) labels.items) }
{
    let side = Side::new(alloc, instance, end, cut)?;
    let labels = all_labels(alloc, &side)?;
    Ok(labels)
}

/// How many directed strips an instance has.
pub fn directed_strips(instance: &Instance) -> u16 {
    2 * (instance.strips().len() as u16)
}

// Adds the labels of one directed strip.
fn add_first(alloc: Global, side: &Side, labels: &mut Vec<Label>) -> Result<(), Fail>
    requires { All (IsLabelOf side.now) labels.old.items }
    ensures { OnOk result (All (IsLabelOf side.now) labels.new.items) }
{
    for x in 0..directed_strips(side.instance()) {
        add_label_of(alloc, side, labels, Directed(x))?;
    }
    Ok(())
}

// Adds the label of `x` alone, if there is one.
fn add_label_of(
    alloc: Global,
    side: &Side,
    labels: &mut Vec<Label>,
    x: Directed,
) -> Result<(), Fail>
    requires { All (IsLabelOf side.now) labels.old.items }
    ensures { OnOk result (All (IsLabelOf side.now) labels.new.items) }
{
    if usize::from(x.strip()) >= side.instance().strips().len() {
        return Ok(());
    }
    match start(alloc, side, x)? {
        None => Ok(()),
        Some(label) => {
            labels.push(label)?;
            Ok(())
        }
    }
}

// Adds the labels that extend the one at a place, if there is one.
fn add_extensions_at(
    alloc: Global,
    side: &Side,
    labels: &mut Vec<Label>,
    place: usize,
) -> Result<(), Fail>
    requires { All (IsLabelOf side.now) labels.old.items }
    ensures { OnOk result (All (IsLabelOf side.now) labels.new.items) }
{
    if place >= labels.len() {
        return Ok(());
    }
    let stem = copy_at(alloc, side, labels, place)?;
    add_extensions(alloc, side, labels, &stem)
}

// A copy of the label at a place.
fn copy_at(alloc: Global, side: &Side, labels: &[Label], place: usize) -> Result<Label, AllocError>
    requires labels { All (IsLabelOf side.now) labels.now }
    requires place { place < length labels.now }
    ensures { IfOk result (IsLabelOf side.now) }
{
    let label = label_of(side, labels, place);
    let copy = label.copy(alloc)?;
    Ok(copy)
}

/// The label of a side at a place.
pub fn label_of<'a>(side: &Side, labels: &'a [Label], place: usize) -> &'a Label
    requires labels { All (IsLabelOf side.now) labels.now }
    requires place { place < length labels.now }
    ensures { IsLabelOf side.now result.now }
{
    let label = nth(labels, place);
    label
}

/// The label of an instance's end at a place.
pub fn label_at<'a>(instance: &Instance, end: End, labels: &'a [Label], place: usize) -> &'a Label
    requires labels { All (IsLabelAt instance.now end) labels.now }
    requires place { place < length labels.now }
    ensures { IsLabelAt instance.now end result.now }
{
    let label = nth(labels, place);
    label
}

// The label at a place.
fn nth(labels: &[Label], place: usize) -> &Label
    requires { place < length labels.now }
    ensures { slice_get labels.now place ≡ Some result.now }
{
    &labels[place]
}

// Adds the labels that extend this one.
fn add_extensions(
    alloc: Global,
    side: &Side,
    labels: &mut Vec<Label>,
    stem: &Label,
) -> Result<(), Fail>
    requires labels { All (IsLabelOf side.now) labels.old.items }
    requires stem { IsLabelOf side.now stem.now }
    ensures { OnOk result (All (IsLabelOf side.now) labels.new.items) }
{
    for x in 0..directed_strips(side.instance()) {
        add_extension(alloc, side, labels, stem, Directed(x))?;
    }
    Ok(())
}

// Adds the label that extends this one by `x`, if there is one.
fn add_extension(
    alloc: Global,
    side: &Side,
    labels: &mut Vec<Label>,
    stem: &Label,
    x: Directed,
) -> Result<(), Fail>
    requires labels { All (IsLabelOf side.now) labels.old.items }
    requires stem { IsLabelOf side.now stem.now }
    ensures { OnOk result (All (IsLabelOf side.now) labels.new.items) }
{
    if usize::from(x.strip()) >= side.instance().strips().len() {
        return Ok(());
    }
    match extend(alloc, side, stem, x)? {
        None => Ok(()),
        Some(label) => {
            labels.push(label)?;
            Ok(())
        }
    }
}

/// How many labels and roots there are: place 0 is the root, and place k + 1 label k.
pub(crate) fn places(labels: &[Label]) -> usize {
    labels.len() + 1
}

/// The label at a place, where None is the root.
pub(crate) fn label_in<'a>(
    instance: &Instance,
    end: End,
    labels: &'a [Label],
    place: usize,
) -> Option<&'a Label>
    requires { All (IsLabelAt instance.now end) labels.now }
    ensures { IfSome result (λ l. IsLabelAt instance.now end l.now) }
{
    if place == 0 || place > labels.len() {
        return None;
    }
    Some(label_at(instance, end, labels, place - 1))
}
