//! The extensions of labels that fall into one bucket.

ghost use Rattle.std.specs.Prelude.{◌≡◌, ◌<◌, length, IfOk};
ghost use Rattle.std.specs.List.{All};
ghost use Rattle.bucket.specs.declared.limits.TheConstants.{BUCKETS};
ghost use Rattle.label.specs.Labels.{IsLabelOf};
ghost use Rattle.strip_model.specs.Directed.{strip_of};

use bucket::BUCKETS;
use label::{Label, Side, extend};
use std::alloc::{AllocError, Global};
use std::cmp::Reverse;
use strip_model::Directed;

/// The extensions of labels by one directed strip that fall into a bucket, the greatest last start first. It fails for want of
/// memory alone.
pub(crate) fn extensions(
    alloc: Global,
    side: &Side,
    number: u8,
    labels: &[Label],
) -> Result<Vec<Label>, AllocError>
    requires number { number < BUCKETS }
    requires labels { All (IsLabelOf side.now) labels.now }
    ensures { IfOk result (λ fresh. All (IsLabelOf side.now) fresh.items) }
{
    let mut fresh = Vec::new(alloc);
    for k in 0..labels.len() {
        add_extensions(alloc, side, number, &labels[k], &mut fresh)?;
    }
    fresh.sort_by_key(|label| Reverse(label.start_of_last()))?;
    Ok(fresh)
}

// Adds those of one label.
fn add_extensions(
    alloc: Global,
    side: &Side,
    number: u8,
    label: &Label,
    fresh: &mut Vec<Label>,
) -> Result<(), AllocError>
    requires number { number < BUCKETS }
    requires label { IsLabelOf side.now label.now }
    requires fresh { All (IsLabelOf side.now) fresh.old.items }
    ensures { All (IsLabelOf side.now) fresh.new.items }
{
    let count = 2 * side.instance().strips().len() as u16;
    for turn in 0..=count / BUCKETS {
        let y = turn * BUCKETS + u16::from(number);
        if y < count {
            add_extension(alloc, side, label, Directed(y), fresh)?;
        }
    }
    Ok(())
}

// Adds the extension by one directed strip, if it is a label path.
fn add_extension(
    alloc: Global,
    side: &Side,
    label: &Label,
    y: Directed,
    fresh: &mut Vec<Label>,
) -> Result<(), AllocError>
    requires label { IsLabelOf side.now label.now }
    requires exists { strip_of y < length side.now.instance.strips }
    requires fresh { All (IsLabelOf side.now) fresh.old.items }
    ensures { All (IsLabelOf side.now) fresh.new.items }
{
    match extend(alloc, side, label, y)? {
        None => Ok(()),
        Some(longer) => {
            fresh.push(longer)?;
            Ok(())
        }
    }
}
