//! The labels of a side that no mark marks.

ghost use Rattle.std.specs.Prelude.{◌≡◌, ◌<◌, length, slice_get, Some, IfOk};
ghost use Rattle.log_check.specs.Standing.{AreStanding};

use crate::marked::Marked;
use label::Label;
use std::alloc::{AllocError, Global};
use strip_model::End;

/// Labels of a side that no mark marks, in their order, and the number of each.
#[derive(Drop)]
pub(crate) struct Standing {
    pub(crate) labels: Vec<Label>,
    pub(crate) places: Vec<u32>,
}

impl Standing {
    /// The label at a place of the list.
    pub(crate) fn label(&self, i: usize) -> &Label
        requires { i < length self.now.labels.items }
        ensures { slice_get self.now.labels.items i ≡ Some result.now }
    {
        &self.labels[i]
    }

    /// The number of the label at a place of the list.
    pub(crate) fn place(&self, i: usize) -> u32
        requires { i < length self.now.places.items }
        ensures { slice_get self.now.places.items i ≡ Some result }
    {
        self.places[i]
    }
}

/// The labels of a side that no mark marks. It fails for want of memory alone.
pub(crate) fn standing_at(
    alloc: Global,
    marked: &Marked<'_>,
    end: End,
) -> Result<Standing, AllocError>
    ensures { IfOk result (AreStanding marked.now.instance marked.now.log end) }
{
    let listed = marked.listed();
    let mut labels = Vec::new(alloc);
    let mut places = Vec::new(alloc);
    for k in 0..listed.reading().paths(end).len() {
        if marked.is_marked(end, k) {
            continue;
        }
        labels.push(listed.restore(alloc, end, k)?)?;
        places.push(k as u32)?;
    }
    Ok(Standing { labels, places })
}
