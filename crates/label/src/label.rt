//! Labels: a path, with what follows from it and the side.

ghost use Rattle.std.specs.Prelude.{◌≡◌, IfOk};
ghost use Rattle.label.specs.Labels.{IsLabelOf};
ghost use Rattle.strip_model.specs.Side.{Face};

use std::alloc::{AllocError, Global};
use strip_model::{Directed, End};
use strip_set::DirectedSet;

/// A label path of a side, with what is asked of it again and again. Which side it is of, a contract says by `IsLabelOf`.
#[derive(Debug, Drop)]
pub struct Label {
    // The end from which the path begins.
    pub(crate) end: End,
    // The directed strips, the first first.
    pub(crate) path: Vec<Directed>,
    // The last of the path.
    pub(crate) last: Directed,
    // The earliest start of the last, in ticks of the side.
    pub(crate) start: u32,
    // The directed strips of the path.
    pub(crate) visited: DirectedSet,
    // Those of them whose strip has a twin that the path lacks.
    pub(crate) lone: DirectedSet,
}

impl Label {
    /// The end from which the path begins.
    pub fn end(&self) -> End
        ensures { result ≡ self.now.end }
    {
        self.end
    }

    /// The directed strips of the path, the first first: from a side's end on.
    pub fn path(&self) -> &[Directed]
        ensures { result.now ≡ self.now.path.items }
    {
        &self.path
    }

    /// The last directed strip of the path.
    pub fn last(&self) -> Directed
        ensures { result ≡ self.now.last }
    {
        self.last
    }

    /// The earliest start of the path's last acquisition, in ticks from the side's end.
    pub fn start_of_last(&self) -> u32
        ensures { result ≡ self.now.start }
    {
        self.start
    }

    /// The directed strips of the path whose strip has a twin that doesn't stand in it.
    pub fn open(&self) -> DirectedSet
        ensures { result ≡ self.now.lone }
    {
        self.lone
    }

    /// The directed strips of the path, as a set.
    pub fn visited(&self) -> DirectedSet
        ensures { result ≡ self.now.visited }
    {
        self.visited
    }

    /// The same label once more. It fails for want of memory alone.
    pub fn copy(&self, alloc: Global) -> Result<Label, AllocError>
        ensures path { IfOk result (λ label. label.path.items ≡ self.now.path.items) }
        ensures side { IfOk result (λ label. (S : Face) → IsLabelOf S self.now → IsLabelOf S label) }
    {
        Ok(Label {
            end: self.end,
            path: Vec::from_slice(alloc, &self.path)?,
            last: self.last,
            start: self.start,
            visited: self.visited,
            lone: self.lone,
        })
    }
}
