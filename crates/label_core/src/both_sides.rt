//! The labels of both sides of a core, by the end from which their paths begin.

ghost use Rattle.std.specs.Prelude.{◌≡◌, ◌+◌, ◌<◌, ◌↔◌, [], ◌∷◌, ◌++◌, length, sum_by, IsTrue, IfOk, MatchResult};
ghost use Rattle.bucket.specs.Histories.{bucket_of};
ghost use Rattle.bucket.specs.declared.limits.TheConstants.{BUCKETS};
ghost use Rattle.label.specs.Briefs.{IsBriefOf};
ghost use Rattle.label.specs.Labels.{IsLabelOf, IsLabelWith};
ghost use Rattle.label.specs.declared.limits.TheConstants.{MAX_LISTED};
ghost use Rattle.label_core.specs.BothSides.{side_at, labels_on, with_labels_on};
ghost use Rattle.label_core.specs.SideLists.{HasPath};
ghost use Rattle.label_list.specs.Labels.{path_of, state_of, with_state};
ghost use Rattle.label_list.specs.declared.state.State.TheVariants.{Waiting};
ghost use Rattle.strip_model.specs.LabelPath.{LabelPath};

use crate::side_labels::SideLabels;
use bucket::{Id, State};
use label::{Brief, Label, Side};
use std::alloc::{AllocError, Global};
use strip_model::{Directed, End};

/// Both sides of a core.
#[derive(Drop)]
pub(crate) struct BothSides<'a> {
    pub(crate) forward: SideLabels<'a>,
    pub(crate) backward: SideLabels<'a>,
}

impl<'a> BothSides<'a> {
    /// The side at an end.
    pub(crate) fn side(&self, end: End) -> &'a Side
        ensures { result.now ≡ (side_at self.now end).face }
    {
        match end {
            End::Forward => self.forward.side(),
            End::Backward => self.backward.side(),
        }
    }

    /// How many labels there are.
    pub(crate) fn labels(&self) -> u64
        ensures { result ≡ sum_by (λ labels. length labels) self.now.forward.buckets + sum_by (λ labels. length labels) self.now.backward.buckets }
    {
        self.forward.total() + self.backward.total()
    }

    /// How many labels a bucket has.
    pub(crate) fn count(&self, end: End, bucket: u8) -> u32
        requires { bucket < BUCKETS }
        ensures { result ≡ length (labels_on self.now end bucket) }
    {
        match end {
            End::Forward => self.forward.count(bucket),
            End::Backward => self.backward.count(bucket),
        }
    }

    /// The path of a label.
    pub(crate) fn path(&self, id: Id) -> &[Directed]
        requires { id.index < length (labels_on self.now id.end id.bucket) }
        ensures { result.now ≡ path_of (labels_on self.now id.end id.bucket) id.index }
    {
        match id.end {
            End::Forward => self.forward.path(id.bucket, id.index),
            End::Backward => self.backward.path(id.bucket, id.index),
        }
    }

    /// The brief of a label.
    pub(crate) fn brief(&self, id: Id) -> Brief
        requires { id.index < length (labels_on self.now id.end id.bucket) }
        ensures brief { IsBriefOf (side_at self.now id.end).face result (path_of (labels_on self.now id.end id.bucket) id.index) }
        ensures path { LabelPath (side_at self.now id.end).face (path_of (labels_on self.now id.end id.bucket) id.index) }
    {
        match id.end {
            End::Forward => self.forward.brief(id.bucket, id.index),
            End::Backward => self.backward.brief(id.bucket, id.index),
        }
    }

    /// A label itself, made again from its path. It fails for want of memory alone.
    pub(crate) fn restore(&self, alloc: Global, id: Id) -> Result<Label, AllocError>
        requires { id.index < length (labels_on self.now id.end id.bucket) }
        ensures { IfOk result (IsLabelWith (side_at self.now id.end).face (path_of (labels_on self.now id.end id.bucket) id.index)) }
    {
        match id.end {
            End::Forward => self.forward.restore(alloc, id.bucket, id.index),
            End::Backward => self.backward.restore(alloc, id.bucket, id.index),
        }
    }

    /// The state of a label.
    pub(crate) fn state(&self, id: Id) -> State
        requires { id.index < length (labels_on self.now id.end id.bucket) }
        ensures { result ≡ state_of (labels_on self.now id.end id.bucket) id.index }
    {
        match id.end {
            End::Forward => self.forward.state(id.bucket, id.index),
            End::Backward => self.backward.state(id.bucket, id.index),
        }
    }

    /// Another state for a label.
    pub(crate) fn set_state(&mut self, id: Id, state: State)
        requires { id.index < length (labels_on self.old id.end id.bucket) }
        ensures { self.new ≡ with_labels_on self.old id.end id.bucket (with_state (labels_on self.old id.end id.bucket) id.index state) }
    {
        match id.end {
            End::Forward => self.forward.set_state(id.bucket, id.index, state),
            End::Backward => self.backward.set_state(id.bucket, id.index, state),
        }
    }

    /// One more label, which waits, in its bucket: its id there. Want of memory changes nothing.
    pub(crate) fn add(&mut self, label: &Label) -> Result<u32, AllocError>
        requires label { IsLabelOf (side_at self.old label.now.end).face label.now }
        requires few { length (labels_on self.old label.now.end (bucket_of label.now.path.items)) < MAX_LISTED }
        ensures { MatchResult result
            (λ id. (id ≡ length (labels_on self.old label.now.end (bucket_of label.now.path.items)))
            × (self.new ≡ with_labels_on self.old label.now.end (bucket_of label.now.path.items)
            (labels_on self.old label.now.end (bucket_of label.now.path.items) ++ record { path = label.now.path.items; state = Waiting } ∷ [])))
            (λ _. self.new ≡ self.old) }
    {
        match label.end() {
            End::Forward => self.forward.add(label),
            End::Backward => self.backward.add(label),
        }
    }

    /// Whether a label of its bucket has the path of this label.
    pub(crate) fn has_path(&self, label: &Label) -> bool
        requires { IsLabelOf (side_at self.now label.now.end).face label.now }
        ensures { IsTrue result ↔ HasPath (labels_on self.now label.now.end (bucket_of label.now.path.items)) label.now.path.items }
    {
        match label.end() {
            End::Forward => self.forward.has_path(label),
            End::Backward => self.backward.has_path(label),
        }
    }
}
