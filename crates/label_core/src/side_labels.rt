//! The labels of one side of a core: a list for each bucket.

ghost use Rattle.std.specs.Prelude.{◌≡◌, ◌*◌, ◌<◌, ◌≤◌, ◌↔◌, [], ◌∷◌, ◌++◌, length, get_or, replicate, sum_by, IsTrue, IfOk, MatchResult};
ghost use Rattle.std.specs.List.{All};
ghost use Rattle.bucket.specs.Histories.{bucket_of};
ghost use Rattle.bucket.specs.declared.limits.TheConstants.{BUCKETS};
ghost use Rattle.label.specs.Briefs.{IsBriefOf};
ghost use Rattle.label.specs.Labels.{IsLabelOf, IsLabelWith};
ghost use Rattle.label.specs.declared.limits.TheConstants.{MAX_LISTED};
ghost use Rattle.label_core.specs.SideLists.{HasPath, sided, with_bucket};
ghost use Rattle.label_list.specs.Labels.{path_of, state_of, with_state};
ghost use Rattle.label_list.specs.declared.state.State.TheVariants.{Waiting};
ghost use Rattle.strip_model.specs.LabelPath.{LabelPath};

use bucket::{BUCKETS, State};
use label::{Brief, Label, Side};
use label_list::LabelList;
use std::alloc::{AllocError, Global};
use std::marker::Model;
use strip_model::Directed;

/// The labels of a side, by bucket. Contracts see the side and the labels with their states.
#[derive(Drop)]
pub(crate) struct SideLabels<'a> {
    side: &'a Side,
    // A list for each bucket, in the order of the buckets' numbers.
    lists: Vec<LabelList<'a>>,
}

impl<'a> Model for SideLabels<'a> {
    ghost use Rattle.std.specs.Prelude.{◌≡◌, length};
    ghost use Rattle.std.specs.List.{All};
    ghost use Rattle.bucket.specs.declared.limits.TheConstants.{BUCKETS};
    ghost use Rattle.label_core.specs.SideLists.{Sided, sided};

    ghost Value = { Sided };

    ghost view = { λ s. sided s.side.now s.lists.items };

    ghost invariant = { λ s. All (λ l. l.face ≡ s.side.now) s.lists.items × (length s.lists.items ≡ BUCKETS) };
}

impl<'a> SideLabels<'a> {
    /// No labels.
    pub(crate) fn new(alloc: Global, side: &'a Side) -> Result<SideLabels<'a>, AllocError>
        ensures { IfOk result (λ labels. labels ≡ record { face = side.entry.now; buckets = replicate BUCKETS [] }) }
    {
        let mut lists = Vec::with_capacity(alloc, usize::from(BUCKETS))?;
        for _ in 0..usize::from(BUCKETS) {
            lists.push(LabelList::new(alloc, side))?;
        }
        Ok(SideLabels { side, lists })
    }

    /// The labels of these lists, one for each bucket.
    pub(crate) fn from_lists(side: &'a Side, lists: Vec<LabelList<'a>>) -> SideLabels<'a>
        requires side { All (λ l. l.face ≡ side.now) lists.items }
        requires size { length lists.items ≡ BUCKETS }
        ensures { result ≡ sided side.entry.now lists.entry.items }
    {
        SideLabels { side, lists }
    }

    /// The side.
    pub(crate) fn side(&self) -> &'a Side
        ensures { result.now ≡ self.now.face }
    {
        self.side
    }

    /// How many labels a bucket has.
    pub(crate) fn count(&self, bucket: u8) -> u32
        requires { bucket < BUCKETS }
        ensures value { result ≡ length (get_or self.now.buckets bucket []) }
        ensures few { result ≤ MAX_LISTED }
    {
        self.lists[usize::from(bucket)].len()
    }

    /// How many labels there are in all buckets.
    pub(crate) fn total(&self) -> u64
        ensures value { result ≡ sum_by (λ labels. length labels) self.now.buckets }
        ensures few { result ≤ BUCKETS * MAX_LISTED }
    {
        // For its invariant: there are so many lists.
        let _ = &self.lists;
        let mut total = 0;
        for bucket in 0..BUCKETS as u8 {
            total += u64::from(self.count(bucket));
        }
        total
    }

    /// The path of a label.
    pub(crate) fn path(&self, bucket: u8, k: u32) -> &[Directed]
        requires { k < length (get_or self.now.buckets bucket []) }
        ensures { result.now ≡ path_of (get_or self.now.buckets bucket []) k }
    {
        self.lists[usize::from(bucket)].path(k)
    }

    /// The brief of a label.
    pub(crate) fn brief(&self, bucket: u8, k: u32) -> Brief
        requires { k < length (get_or self.now.buckets bucket []) }
        ensures brief { IsBriefOf self.now.face result (path_of (get_or self.now.buckets bucket []) k) }
        ensures path { LabelPath self.now.face (path_of (get_or self.now.buckets bucket []) k) }
    {
        self.lists[usize::from(bucket)].brief(k)
    }

    /// A label itself, made again from its path. It fails for want of memory alone.
    pub(crate) fn restore(&self, alloc: Global, bucket: u8, k: u32) -> Result<Label, AllocError>
        requires { k < length (get_or self.now.buckets bucket []) }
        ensures { IfOk result (IsLabelWith self.now.face (path_of (get_or self.now.buckets bucket []) k)) }
    {
        self.lists[usize::from(bucket)].restore(alloc, k)
    }

    /// The state of a label.
    pub(crate) fn state(&self, bucket: u8, k: u32) -> State
        requires { k < length (get_or self.now.buckets bucket []) }
        ensures { result ≡ state_of (get_or self.now.buckets bucket []) k }
    {
        self.lists[usize::from(bucket)].state(k)
    }

    /// Another state for a label.
    pub(crate) fn set_state(&mut self, bucket: u8, k: u32, state: State)
        requires { k < length (get_or self.old.buckets bucket []) }
        ensures { self.new ≡ with_bucket self.old bucket (with_state (get_or self.old.buckets bucket []) k state) }
    {
        self.lists[usize::from(bucket)].set_state(k, state);
    }

    /// One more label, which waits, in its bucket: its id there. Want of memory changes nothing.
    pub(crate) fn add(&mut self, label: &Label) -> Result<u32, AllocError>
        requires label { IsLabelOf self.old.face label.now }
        requires few { length (get_or self.old.buckets (bucket_of label.now.path.items) []) < MAX_LISTED }
        ensures { MatchResult result
            (λ id. (id ≡ length (get_or self.old.buckets (bucket_of label.now.path.items) []))
            × (self.new ≡ with_bucket self.old (bucket_of label.now.path.items)
            (get_or self.old.buckets (bucket_of label.now.path.items) [] ++ record { path = label.now.path.items; state = Waiting } ∷ [])))
            (λ _. self.new ≡ self.old) }
    {
        let bucket = bucket::bucket_of(label.last());
        self.lists[usize::from(bucket)].add(label)
    }

    /// Whether a label of its bucket has the path of this label.
    pub(crate) fn has_path(&self, label: &Label) -> bool
        requires { IsLabelOf self.now.face label.now }
        ensures { IsTrue result ↔ HasPath (get_or self.now.buckets (bucket_of label.now.path.items) []) label.now.path.items }
    {
        let bucket = bucket::bucket_of(label.last());
        self.lists[usize::from(bucket)]
            .id_of(label.path())
            .is_some()
    }
}
