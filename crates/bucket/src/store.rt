//! The labels of a bucket with their history, changed by single legal steps. That none dominates another is kept a layer above.

ghost use Rattle.std.specs.Prelude.{◌≡◌, ◌≢◌, ◌+◌, ◌*◌, ◌<◌, ◌≤◌, ◌↔◌, IsTrue, ℕ, List, [], ◌∷◌, ◌++◌, length, map, IfOk, MatchResult, MatchOption};
ghost use Rattle.bucket.specs.Buckets.{held_in, grown, Taking, Cutting};
ghost use Rattle.bucket.specs.Histories.{bucket_of, IsHistory, IsLegal, CanInsert, CanRetire};
ghost use Rattle.bucket.specs.Histories.Step.{Inserts, Retires};
ghost use Rattle.bucket.specs.Stores.{IsMark, step_of, entry_of};
ghost use Rattle.bucket.specs.declared.limits.TheConstants.{MAX_LABELS};
ghost use Rattle.label.specs.Briefs.{IsBriefOf};
ghost use Rattle.label.specs.Labels.{IsLabelOf};
ghost use Rattle.label_list.specs.Labels.{path_of, state_of, is_live, IsLive, IsAbsent};
ghost use Rattle.label_list.specs.declared.state.State.TheVariants.{Waiting};
ghost use Rattle.strip_model.specs.LabelPath.{LabelPath};

use crate::room::put;
use crate::{CutAnswer, Entry, State, Taken};
use label::{Brief, Label, Side, bound_of};
use label_list::LabelList;
use std::alloc::{AllocError, Global};
use std::marker::Model;
use strip_model::Directed;

// The most entries that a label has: it is inserted, taken, and retired or cut.
const ENTRIES_A_LABEL: usize = 3;

/// The labels of a bucket, whatever their states, and its history. Contracts see the side, the number and the history, and
/// labels as those that the history leads to.
#[derive(Drop)]
pub(crate) struct Store<'a> {
    alloc: Global,
    number: u8,
    list: LabelList<'a>,
    entries: Vec<Entry>,
}

impl<'a> Model for Store<'a> {
    ghost use Rattle.std.specs.Vec.{vec_capacity};
    ghost use Rattle.bucket.specs.Buckets.{Bin};
    ghost use Rattle.bucket.specs.Stores.{bin_of, Keeps};

    ghost Value = { Bin };

    ghost view = { λ s. bin_of s.number s.list s.entries.items };

    ghost invariant = { λ s. Keeps s.number s.list s.entries.items (vec_capacity s.entries) };
}

impl<'a> Store<'a> {
    /// A store without labels, of the bucket with this number. It takes no memory.
    pub(crate) fn new(alloc: Global, side: &'a Side, number: u8) -> Store<'a>
        ensures { result ≡ record { side = side.entry.now; number = number; history = [] } }
    {
        Store {
            alloc,
            number,
            list: LabelList::new(alloc, side),
            entries: Vec::new(alloc),
        }
    }

    /// The side. The paths of all labels are label paths of it.
    pub(crate) fn side(&self) -> &'a Side
        ensures value { result.now ≡ self.now.side }
        ensures paths { (k : ℕ) → k < length (held_in self.now) → LabelPath self.now.side (path_of (held_in self.now) k) }
    {
        // For its clause: the paths are label paths of the side.
        let _ = self.list.len();
        self.list.side()
    }

    /// How many labels there are.
    pub(crate) fn len(&self) -> u32
        ensures value { result ≡ length (held_in self.now) }
        ensures sound { IsHistory self.now.side self.now.number self.now.history }
    {
        self.list.len()
    }

    /// The path of a label.
    pub(crate) fn path(&self, id: u32) -> &[Directed]
        requires { id < length (held_in self.now) }
        ensures { result.now ≡ path_of (held_in self.now) id }
    {
        self.list.path(id)
    }

    /// The state of a label.
    pub(crate) fn state(&self, id: u32) -> State
        requires { id < length (held_in self.now) }
        ensures { result ≡ state_of (held_in self.now) id }
    {
        self.list.state(id)
    }

    /// The brief of a label, whose path belongs into this bucket.
    pub(crate) fn brief(&self, id: u32) -> Brief
        requires { id < length (held_in self.now) }
        ensures brief { IsBriefOf self.now.side result (path_of (held_in self.now) id) }
        ensures path { LabelPath self.now.side (path_of (held_in self.now) id) }
        ensures here { bucket_of (path_of (held_in self.now) id) ≡ self.now.number }
    {
        self.list.brief(id)
    }

    /// The id of the label with this path.
    pub(crate) fn id_of(&self, path: &[Directed]) -> Option<u32>
        ensures { MatchOption result (IsAbsent (held_in self.now) path.now) (λ id. (id < length (held_in self.now)) × (path_of (held_in self.now) id ≡ path.now)) }
    {
        self.list.id_of(path)
    }

    /// A label that waits is taken: a copy of it, or its state where it doesn't wait. It fails for want of memory alone.
    pub(crate) fn take(&mut self, id: u32) -> Result<Taken, AllocError>
        requires { id < length (held_in self.old) }
        ensures { Taking self.old self.new id result }
    {
        let state = self.state(id);
        if !waits(state) {
            return Ok(Taken::Gone { state });
        }
        let label = self.list.restore(self.alloc, id)?;
        self.mark(id, State::Taken, Entry::Take { id });
        Ok(Taken::Label(label))
    }

    /// A label is cut where it is live and its bound is no greater than the value. No memory is taken.
    pub(crate) fn cut(&mut self, id: u32, value: u64) -> CutAnswer
        requires { id < length (held_in self.old) }
        ensures { Cutting self.old self.new id value result }
    {
        let state = self.state(id);
        if !self.list.lives(id) {
            return CutAnswer::Gone { state };
        }
        let bound = bound_of(self.side(), &self.list.brief(id));
        if bound > value {
            return CutAnswer::Higher { bound };
        }
        self.mark(id, State::Cut, Entry::Cut { id });
        CutAnswer::Done
    }

    /// The history, without the paths.
    pub(crate) fn entries(&self) -> &[Entry]
        ensures { result.now ≡ map entry_of self.now.history }
    {
        &self.entries
    }

    /// One more label, which waits. It fails for want of memory alone. There is room then for all later entries of the label.
    pub(crate) fn add(&mut self, label: &Label) -> Result<u32, AllocError>
        requires label { IsLabelOf self.old.side label.now }
        requires new { CanInsert self.old.side self.old.number (held_in self.old) (length (held_in self.old)) label.now.path.items }
        requires few { length (held_in self.old) < MAX_LABELS }
        ensures { MatchResult result (λ id. (id ≡ length (held_in self.old)) × (self.new ≡ grown self.old (Inserts id label.now.path.items ∷ []))) (λ _. self.new ≡ self.old) }
    {
        let labels = self.list.len() as usize;
        self.entries
            .reserve(ENTRIES_A_LABEL * (labels + 1) - self.entries.len())?;
        let id = self.list.add(label)?;
        put(&mut self.entries, Entry::Insert { id });
        Ok(id)
    }

    /// A label takes another state, by an entry that names the label. No memory is taken.
    pub(crate) fn mark(&mut self, id: u32, state: State, entry: Entry)
        requires mark { IsMark id state entry }
        requires legal { IsLegal self.old.side self.old.number (held_in self.old) (step_of [] entry) }
        ensures { self.new ≡ grown self.old (step_of [] entry ∷ []) }
    {
        self.list.set_state(id, state);
        put(&mut self.entries, entry);
    }

    /// Label `by` retires label `id`. No memory is taken.
    pub(crate) fn retire(&mut self, id: u32, by: u32)
        requires { CanRetire self.old.side (held_in self.old) id by }
        ensures { self.new ≡ grown self.old (Retires id by ∷ []) }
    {
        self.mark(id, State::Retired { by }, Entry::Retire { id, by });
    }

    /// Takes the store apart: the labels, and the history without the paths.
    pub(crate) fn into_parts(self) -> (LabelList<'a>, Vec<Entry>)
        ensures list { result.0 ≡ record { face = self.entry.side; labels = held_in self.entry } }
        ensures entries { result.1.items ≡ map entry_of self.entry.history }
    {
        let Store {
            alloc: _,
            number: _,
            list,
            entries,
        } = self;
        (list, entries)
    }
}

// Whether a label in this state waits.
fn waits(state: State) -> bool
    ensures { IsTrue result ↔ (state ≡ Waiting) }
{
    matches!(state, State::Waiting)
}
