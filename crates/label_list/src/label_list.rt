//! The labels of one side: put in one after another, found by their paths, and given new states.

ghost use Rattle.std.specs.Prelude.{◌≡◌, ℕ, ◌<◌, ◌≤◌, ◌↔◌, [], ◌∷◌, ◌++◌, length, IsTrue, IfOk, MatchOption, MatchResult};
ghost use Rattle.label.specs.Briefs.{IsBriefOf};
ghost use Rattle.label.specs.Labels.{IsLabelOf, IsLabelWith};
ghost use Rattle.label.specs.declared.limits.TheConstants.{MAX_LISTED};
ghost use Rattle.label_list.specs.Labels.{path_of, state_of, is_live, with_state, with_labels, IsLive, IsAbsent};
ghost use Rattle.label_list.specs.declared.state.State.TheVariants.{Waiting};
ghost use Rattle.strip_model.specs.LabelPath.{LabelPath};

use crate::State;
use crate::path_index::{PathIndex, path_of};
use crate::record::Record;
use crate::room::{put, put_all};
use label::{Brief, Label, Side, brief};
use std::alloc::{AllocError, Global};
use std::marker::Model;
use strip_model::Directed;

/// The labels of a side with their states, known by their ids: how many there were before. Contracts see the side and, of
/// each label, the path and the state. A label takes about 48 bytes, two for each directed strip of its path, and its share of
/// the index.
#[derive(Drop)]
pub struct LabelList<'a> {
    side: &'a Side,
    // The paths of all labels, one after another.
    steps: Vec<Directed>,
    // The labels, by id.
    records: Vec<Record>,
    index: PathIndex,
}

impl<'a> Model for LabelList<'a> {
    ghost use Rattle.label_list.specs.Labels.{Listed};
    ghost use Rattle.label_list.specs.Records.{listed, Keeps};

    ghost Value = { Listed };

    ghost view = { λ l. listed l.side.now l.steps.items l.records.items };

    ghost invariant = { λ l. Keeps l.side.now l.steps.items l.records.items l.index };
}

impl<'a> LabelList<'a> {
    /// A list without labels. It takes no memory.
    pub fn new(alloc: Global, side: &'a Side) -> LabelList<'a>
        ensures { result ≡ record { face = side.entry.now; labels = [] } }
    {
        LabelList {
            side,
            steps: Vec::new(alloc),
            records: Vec::new(alloc),
            index: PathIndex::new(alloc),
        }
    }

    /// The side.
    pub fn side(&self) -> &'a Side
        ensures { result.now ≡ self.now.face }
    {
        self.side
    }

    /// How many labels there are, whatever their states. The paths of all are label paths of the side.
    pub fn len(&self) -> u32
        ensures value { result ≡ length self.now.labels }
        ensures few { result ≤ MAX_LISTED }
        ensures paths { (k : ℕ) → k < length self.now.labels → LabelPath self.now.face (path_of self.now.labels k) }
    {
        self.records.len() as u32
    }

    /// The path of a label.
    pub fn path(&self, id: u32) -> &[Directed]
        requires { id < length self.now.labels }
        ensures { result.now ≡ path_of self.now.labels id }
    {
        path_of(&self.steps, &self.records[id as usize])
    }

    /// The state of a label.
    pub fn state(&self, id: u32) -> State
        requires { id < length self.now.labels }
        ensures { result ≡ state_of self.now.labels id }
    {
        self.records[id as usize].state
    }

    /// Whether a label is there and live.
    pub fn lives(&self, id: u32) -> bool
        ensures { IsTrue result ↔ IsLive self.now.labels id }
    {
        if id >= self.len() {
            return false;
        }
        is_live(self.state(id))
    }

    /// The brief of a label, which is of a label path of the side.
    pub fn brief(&self, id: u32) -> Brief
        requires { id < length self.now.labels }
        ensures brief { IsBriefOf self.now.face result (path_of self.now.labels id) }
        ensures path { LabelPath self.now.face (path_of self.now.labels id) }
    {
        self.records[id as usize].brief
    }

    /// A label itself, made again from its path. It fails for want of memory alone.
    pub fn restore(&self, alloc: Global, id: u32) -> Result<Label, AllocError>
        requires { id < length self.now.labels }
        ensures { IfOk result (IsLabelWith self.now.face (path_of self.now.labels id)) }
    {
        match label::restore(alloc, self.side, self.path(id))? {
            Some(label) => Ok(label),
            None => unreachable!(),
        }
    }

    /// The id of the label with this path, whatever its state. It takes time of the order of the path's length, and more only
    /// where many paths were chosen to have one key.
    pub fn id_of(&self, path: &[Directed]) -> Option<u32>
        ensures { MatchOption result (IsAbsent self.now.labels path.now)
            (λ id. (id < length self.now.labels) × (path_of self.now.labels id ≡ path.now)) }
    {
        self.index.find(&self.steps, &self.records, path)
    }

    /// Another state for a label. It takes no memory.
    pub fn set_state(&mut self, id: u32, state: State)
        requires { id < length self.old.labels }
        ensures { self.new ≡ with_labels self.old (with_state self.old.labels id state) }
    {
        self.records[id as usize].state = state;
    }

    /// One more label, which waits: its id. It fails for want of memory alone, which changes nothing.
    pub fn add(&mut self, label: &Label) -> Result<u32, AllocError>
        requires label { IsLabelOf self.old.face label.now }
        requires few { length self.old.labels < MAX_LISTED }
        ensures { MatchResult result
            (λ id. (id ≡ length self.old.labels) × (self.new ≡ with_labels self.old (self.old.labels ++ record { path = label.now.path.items; state = Waiting } ∷ [])))
            (λ _. self.new ≡ self.old) }
    {
        let id = self.records.len() as u32;
        self.records.reserve(1)?;
        self.steps.reserve(label.path().len())?;
        self.index.add(label.path())?;
        let from = self.steps.len();
        put_all(&mut self.steps, label.path());
        let record = Record {
            from,
            to: self.steps.len(),
            state: State::Waiting,
            brief: brief(label),
        };
        put(&mut self.records, record);
        Ok(id)
    }
}

// Whether a label in this state is live.
fn is_live(state: State) -> bool
    ensures { result ≡ is_live state }
{
    match state {
        State::Waiting | State::Taken => true,
        State::Retired { by: _ } | State::Cut => false,
    }
}
