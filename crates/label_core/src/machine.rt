//! The core: what every reader of a search asks, and the steps themselves, each of which its caller knows to be legal.

ghost use Rattle.std.specs.Prelude.{ℕ, ◌≡◌, ◌<◌, ◌≤◌, ◌↔◌, [], length, All, IsTrue, IfOk, OnOk, OnErr};
ghost use Rattle.label_list.specs.Labels.{is_live};
ghost use Rattle.bucket.specs.declared.limits.TheConstants.{BUCKETS};
ghost use Rattle.label.specs.Briefs.{IsBriefOf};
ghost use Rattle.label.specs.Labels.{IsLabelOf, IsLabelWith};
ghost use Rattle.label_core.specs.BothSides.{machine_of, IsCore};
ghost use Rattle.label_core.specs.CoreState.{opening, labels_in, path_of, state_of, IsThere, IsLiveAt, IsListed, NamesThere};
ghost use Rattle.label_core.specs.Events.{InsertLabel, TakeLabel, RetireLabel, CutLabel, Publish, JoinLabels, joining_path};
ghost use Rattle.label_core.specs.Machine.{Can, stepped, IsReached, count_of, new_id};
ghost use Rattle.label_core.specs.declared.limits.TheConstants.{MAX_CORE_LABELS};
ghost use Rattle.strip_model.specs.Join.{joined_plan};
ghost use Rattle.strip_model.specs.LabelPath.{LabelPath};
ghost use Rattle.strip_model.specs.Plan.{Feasible, gain_of};
ghost use Rattle.strip_model.specs.Side.{face_of};
ghost use Rattle.strip_model.specs.declared.end.End.TheVariants.{Forward, Backward};

use crate::Note;
use crate::both_sides::BothSides;
use crate::side_labels::SideLabels;
use bucket::{Id, State, bucket_of};
use label::{Brief, Label, Side};
use std::alloc::{AllocError, Global};
use std::marker::Model;
use strip_model::{Acquisition, Directed, End, Instance};

/// The state of a search on an instance from both ends: its labels with their states, the marks in the order in which they
/// came, and the best plan so far, the incumbent. Only legal steps change it, so every core was reached by a legal run. A search
/// that goes on from a core takes no label: `Taken` labels come from traces ([`Core::from_trace`]) and from callers of `take`.
#[derive(Drop)]
pub struct Core<'a> {
    alloc: Global,
    instance: &'a Instance,
    sides: BothSides<'a>,
    notes: Vec<Note>,
    plan: Vec<Acquisition>,
    // The plan's gain, in twentieths.
    gain: u64,
    // How many labels there are.
    labels: u64,
}

impl<'a> Model for Core<'a> {
    ghost use Rattle.label_core.specs.BothSides.{machine_of, IsCore};
    ghost use Rattle.label_core.specs.Machine.{Machine};

    ghost Value = { Machine };

    ghost view = { λ c. machine_of c.instance.now c.sides c.notes.items c.plan.items };

    ghost invariant = { λ c. IsCore c.instance.now c.sides c.notes.items c.plan.items c.gain c.labels };
}

impl<'a> Core<'a> {
    /// A core without labels, whose incumbent is the empty plan. The two sides are those of the instance with one cut. It fails
    /// for want of memory alone.
    pub fn new(
        alloc: Global,
        instance: &'a Instance,
        forward: &'a Side,
        backward: &'a Side,
    ) -> Result<Core<'a>, AllocError>
        requires forward { forward.now ≡ face_of instance.now forward.now.cut Forward }
        requires backward { backward.now ≡ face_of instance.now forward.now.cut Backward }
        ensures { IfOk result (λ core. core ≡ record { instance = instance.entry.now; cut = forward.entry.now.cut; state = opening }) }
    {
        Ok(Core {
            alloc,
            instance,
            sides: BothSides {
                forward: SideLabels::new(alloc, forward)?,
                backward: SideLabels::new(alloc, backward)?,
            },
            notes: Vec::new(alloc),
            plan: Vec::new(alloc),
            gain: 0,
            labels: 0,
        })
    }

    /// The core with these labels, marks and plan, to which legal steps led. The gain is the plan's, in twentieths.
    pub(crate) fn from_parts(
        alloc: Global,
        instance: &'a Instance,
        sides: BothSides<'a>,
        notes: Vec<Note>,
        plan: Vec<Acquisition>,
        gain: u64,
        labels: u64,
    ) -> Core<'a>
        requires { IsCore instance.now sides notes.items plan.items gain labels }
        ensures { result ≡ machine_of instance.entry.now sides.entry notes.items plan.items }
    {
        Core {
            alloc,
            instance,
            sides,
            notes,
            plan,
            gain,
            labels,
        }
    }

    /// Where its labels, marks and plan come from.
    pub(crate) fn alloc(&self) -> Global {
        self.alloc
    }

    /// The instance.
    pub fn instance(&self) -> &'a Instance
        ensures { result.now ≡ self.now.instance }
    {
        self.instance
    }

    /// The side at an end.
    pub fn side(&self, end: End) -> &'a Side
        ensures { result.now ≡ face_of self.now.instance self.now.cut end }
    {
        self.sides.side(end)
    }

    /// How many labels there are, whatever their states.
    pub fn labels(&self) -> u64
        ensures value { result ≡ count_of self.now.state }
        ensures bound { result ≤ MAX_CORE_LABELS }
        ensures reached { IsReached self.now }
    {
        self.labels
    }

    /// The gain of the incumbent, in twentieths.
    pub fn gain(&self) -> u64
        ensures value { result ≡ gain_of self.now.instance self.now.state.incumbent }
        ensures reached { IsReached self.now }
    {
        self.gain
    }

    /// The incumbent: the best plan so far, in time order.
    pub fn plan(&self) -> &[Acquisition]
        ensures value { result.now ≡ self.now.state.incumbent }
        ensures feasible { Feasible self.now.instance self.now.state.incumbent }
    {
        &self.plan
    }

    /// The marks, in the order in which they came.
    pub fn notes(&self) -> &[Note]
        ensures value { result.now ≡ self.now.state.notes }
        ensures there { All (NamesThere self.now.state) self.now.state.notes }
    {
        &self.notes
    }

    /// How many labels a bucket of a side has, whatever their states.
    pub fn count(&self, end: End, number: u8) -> u32
        requires { number < BUCKETS }
        ensures { result ≡ length (labels_in self.now.state end number) }
    {
        self.sides.count(end, number)
    }

    /// The brief of a label, which is of a label path of its side.
    pub fn brief(&self, id: Id) -> Brief
        requires { IsThere self.now.state id }
        ensures brief { IsBriefOf (face_of self.now.instance self.now.cut id.end) result (path_of self.now.state id) }
        ensures path { LabelPath (face_of self.now.instance self.now.cut id.end) (path_of self.now.state id) }
    {
        self.sides.brief(id)
    }

    /// A label itself, made again from its path. It fails for want of memory alone.
    pub fn restore(&self, id: Id) -> Result<Label, AllocError>
        requires { IsThere self.now.state id }
        ensures { IfOk result (IsLabelWith (face_of self.now.instance self.now.cut id.end) (path_of self.now.state id)) }
    {
        self.sides.restore(self.alloc, id)
    }

    /// The path of a label, from its side's end on.
    pub fn path_of(&self, id: Id) -> &[Directed]
        requires { IsThere self.now.state id }
        ensures { result.now ≡ path_of self.now.state id }
    {
        self.sides.path(id)
    }

    /// The state of a label.
    pub fn state_of(&self, id: Id) -> State
        requires { IsThere self.now.state id }
        ensures { result ≡ state_of self.now.state id }
    {
        self.sides.state(id)
    }

    /// Whether there is a label of this name.
    pub fn is_there(&self, id: Id) -> bool
        ensures { IsTrue result ↔ IsThere self.now.state id }
    {
        u16::from(id.bucket) < bucket::BUCKETS && id.index < self.sides.count(id.end, id.bucket)
    }

    /// Whether there is a label of this name, and it waits or is taken.
    pub fn is_live(&self, id: Id) -> bool
        ensures { IsTrue result ↔ IsLiveAt self.now.state id }
    {
        self.is_there(id) && is_live(self.state_of(id))
    }

    /// Whether a label of its side has the path of this label, in whichever state. It takes no memory, and no walk over the labels.
    pub fn is_listed(&self, label: &Label) -> bool
        requires { IsLabelOf (face_of self.now.instance self.now.cut label.now.end) label.now }
        ensures { IsTrue result ↔ IsListed self.now.state label.now.end label.now.path.items }
    {
        self.sides.has_path(label)
    }

    /// Whether there are fewer labels than the budget.
    pub fn has_room(&self, budget: u64) -> bool
        ensures { IsTrue result ↔ (count_of self.now.state < budget) }
    {
        self.labels < budget
    }

    /// A label that waits is taken.
    pub fn take(&mut self, id: Id)
        requires { Can self.old (TakeLabel id) }
        ensures { self.new ≡ stepped self.old (TakeLabel id) }
    {
        self.sides.set_state(id, State::Taken);
    }

    /// A live label is retired by another, which dominates it. Want of memory changes nothing.
    pub fn retire(&mut self, id: Id, by: Id) -> Result<(), AllocError>
        requires { Can self.old (RetireLabel id by) }
        ensures stepped { OnOk result (self.new ≡ stepped self.old (RetireLabel id by)) }
        ensures unchanged { OnErr result (self.new ≡ self.old) }
    {
        self.notes.push(Note::Retires { label: id, by })?;
        self.sides.set_state(id, State::Retired { by: by.index });
        Ok(())
    }

    /// A live label is cut, whose bound is at most the incumbent's gain. Want of memory changes nothing.
    pub fn cut(&mut self, id: Id) -> Result<(), AllocError>
        requires { Can self.old (CutLabel id) }
        ensures stepped { OnOk result (self.new ≡ stepped self.old (CutLabel id)) }
        ensures unchanged { OnErr result (self.new ≡ self.old) }
    {
        self.notes.push(Note::Cuts { label: id })?;
        self.sides.set_state(id, State::Cut);
        Ok(())
    }

    /// A new label, which waits: its name. Want of memory changes nothing.
    pub fn insert(&mut self, label: &Label) -> Result<Id, AllocError>
        requires can { Can self.old (InsertLabel label.now.end label.now.path.items) }
        requires label { IsLabelOf (face_of self.old.instance self.old.cut label.now.end) label.now }
        requires room { count_of self.old.state < MAX_CORE_LABELS }
        ensures stepped { OnOk result (self.new ≡ stepped self.old (InsertLabel label.now.end label.now.path.items)) }
        ensures name { IfOk result (λ id. id ≡ new_id self.old.state label.now.end label.now.path.items) }
        ensures unchanged { OnErr result (self.new ≡ self.old) }
    {
        let index = self.sides.add(label)?;
        self.labels += 1;
        Ok(Id {
            end: label.end(),
            bucket: bucket_of(label.last()),
            index,
        })
    }

    /// A feasible plan with its gain, in twentieths, which is at least the incumbent's, becomes the incumbent.
    pub fn publish(&mut self, plan: Vec<Acquisition>, gain: u64)
        requires can { Can self.old (Publish plan.items) }
        requires gain { gain ≡ gain_of self.old.instance plan.items }
        ensures { self.new ≡ stepped self.old (Publish plan.items) }
    {
        self.plan = plan;
        self.gain = gain;
    }

    /// A live forward label and a live backward one, or the root where there is no name, join: their plan with its gain, in
    /// twentieths, which is at least the incumbent's, becomes the incumbent.
    pub fn join(
        &mut self,
        forward: Option<Id>,
        backward: Option<Id>,
        plan: Vec<Acquisition>,
        gain: u64,
    )
        requires can { Can self.old (JoinLabels forward backward) }
        requires plan { plan.items ≡ joined_plan self.old.instance (joining_path self.old.state forward) (joining_path self.old.state backward) }
        requires gain { gain ≡ gain_of self.old.instance plan.items }
        ensures { self.new ≡ stepped self.old (JoinLabels forward backward) }
    {
        // The names are there for the contract: the plan is all that changes.
        let _ = (forward, backward);
        self.publish(plan, gain);
    }
}

// Whether a label in this state lives.
fn is_live(state: State) -> bool
    ensures { result ≡ is_live state }
{
    match state {
        State::Waiting | State::Taken => true,
        State::Retired { by: _ } | State::Cut => false,
    }
}
