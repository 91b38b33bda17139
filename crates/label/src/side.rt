//! The side of an instance at one end of the orbit.

ghost use Rattle.std.specs.Prelude.{◌≡◌, ℕ, ◌<◌, ◌↔◌, length, IfOk, IsTrue};
ghost use Rattle.label.specs.Labels.{IsFace, Exist, IsNewIn};
ghost use Rattle.label.specs.Tables.{step_at, deadline_at, is_strip_of};
ghost use Rattle.stereo_twins.specs.Twins.{is_need};
ghost use Rattle.strip_model.specs.Directed.{strip_of, has};
ghost use Rattle.strip_model.specs.IsInstance.{IsInstance};
ghost use Rattle.strip_model.specs.Reach.{is_open};
ghost use Rattle.strip_model.specs.Side.{face_of, facing};
ghost use Rattle.strip_model.specs.Twins.{twins_of};

use crate::tables::{deadlines_of, members_of, paired_of, steps_of};
use std::alloc::{AllocError, Global};
use std::marker::Model;
use stereo_twins::TwinMap;
use strip_model::{Directed, End, Instance, mirror};
use strip_set::{DirectedSet, StripSet};

/// An instance as it is seen from one end of the orbit, with a cut: how far the labels of this side go, in ticks.
#[derive(Debug, Drop)]
pub struct Side {
    // The instance itself, or its mirror.
    instance: Instance,
    end: End,
    cut: u32,
    // That of the instance itself, whose mirror in general has another.
    horizon: u32,
    twins: TwinMap,
    // From the start of an acquisition of x until the satellite is ready to acquire y, in ticks: in row x at column y.
    steps: Vec<u32>,
    // One more than the latest start of x after which y can still begin in its window, in ticks; 0 where there is none.
    deadlines: Vec<u32>,
    // The strips of each request.
    members: Vec<StripSet>,
    // The directed strips whose strip has a twin.
    paired: DirectedSet,
}

impl Model for Side {
    ghost use Rattle.strip_model.specs.Side.{Face};
    ghost use Rattle.label.specs.Tables.{IsSide};

    ghost Value = { Face };

    ghost view = { λ s. record { instance = s.instance; end = s.end; cut = s.cut; horizon = s.horizon } };

    ghost invariant = { λ s. IsSide (record { instance = s.instance; end = s.end; cut = s.cut; horizon = s.horizon }) s.twins s.steps.items s.deadlines.items s.members.items s.paired };
}

impl Side {
    /// The side of an instance at this end, whose labels go up to the cut, in ticks of the instance's own time. It fails for
    /// want of memory alone.
    pub fn new(alloc: Global, instance: &Instance, end: End, cut: u32) -> Result<Side, AllocError>
        ensures value { IfOk result (λ side. side ≡ face_of instance.now cut end) }
        ensures requests { IfOk result (λ side. side.instance.requests ≡ instance.now.requests) }
        ensures strips { IfOk result (λ side. length side.instance.strips ≡ length instance.now.strips) }
    {
        let horizon = instance.horizon();
        let facing = seen_from(alloc, instance, end)?;
        let twins = facing.twin_map(alloc)?;
        let steps = steps_of(alloc, &facing)?;
        let deadlines = deadlines_of(alloc, &facing)?;
        let members = members_of(alloc, &facing)?;
        let paired = paired_of(&facing);
        Ok(Side {
            instance: facing,
            end,
            cut,
            horizon,
            twins,
            steps,
            deadlines,
            members,
            paired,
        })
    }

    /// The instance as it is seen from this side's end: itself, or its mirror.
    pub fn instance(&self) -> &Instance
        ensures value { result.now ≡ self.now.instance }
        ensures sound { IsFace self.now }
    {
        &self.instance
    }

    /// The end from which the labels of this side begin.
    pub fn end(&self) -> End
        ensures value { result ≡ self.now.end }
        ensures sound { IsFace self.now }
    {
        self.end
    }

    /// How far the labels of this side go, in ticks of the instance's own time: a forward label's last acquisition starts
    /// by the cut, and a backward label's last acquisition can start after it.
    pub fn cut(&self) -> u32
        ensures { result ≡ self.now.cut }
    {
        self.cut
    }

    /// The horizon of the instance itself, in ticks, from either end.
    pub fn horizon(&self) -> u32
        ensures { result ≡ self.now.horizon }
    {
        self.horizon
    }

    /// The strips of a request.
    pub fn strips_of(&self, request: u16) -> StripSet
        requires { request < length self.now.instance.requests }
        ensures { (i : ℕ) → has i result ≡ is_strip_of self.now.instance request i }
    {
        self.members[usize::from(request)]
    }

    // How long it takes from the start of an acquisition of `x` until the satellite is ready to acquire `y`, in ticks.
    pub(crate) fn step(&self, x: Directed, y: Directed) -> u32
        requires from { strip_of x < length self.now.instance.strips }
        requires to { strip_of y < length self.now.instance.strips }
        ensures { result ≡ step_at self.now.instance x y }
    {
        let count = 2 * self.instance.strips().len();
        self.steps[usize::from(x.0) * count + usize::from(y.0)]
    }

    // One more than the latest start of `x` after which `y` can still begin in its window, in ticks; 0 where there is none.
    pub(crate) fn deadline(&self, x: Directed, y: Directed) -> u32
        requires from { strip_of x < length self.now.instance.strips }
        requires to { strip_of y < length self.now.instance.strips }
        ensures value { result ≡ deadline_at self.now.instance x y }
        ensures sound { IsFace self.now }
    {
        let count = 2 * self.instance.strips().len();
        self.deadlines[usize::from(x.0) * count + usize::from(y.0)]
    }

    // Whether the strip of `x` is new among these directed strips, and its twin, where it is there, is there in the direction
    // of `x`.
    pub(crate) fn admits(&self, visited: DirectedSet, x: Directed) -> bool
        requires exist { Exist self.now.instance visited }
        requires next { strip_of x < length self.now.instance.strips }
        ensures { IsTrue result ↔ IsNewIn self.now.instance visited x }
    {
        self.twins.admits(visited, x.0)
    }

    // Those of these directed strips whose strip has a twin that doesn't stand among them. Where no strip has one, it looks at
    // none of them.
    pub(crate) fn open_among(&self, visited: DirectedSet) -> DirectedSet
        requires { Exist self.now.instance visited }
        ensures { (y : ℕ) → has y result ≡ is_open self.now.instance visited y }
    {
        self.twins.open(visited.meet(self.paired))
    }

    // The twins of these directed strips, each in the direction of the one that it is the twin of.
    pub(crate) fn twins_of(&self, lone: DirectedSet) -> DirectedSet
        requires { Exist self.now.instance lone }
        ensures { (z : ℕ) → has z result ≡ is_need (twins_of self.now.instance) lone z }
    {
        self.twins.needs(lone)
    }
}

// The instance as it is seen from an end: itself, or its mirror.
fn seen_from(alloc: Global, instance: &Instance, end: End) -> Result<Instance, AllocError>
    ensures value { IfOk result (λ seen. seen ≡ facing instance.now end) }
    ensures sound { IfOk result IsInstance }
{
    match end {
        End::Forward => instance.copy(alloc),
        End::Backward => mirror(alloc, instance),
    }
}
