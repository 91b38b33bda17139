//! Antichains: a row of members, and the calls that search it, put one in and take some out.

ghost use Rattle.std.specs.Prelude.{ℕ, ◌≡◌, ◌≢◌, ◌+◌, ◌<◌, ◌≤◌, ◌==◌, false, List, [], length, MatchOption, OnOk, IsOk};
ghost use Rattle.std.specs.List.{All, IsDistinct};
ghost use Rattle.std.specs.Vec.{vec_capacity};
ghost use Rattle.antichain.specs.Antichains.{ids_of, IsRising, IsMemberOf, IsAntichainOf, IsApartFrom, NoneDominates, IsDominator, IsLeastDominator, IsBeaten, IsUnbeaten, Leaves, TakesOut, IsInserted};
ghost use Rattle.antichain.specs.declared.member.Member.{Member};
ghost use Rattle.label.specs.Outlines.{IsOutlineOf};
ghost use Rattle.strip_model.specs.Directed.{has};
ghost use Rattle.strip_model.specs.LabelPath.{LabelPath};
ghost use Rattle.strip_model.specs.Side.{Face};

use crate::Member;
use crate::dominating::{least, nearest};
use crate::places::{before, place_of, up_to};
use crate::room::put_at;
use crate::sifting::{sift_beaten, sift_bounded};
use label::{Outline, Side};
use std::alloc::{AllocError, Global};
use std::marker::Model;

/// Labels with the same last directed strip, of which none dominates another, in rising order of their starts. Contracts see
/// the members and how many there is memory for; they say by `IsAntichainOf` what the members are.
#[derive(Debug, Drop)]
pub struct Antichain {
    members: Vec<Member>,
}

impl Model for Antichain {
    ghost use Rattle.std.specs.Vec.{vec_capacity};
    ghost use Rattle.antichain.specs.Antichains.{Row, IsRising};

    ghost Value = { Row };

    ghost view = { λ a. record { members = a.members.items; room = vec_capacity a.members } };

    ghost invariant = { λ a. IsRising a.members.items };
}

impl Antichain {
    /// An antichain without members. It takes no memory.
    pub fn empty(alloc: Global) -> Antichain
        ensures { result.members ≡ [] }
    {
        Antichain {
            members: Vec::new(alloc),
        }
    }

    /// Its members, those that start first before the others.
    pub fn members(&self) -> &[Member]
        ensures value { result.now ≡ self.now.members }
        ensures rising { IsRising self.now.members }
    {
        &self.members
    }

    /// How many members it has.
    pub fn len(&self) -> usize
        ensures { result ≡ length self.now.members }
    {
        self.members.len()
    }

    /// Whether it has none.
    pub fn is_empty(&self) -> bool
        ensures { result ≡ (length self.now.members == 0) }
    {
        self.members.is_empty()
    }

    /// Makes room for one member more. It fails for want of memory alone, and never where there is room already.
    pub fn reserve(&mut self) -> Result<(), AllocError>
        ensures members { self.new.members ≡ self.old.members }
        ensures room { OnOk result (length self.new.members < self.new.room) }
        ensures ready { length self.old.members < self.old.room → IsOk result }
        ensures no_less { self.old.room ≤ self.new.room }
    {
        self.members.reserve(1)
    }

    /// The id of a member that dominates the label of this outline, if there is one. It looks at those that start no later than
    /// the label, the last ones first, since those that start shortly before it dominate it most often. It takes no memory.
    pub fn dominator(&self, side: &Side, outline: &Outline) -> Option<u32>
        ensures { (path_at : ℕ → List ℕ) (path : List ℕ) → All (IsMemberOf side.now path_at) self.now.members → LabelPath side.now path
            → IsOutlineOf side.now outline.now path
            → MatchOption result (NoneDominates side.now.instance path_at self.now.members path) (IsDominator side.now.instance path_at self.now.members path) }
    {
        let front = up_to(&self.members, outline.start);
        nearest(side, &self.members[..front], outline)
    }

    /// The least id of a member that dominates the label of this outline, if there is one. It looks at those that start no
    /// later than the label. It takes no memory.
    pub fn least_dominator(&self, side: &Side, outline: &Outline) -> Option<u32>
        ensures { (path_at : ℕ → List ℕ) (path : List ℕ) → All (IsMemberOf side.now path_at) self.now.members → LabelPath side.now path
            → IsOutlineOf side.now outline.now path
            → MatchOption result (NoneDominates side.now.instance path_at self.now.members path) (IsLeastDominator side.now.instance path_at self.now.members path) }
    {
        let front = up_to(&self.members, outline.start);
        least(side, &self.members[..front], outline)
    }

    /// Takes out the members that the label of this outline dominates, and adds their ids to `ids`, for which there is room. It
    /// looks at those that start no earlier than the label. It takes no memory.
    pub fn take_beaten(&mut self, side: &Side, outline: &Outline, ids: &mut Vec<u32>)
        requires { length ids.old.items + length self.old.members ≤ vec_capacity ids.old }
        ensures out { (path_at : ℕ → List ℕ) (path : List ℕ) → All (IsMemberOf side.now path_at) self.old.members → LabelPath side.now path
            → IsOutlineOf side.now outline.now path
            → TakesOut (IsBeaten side.now.instance path_at path) (IsUnbeaten side.now.instance path_at path) self.old.members self.new.members ids.old.items ids.new.items }
        ensures kept { (S : Face) (path_at : ℕ → List ℕ) → IsAntichainOf S path_at self.old.members → IsAntichainOf S path_at self.new.members }
        ensures room { self.new.room ≡ self.old.room }
        ensures count { length ids.new.items + length self.new.members ≡ length ids.old.items + length self.old.members }
        ensures ids_room { vec_capacity ids.old ≤ vec_capacity ids.new }
    {
        let from = before(&self.members, outline.start);
        sift_beaten(side, outline, &mut self.members, from, ids);
    }

    /// Puts a member, for which there is room, in its place by start: after those that start with it. It takes no memory.
    pub fn insert(&mut self, member: Member)
        requires { length self.old.members < self.old.room }
        ensures inserted { IsInserted member self.old.members self.new.members }
        ensures kept { (S : Face) (path_at : ℕ → List ℕ) → IsAntichainOf S path_at self.old.members → IsMemberOf S path_at member
            → has member.id (ids_of self.old.members) ≡ false → IsApartFrom S.instance path_at self.old.members member.id
            → IsAntichainOf S path_at self.new.members }
        ensures room { self.new.room ≡ self.old.room }
    {
        let place = up_to(&self.members, member.outline.start);
        put_at(&mut self.members, place, member);
    }

    /// Takes out the member with this id, if it is there, whose start this is, in ticks from the side's end. It takes no memory.
    pub fn remove(&mut self, id: u32, start: u32)
        ensures out { IsDistinct (λ j k. j == k) (ids_of self.old.members) → All (λ (m : Member). m.id ≡ id → m.outline.start ≡ start) self.old.members
            → Leaves (λ (m : Member). m.id ≡ id) (λ (m : Member). m.id ≢ id) self.old.members self.new.members }
        ensures kept { (S : Face) (path_at : ℕ → List ℕ) → IsAntichainOf S path_at self.old.members → IsAntichainOf S path_at self.new.members }
        ensures room { self.new.room ≡ self.old.room }
    {
        let from = before(&self.members, start);
        let to = up_to(&self.members, start);
        match place_of(&self.members, from, to, id) {
            Some(place) => {
                self.members.remove(place);
            }
            None => {}
        }
    }

    /// Takes out the members whose bound is at most this gain, in twentieths, and adds their ids to `ids`, for which there is
    /// room. It takes no memory.
    pub fn prune(&mut self, gain: u64, ids: &mut Vec<u32>)
        requires { length ids.old.items + length self.old.members ≤ vec_capacity ids.old }
        ensures out { TakesOut (λ (m : Member). m.outline.bound ≤ gain) (λ (m : Member). gain < m.outline.bound) self.old.members self.new.members ids.old.items ids.new.items }
        ensures kept { (S : Face) (path_at : ℕ → List ℕ) → IsAntichainOf S path_at self.old.members → IsAntichainOf S path_at self.new.members }
        ensures room { self.new.room ≡ self.old.room }
        ensures count { length ids.new.items + length self.new.members ≡ length ids.old.items + length self.old.members }
        ensures ids_room { vec_capacity ids.old ≤ vec_capacity ids.new }
    {
        sift_bounded(&mut self.members, gain, ids);
    }
}
