//! Sets of directed strips: a set of strips for each direction.
ghost use Rattle.std.specs.Prelude.{◌≡◌, ℕ, ◌<◌, ◌≤◌, ◌==◌, ◌&&◌, ◌||◌, not, [], length, true, false, if◌then◌else◌, MatchOption, IsTrue, ◌↔◌, nat_eq};
ghost use Rattle.std.specs.Bool.{OnTrue, OnFalse};
ghost use Rattle.std.specs.Cmp.Lexicographic.{pointwise};
ghost use Rattle.std.specs.Iterator.{YieldsFirst};
ghost use Rattle.strip_set.specs.Members.{has, has_strip, IsSet};
ghost use Rattle.strip_set.specs.Stored.{IsLeast};

use crate::{MAX_STRIPS, SetIter, StripSet};
use std::marker::Model;

/// Directed strips are numbers below this: two for each strip.
pub const MAX_DIRECTED: u16 = 2 * MAX_STRIPS;

/// A set of directed strips, seen as the rising list of their numbers.
#[derive(Clone, Copy, Debug)]
pub struct DirectedSet {
    // The strips whose direction 0 is a member.
    direction_0: StripSet,
    // The strips whose direction 1 is a member.
    direction_1: StripSet,
}

impl Model for DirectedSet {
    ghost use Rattle.std.specs.Prelude.{ℕ, List};
    ghost use Rattle.std.proofs.Common.{ap₂};
    ghost use Rattle.strip_set.specs.declared.directed_set.TheConstants.{MAX_DIRECTED};
    ghost use Rattle.strip_set.specs.declared.strip_set.TheConstants.{MAX_STRIPS};
    ghost use Rattle.strip_set.specs.Stored.{AreSets, direction_0-directed, direction_1-directed, directed_members, strips_of_direction};

    ghost Value = { List ℕ };

    ghost view = { λ set. directed_members MAX_DIRECTED set.direction_0 set.direction_1 };

    ghost invariant = { λ set. AreSets MAX_STRIPS set.direction_0 set.direction_1 };

    ghost inverse = { λ list. record { direction_0 = strips_of_direction MAX_STRIPS 0 list; direction_1 = strips_of_direction MAX_STRIPS 1 list } };

    ghost inverse_ok = { λ set sets. ap₂ (λ direction_0 direction_1. record { direction_0 = direction_0; direction_1 = direction_1 })
        (direction_0-directed MAX_STRIPS set.direction_0 set.direction_1 sets) (direction_1-directed MAX_STRIPS set.direction_0 set.direction_1 sets) };
}

impl DirectedSet {
    /// The set with no member.
    pub fn empty() -> Self
        ensures { result ≡ [] }
    {
        DirectedSet {
            direction_0: StripSet::empty(),
            direction_1: StripSet::empty(),
        }
    }

    /// This set with `n` as a member too.
    pub fn with(self, n: u16) -> Self
        requires { n < MAX_DIRECTED }
        ensures members { (y : ℕ) → has y result ≡ (if y == n then true else has y self) }
        ensures set { IsSet MAX_DIRECTED result }
    {
        if n % 2 == 0 {
            DirectedSet {
                direction_0: self.direction_0.with(n / 2),
                direction_1: self.direction_1,
            }
        } else {
            DirectedSet {
                direction_0: self.direction_0,
                direction_1: self.direction_1.with(n / 2),
            }
        }
    }

    /// This set without `n`.
    pub fn without(self, n: u16) -> Self
        requires { n < MAX_DIRECTED }
        ensures members { (y : ℕ) → has y result ≡ (if y == n then false else has y self) }
        ensures set { IsSet MAX_DIRECTED result }
    {
        if n % 2 == 0 {
            DirectedSet {
                direction_0: self.direction_0.without(n / 2),
                direction_1: self.direction_1,
            }
        } else {
            DirectedSet {
                direction_0: self.direction_0,
                direction_1: self.direction_1.without(n / 2),
            }
        }
    }

    /// Whether `n` is a member.
    pub fn contains(&self, n: u16) -> bool
        requires { n < MAX_DIRECTED }
        ensures value { result ≡ has n self.now }
        ensures set { IsSet MAX_DIRECTED self.now }
    {
        if n % 2 == 0 {
            self.direction_0.contains(n / 2)
        } else {
            self.direction_1.contains(n / 2)
        }
    }

    /// The members of both sets.
    pub fn meet(self, other: Self) -> Self
        ensures members { (y : ℕ) → has y result ≡ (has y self && has y other) }
        ensures set { IsSet MAX_DIRECTED result }
    {
        DirectedSet {
            direction_0: self.direction_0.meet(other.direction_0),
            direction_1: self.direction_1.meet(other.direction_1),
        }
    }

    /// The members of either set.
    pub fn join(self, other: Self) -> Self
        ensures members { (y : ℕ) → has y result ≡ (has y self || has y other) }
        ensures set { IsSet MAX_DIRECTED result }
    {
        DirectedSet {
            direction_0: self.direction_0.join(other.direction_0),
            direction_1: self.direction_1.join(other.direction_1),
        }
    }

    /// The members of this set that aren't in `other`.
    pub fn minus(self, other: Self) -> Self
        ensures members { (y : ℕ) → has y result ≡ (has y self && not (has y other)) }
        ensures set { IsSet MAX_DIRECTED result }
    {
        DirectedSet {
            direction_0: self.direction_0.minus(other.direction_0),
            direction_1: self.direction_1.minus(other.direction_1),
        }
    }

    /// Whether no number is a member of both sets.
    pub fn disjoint(&self, other: &Self) -> bool
        ensures apart { OnTrue result ((y : ℕ) → (has y self.now && has y other.now) ≡ false) }
        ensures common { OnFalse result ((y : ℕ) × (has y self.now ≡ true) × (has y other.now ≡ true)) }
    {
        self.direction_0.disjoint(&other.direction_0)
            && self.direction_1.disjoint(&other.direction_1)
    }

    /// How many members there are.
    pub fn len(&self) -> u32
        ensures value { result ≡ length self.now }
        ensures most { result ≤ MAX_DIRECTED }
        ensures set { IsSet MAX_DIRECTED self.now }
    {
        self.direction_0.len() + self.direction_1.len()
    }

    /// Whether there is no member.
    pub fn is_empty(&self) -> bool
        ensures none { OnTrue result (self.now ≡ []) }
        ensures some { OnFalse result ((y : ℕ) × (has y self.now ≡ true)) }
    {
        self.direction_0.is_empty() && self.direction_1.is_empty()
    }

    /// Gives each member once, in rising order.
    pub fn iter(&self) -> SetIter
        ensures rest { result ≡ self.now }
        ensures set { IsSet MAX_DIRECTED self.now }
    {
        // A set's fields tell that its list rises, and nothing else here reads one.
        let _ = &self.direction_0;
        SetIter::over_directed(*self)
    }

    /// The strips of the members.
    pub fn strips(self) -> StripSet
        ensures strips { (i : ℕ) → has i result ≡ has_strip i self }
        ensures set { IsSet MAX_STRIPS result }
    {
        self.direction_0.join(self.direction_1)
    }

    // The least member.
    pub(crate) fn first(&self) -> Option<u16>
        ensures least { MatchOption result (self.now ≡ []) (IsLeast self.now) }
        ensures set { IsSet MAX_DIRECTED self.now }
    {
        match (self.direction_0.first(), self.direction_1.first()) {
            (None, None) => None,
            (Some(even), None) => Some(2 * even),
            (None, Some(odd)) => Some(2 * odd + 1),
            (Some(even), Some(odd)) => Some((2 * even).min(2 * odd + 1)),
        }
    }

    // Takes the least member out.
    pub(crate) fn take_first(&mut self) -> Option<u16>
        ensures { YieldsFirst (λ set. set) self.old result self.new }
    {
        let first = self.first()?;
        *self = self.without(first);
        Some(first)
    }
}

impl PartialEq for DirectedSet {
    ghost use Rattle.std.specs.Prelude.{nat_eq};
    ghost use Rattle.std.specs.Cmp.{nat_eq_equiv, partial_equiv_from_equiv};
    ghost use Rattle.std.specs.Cmp.Lexicographic.{pointwise, lists_equiv};

    ghost eq = { pointwise nat_eq };

    ghost laws = { partial_equiv_from_equiv (lists_equiv nat_eq_equiv) };

    fn eq(&self, other: &Self) -> bool
        ensures value { result ≡ pointwise nat_eq self.now other.now }
        ensures members { IsTrue result ↔ ((y : ℕ) → has y self.now ≡ has y other.now) }
    {
        self.direction_0 == other.direction_0 && self.direction_1 == other.direction_1
    }
}

impl Eq for DirectedSet {
    ghost use Rattle.std.specs.Cmp.{nat_eq_equiv};
    ghost use Rattle.std.specs.Cmp.Lexicographic.{lists_equiv};

    ghost laws = { lists_equiv nat_eq_equiv };
}
