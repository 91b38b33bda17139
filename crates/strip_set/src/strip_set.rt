//! Sets of strips in one word, which contracts see as rising lists.
ghost use Rattle.std.specs.Prelude.{◌≡◌, ℕ, ◌<◌, ◌≤◌, ◌==◌, ◌&&◌, ◌||◌, not, [], length, true, false, if◌then◌else◌, MatchOption, IsTrue, ◌↔◌, nat_eq};
ghost use Rattle.std.specs.Bool.{OnTrue, OnFalse};
ghost use Rattle.std.specs.Cmp.Lexicographic.{pointwise};
ghost use Rattle.std.specs.Iterator.{YieldsFirst};
ghost use Rattle.strip_set.specs.Members.{has, IsSet};
ghost use Rattle.strip_set.specs.Stored.{IsLeast};

use crate::SetIter;
use std::marker::Model;

/// Strips are numbers below this: as many as a word has bits.
pub const MAX_STRIPS: u16 = 64;

/// A set of strips, seen as the rising list of their numbers.
#[derive(Clone, Copy, Debug)]
pub struct StripSet {
    // Strip `n` is a member where bit `n` is set.
    bits: u64,
}

impl Model for StripSet {
    ghost use Rattle.std.specs.Prelude.{ℕ, ◌<◌, ◌^◌, List};
    ghost use Rattle.std.proofs.Common.{ap};
    ghost use Rattle.strip_set.specs.declared.strip_set.TheConstants.{MAX_STRIPS};
    ghost use Rattle.strip_set.specs.Stored.{members, word_of, word_of-members};

    ghost Value = { List ℕ };

    ghost view = { λ set. members MAX_STRIPS set.bits };

    ghost invariant = { λ set. set.bits < 2 ^ MAX_STRIPS };

    ghost inverse = { λ list. record { bits = word_of list } };

    ghost inverse_ok = { λ set fits. ap (λ word. record { bits = word }) (word_of-members MAX_STRIPS set.bits fits) };
}

impl StripSet {
    /// The set with no member.
    pub fn empty() -> Self
        ensures { result ≡ [] }
    {
        StripSet { bits: 0 }
    }

    /// This set with `n` as a member too.
    pub fn with(self, n: u16) -> Self
        requires { n < MAX_STRIPS }
        ensures members { (y : ℕ) → has y result ≡ (if y == n then true else has y self) }
        ensures set { IsSet MAX_STRIPS result }
    {
        StripSet {
            bits: self.bits | (1 << n),
        }
    }

    /// This set without `n`.
    pub fn without(self, n: u16) -> Self
        requires { n < MAX_STRIPS }
        ensures members { (y : ℕ) → has y result ≡ (if y == n then false else has y self) }
        ensures set { IsSet MAX_STRIPS result }
    {
        StripSet {
            bits: self.bits & !(1 << n),
        }
    }

    /// Whether `n` is a member.
    pub fn contains(&self, n: u16) -> bool
        requires { n < MAX_STRIPS }
        ensures value { result ≡ has n self.now }
        ensures set { IsSet MAX_STRIPS self.now }
    {
        (self.bits >> n) & 1 == 1
    }

    /// The members of both sets.
    pub fn meet(self, other: Self) -> Self
        ensures members { (y : ℕ) → has y result ≡ (has y self && has y other) }
        ensures set { IsSet MAX_STRIPS result }
    {
        StripSet {
            bits: self.bits & other.bits,
        }
    }

    /// The members of either set.
    pub fn join(self, other: Self) -> Self
        ensures members { (y : ℕ) → has y result ≡ (has y self || has y other) }
        ensures set { IsSet MAX_STRIPS result }
    {
        StripSet {
            bits: self.bits | other.bits,
        }
    }

    /// The members of this set that aren't in `other`.
    pub fn minus(self, other: Self) -> Self
        ensures members { (y : ℕ) → has y result ≡ (has y self && not (has y other)) }
        ensures set { IsSet MAX_STRIPS result }
    {
        StripSet {
            bits: self.bits & !other.bits,
        }
    }

    /// Whether no number is a member of both sets.
    pub fn disjoint(&self, other: &Self) -> bool
        ensures apart { OnTrue result ((y : ℕ) → (has y self.now && has y other.now) ≡ false) }
        ensures common { OnFalse result ((y : ℕ) × (has y self.now ≡ true) × (has y other.now ≡ true)) }
    {
        self.bits & other.bits == 0
    }

    /// How many members there are.
    pub fn len(&self) -> u32
        ensures value { result ≡ length self.now }
        ensures most { result ≤ MAX_STRIPS }
        ensures set { IsSet MAX_STRIPS self.now }
    {
        self.bits.count_ones()
    }

    /// Whether there is no member.
    pub fn is_empty(&self) -> bool
        ensures none { OnTrue result (self.now ≡ []) }
        ensures some { OnFalse result ((y : ℕ) × (has y self.now ≡ true)) }
    {
        self.bits == 0
    }

    /// Gives each member once, in rising order.
    pub fn iter(&self) -> SetIter
        ensures rest { result ≡ self.now }
        ensures set { IsSet MAX_STRIPS self.now }
    {
        // A set's fields tell that its list rises, and nothing else here reads one.
        let _ = &self.bits;
        SetIter::over_strips(*self)
    }

    // The least member.
    pub(crate) fn first(&self) -> Option<u16>
        ensures least { MatchOption result (self.now ≡ []) (IsLeast self.now) }
        ensures set { IsSet MAX_STRIPS self.now }
    {
        if self.bits == 0 {
            return None;
        }
        Some(self.bits.trailing_zeros() as u16)
    }

    // Takes the least member out.
    pub(crate) fn take_first(&mut self) -> Option<u16>
        ensures { YieldsFirst (λ set. set) self.old result self.new }
    {
        let first = self.first()?;
        *self = self.without(first);
        Some(first)
    }
}

impl PartialEq for StripSet {
    ghost use Rattle.std.specs.Prelude.{nat_eq};
    ghost use Rattle.std.specs.Cmp.{nat_eq_equiv, partial_equiv_from_equiv};
    ghost use Rattle.std.specs.Cmp.Lexicographic.{pointwise, lists_equiv};

    ghost eq = { pointwise nat_eq };

    ghost laws = { partial_equiv_from_equiv (lists_equiv nat_eq_equiv) };

    fn eq(&self, other: &Self) -> bool
        ensures value { result ≡ pointwise nat_eq self.now other.now }
        ensures members { IsTrue result ↔ ((y : ℕ) → has y self.now ≡ has y other.now) }
    {
        self.bits == other.bits
    }
}

impl Eq for StripSet {
    ghost use Rattle.std.specs.Cmp.{nat_eq_equiv};
    ghost use Rattle.std.specs.Cmp.Lexicographic.{lists_equiv};

    ghost laws = { lists_equiv nat_eq_equiv };
}
