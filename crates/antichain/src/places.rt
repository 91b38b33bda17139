//! Places in the order of the starts.

ghost use Rattle.std.specs.Prelude.{ℕ, ◌≡◌, ◌≢◌, ◌<◌, ◌≤◌, length, slice_index_or, MatchOption};
ghost use Rattle.antichain.specs.Antichains.{IsRising, HasIdAt};
ghost use Rattle.antichain.specs.declared.member.Member.{Member};

use crate::Member;

// How many members start before this tick: they are the first ones.
pub(crate) fn before(members: &[Member], start: u32) -> usize
    requires { IsRising members.now }
    ensures within { result ≤ length members.now }
    ensures front { (k : ℕ) (d : Member) → k < result → (slice_index_or members.now k d).outline.start < start }
    ensures rest { (k : ℕ) (d : Member) → result ≤ k → k < length members.now → start ≤ (slice_index_or members.now k d).outline.start }
{
    members.partition_point(|member| member.outline.start < start)
}

// How many members start at this tick or before it: they are the first ones.
pub(crate) fn up_to(members: &[Member], start: u32) -> usize
    requires { IsRising members.now }
    ensures within { result ≤ length members.now }
    ensures front { (k : ℕ) (d : Member) → k < result → (slice_index_or members.now k d).outline.start ≤ start }
    ensures rest { (k : ℕ) (d : Member) → result ≤ k → k < length members.now → start < (slice_index_or members.now k d).outline.start }
{
    members.partition_point(|member| member.outline.start <= start)
}

// The place of a member with this id from one place on up to another.
pub(crate) fn place_of(members: &[Member], from: usize, to: usize, id: u32) -> Option<usize>
    requires { to ≤ length members.now }
    ensures { MatchOption result ((k : ℕ) (d : Member) → from ≤ k → k < to → (slice_index_or members.now k d).id ≢ id) (HasIdAt members.now id) }
{
    for k in from..to {
        if members[k].id == id {
            return Some(k);
        }
    }
    None
}
