//! Members are taken out, in one pass along them.

ghost use Rattle.std.specs.Prelude.{ℕ, ◌≡◌, ◌+◌, ◌<◌, ◌≤◌, length, slice_index_or};
ghost use Rattle.std.specs.List.{All};
ghost use Rattle.std.specs.Vec.{vec_capacity};
ghost use Rattle.antichain.specs.Antichains.{TakesOut};
ghost use Rattle.antichain.specs.Judging.{Beaten, Unbeaten};
ghost use Rattle.antichain.specs.declared.member.Member.{Member};

use crate::Member;
use crate::room::{move_down, put};
use label::{Outline, Side, outline_dominates};

// Takes out the members from this place on that the label of the outline dominates, and adds their ids.
pub(crate) fn sift_beaten(
    side: &Side,
    outline: &Outline,
    members: &mut Vec<Member>,
    from: usize,
    ids: &mut Vec<u32>,
)
    requires from { from ≤ length members.old.items }
    requires front { (k : ℕ) (d : Member) → k < from → Unbeaten side.now outline.now (slice_index_or members.old.items k d) }
    requires room { length ids.old.items + length members.old.items ≤ vec_capacity ids.old }
    ensures out { TakesOut (Beaten side.now outline.now) (Unbeaten side.now outline.now) members.old.items members.new.items ids.old.items ids.new.items }
    ensures members_room { vec_capacity members.new ≡ vec_capacity members.old }
    ensures ids_room { vec_capacity ids.old ≤ vec_capacity ids.new }
{
    let mut kept = from;
    for k in from..members.len() {
        if outline_dominates(side, outline, &members[k].outline) {
            put(ids, members[k].id);
        } else {
            move_down(members, kept, k);
            kept += 1;
        }
    }
    members.truncate(kept);
}

// Takes out the members whose bound is at most the gain, and adds their ids.
pub(crate) fn sift_bounded(members: &mut Vec<Member>, gain: u64, ids: &mut Vec<u32>)
    requires room { length ids.old.items + length members.old.items ≤ vec_capacity ids.old }
    ensures out { TakesOut (λ (m : Member). m.outline.bound ≤ gain) (λ (m : Member). gain < m.outline.bound) members.old.items members.new.items ids.old.items ids.new.items }
    ensures members_room { vec_capacity members.new ≡ vec_capacity members.old }
    ensures ids_room { vec_capacity ids.old ≤ vec_capacity ids.new }
{
    let mut kept = 0;
    for k in 0..members.len() {
        if members[k].outline.bound <= gain {
            put(ids, members[k].id);
        } else {
            move_down(members, kept, k);
            kept += 1;
        }
    }
    members.truncate(kept);
}
