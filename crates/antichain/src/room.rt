//! Changes of vectors that take no memory.

ghost use Rattle.std.specs.Prelude.{◌≡◌, ◌+◌, ◌<◌, ◌≤◌, [], ◌∷◌, ◌++◌, length, set, vec_len, slice_index_or};
ghost use Rattle.std.specs.Vec.{vec_capacity};
ghost use Rattle.std.specs.List.{insert};
ghost use Rattle.antichain.specs.declared.member.Member.{Member};

use crate::Member;

// One more id, for which there is room.
pub(crate) fn put(ids: &mut Vec<u32>, id: u32)
    requires { length ids.old.items < vec_capacity ids.old }
    ensures items { ids.new.items ≡ ids.old.items ++ id ∷ [] }
    ensures room { vec_capacity ids.old ≤ vec_capacity ids.new }
{
    match ids.push(id) {
        Ok(()) => {}
        Err(_) => {}
    }
}

// One more member at this place, for which there is room.
pub(crate) fn put_at(members: &mut Vec<Member>, place: usize, member: Member)
    requires room { length members.old.items < vec_capacity members.old }
    requires place { place ≤ length members.old.items }
    ensures items { members.new.items ≡ insert members.old.items place member }
    ensures room { vec_capacity members.new ≡ vec_capacity members.old }
{
    match members.insert(place, member) {
        Ok(()) => {}
        Err(_) => {}
    }
}

// The member at one place stands at an earlier one too.
pub(crate) fn move_down(members: &mut Vec<Member>, to: usize, at: usize)
    requires to { to ≤ at }
    requires there { at < length members.old.items }
    ensures items { (d : Member) → members.new.items ≡ set members.old.items to (slice_index_or members.old.items at d) }
    ensures room { vec_capacity members.new ≡ vec_capacity members.old }
{
    if to < at {
        members[to] = members[at];
    }
}
