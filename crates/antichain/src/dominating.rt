//! The search for a member that dominates a label.

ghost use Rattle.std.specs.Prelude.{◌≡◌, MatchOption};
ghost use Rattle.std.specs.List.{All};
ghost use Rattle.antichain.specs.Judging.{Refused, IsFoundAmong, IsLeastAmong, is_less_than};

use crate::Member;
use label::{Outline, Side, outline_dominates};

// The id of the last of these members that dominates the label of the outline.
pub(crate) fn nearest(side: &Side, members: &[Member], outline: &Outline) -> Option<u32>
    ensures { MatchOption result (All (Refused side.now outline.now) members.now) (IsFoundAmong side.now outline.now members.now) }
{
    let mut k = members.len();
    while k > 0 {
        k -= 1;
        if outline_dominates(side, &members[k].outline, outline) {
            return Some(members[k].id);
        }
    }
    None
}

// The least id of these members that dominate the label of the outline.
pub(crate) fn least(side: &Side, members: &[Member], outline: &Outline) -> Option<u32>
    ensures { MatchOption result (All (Refused side.now outline.now) members.now) (IsLeastAmong side.now outline.now members.now) }
{
    let mut least = None;
    for member in members {
        if is_less(member.id, least) && outline_dominates(side, &member.outline, outline) {
            least = Some(member.id);
        }
    }
    least
}

// Whether an id is less than the least one so far, if there is one.
fn is_less(id: u32, least: Option<u32>) -> bool
    ensures { result ≡ is_less_than id least }
{
    match least {
        Some(other) => id < other,
        None => true,
    }
}
