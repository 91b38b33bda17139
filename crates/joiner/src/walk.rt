ghost use Rattle.std.specs.Prelude.{◌≡◌, ◌<◌, slice_get, length, All, Some};
ghost use Rattle.std.specs.List.Sorted.{IsNonDecreasingBy};
ghost use Rattle.joiner.specs.Entries.{IsSound, IsGrouped, IsAmong, Covered};
ghost use Rattle.joiner.specs.Offers.{IsAbove};
ghost use Rattle.joiner.specs.Represented.{IsFirst};
ghost use Rattle.joiner.specs.Walks.{IsBounding, IsFoundIn};
ghost use Rattle.joiner.specs.declared.entry.Entry.{Entry};

use crate::Pair;
use crate::entry::root;
use crate::group::Group;
use crate::looks::best_of;
use crate::offers::is_settled;
use crate::ranked::Ranked;
use strip_model::Instance;

/// The best pair of a ranking and the groups. It goes from the greatest bound down, and ends where no bound is left that
/// could make a better pair.
pub(crate) fn best_of_walk(
    instance: &Instance,
    order: &[Ranked],
    groups: &[Group],
    floor: u64,
) -> Option<Pair>
    requires grouped { IsGrouped instance.now groups.now }
    requires sound { All (λ r. IsSound instance.now r.entry) order.now }
    requires bounding { All (IsBounding instance.now groups.now) order.now }
    requires rising { IsNonDecreasingBy (λ r. r.bound) order.now }
    ensures above { IsAbove floor result }
    ensures covered { (f w : Entry) → IsFirst order.now f → IsAmong groups.now w → Covered instance.now floor result f w }
    ensures found { IsFoundIn instance.now (IsFirst order.now) (IsAmong groups.now) result }
{
    let mut best = best_of(instance, groups, floor, None, &root());
    for k in 0..order.len() {
        let ranked = ranked_at(order, order.len() - 1 - k);
        if is_settled(floor, best, ranked.bound) {
            break;
        }
        best = best_of(instance, groups, floor, best, &ranked.entry);
    }
    best
}

// The label at this place of the ranking.
fn ranked_at(order: &[Ranked], k: usize) -> &Ranked
    requires { k < length order.now }
    ensures { slice_get order.now k ≡ Some result.now }
{
    &order[k]
}
