//! Outlines: what is kept besides a brief so that dominance and joins don't reckon it again.

ghost use Rattle.std.specs.Prelude.{◌≡◌, ◌↔◌, ℕ, List, IsTrue};
ghost use Rattle.label.specs.Briefs.{IsBrief, IsBriefOf};
ghost use Rattle.label.specs.Outlines.{IsOutlineOf};
ghost use Rattle.strip_model.specs.Dominance.{Dominates};
ghost use Rattle.strip_model.specs.LabelPath.{LabelPath};

use crate::bounding::bound_of_sets;
use crate::differences::gains_no_less;
use crate::needing::needs_of;
use crate::reaching::reach_of;
use crate::{Brief, Side, gain_of_strips};
use strip_model::Directed;
use strip_set::{DirectedSet, StripSet};

/// What a dominance set or a join keeps of a label, so that it never looks at the path again. A contract says by `IsOutlineOf`
/// that it is the outline of a path.
#[derive(Clone, Copy, Debug)]
pub struct Outline {
    /// The last directed strip of the path.
    pub last: Directed,
    /// The earliest start of the last, in ticks from the side's end.
    pub start: u32,
    /// The strips of the path.
    pub visited: StripSet,
    /// The strips of which a direction is in the path's reach.
    pub reach: StripSet,
    /// The needs of the path.
    pub needs: DirectedSet,
    /// What the path's strips gain, in twentieths.
    pub gain: u64,
    /// The bound of the path, in twentieths.
    pub bound: u64,
}

/// The outline of a brief's path: what it has besides, for speed, comes of the brief and the side. It takes no memory.
pub fn outline_of(side: &Side, brief: &Brief) -> Outline
    requires { IsBrief side.now brief.now }
    ensures { (path : List ℕ) → LabelPath side.now path → IsBriefOf side.now brief.now path → IsOutlineOf side.now result path }
{
    let instance = side.instance();
    let visited = brief.visited.strips();
    let needs = needs_of(side, brief);
    let reach = reach_of(side, brief);
    Outline {
        last: brief.last,
        start: brief.start,
        visited,
        reach: reach.strips(),
        needs,
        gain: gain_of_strips(instance, visited),
        bound: bound_of_sets(instance, visited, needs, reach),
    }
}

/// Whether the label of the first outline dominates that of the second, whatever their paths are. It takes no memory, and
/// as many steps as there are requests, after a few tests that settle most pairs.
pub fn outline_dominates(side: &Side, b: &Outline, a: &Outline) -> bool
    ensures { (path_b path_a : List ℕ) → LabelPath side.now path_b → LabelPath side.now path_a →
        IsOutlineOf side.now b.now path_b → IsOutlineOf side.now a.now path_a →
        (IsTrue result ↔ Dominates side.now.instance path_b path_a) }
{
    // The tests that settle most pairs come first.
    if !b.visited.disjoint(&a.reach) {
        return false;
    }
    if b.start > a.start {
        return false;
    }
    // Without any more area the first gains no less.
    if b.gain < a.gain {
        return false;
    }
    if b.last != a.last {
        return false;
    }
    b.needs == a.needs && gains_no_less(side, b.visited, a.visited, a.reach)
}
