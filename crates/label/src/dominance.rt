//! Dominance between labels.

ghost use Rattle.std.specs.Prelude.{◌≡◌, ◌≤◌, ◌↔◌, ℕ, true, List, ◌++◌, IsTrue};
ghost use Rattle.label.specs.Briefs.{IsBrief, IsBriefOf};
ghost use Rattle.label.specs.Labels.{IsLabelOf};
ghost use Rattle.strip_model.specs.Dominance.{Dominates};
ghost use Rattle.strip_model.specs.LabelPath.{LabelPath};
ghost use Rattle.strip_model.specs.Plan.{Feasible, gain_of};
ghost use Rattle.strip_model.specs.Starts.{earliest};
ghost use Rattle.strip_model.specs.Starts.Place.{Root};

use crate::differences::gains_no_less;
use crate::needing::needs_of;
use crate::reaching::reach_of;
use crate::{Brief, Label, Side, brief};

/// Whether the first of two labels of this side dominates the second: whatever completes the second to a feasible plan does so
/// for the first, which gains no less with it. It takes no memory.
pub fn dominates(side: &Side, b: &Label, a: &Label) -> bool
    requires b { IsLabelOf side.now b.now }
    requires a { IsLabelOf side.now a.now }
    ensures value { IsTrue result ↔ Dominates side.now.instance b.now.path.items a.now.path.items }
    ensures completions { result ≡ true → (c : List ℕ) →
        Feasible side.now.instance (earliest side.now.instance Root (a.now.path.items ++ c)) →
        Feasible side.now.instance (earliest side.now.instance Root (b.now.path.items ++ c))
        × (gain_of side.now.instance (earliest side.now.instance Root (a.now.path.items ++ c)) ≤ gain_of side.now.instance (earliest side.now.instance Root (b.now.path.items ++ c))) }
{
    // For its clause: the side is one of an instance, on whose rules completions rest.
    let _ = side.instance();
    brief_dominates(side, &brief(b), &brief(a))
}

/// Whether the path of the first brief dominates that of the second. It takes no memory.
pub fn brief_dominates(side: &Side, b: &Brief, a: &Brief) -> bool
    requires b { IsBrief side.now b.now }
    requires a { IsBrief side.now a.now }
    ensures { (path_b path_a : List ℕ) → LabelPath side.now path_b → LabelPath side.now path_a →
        IsBriefOf side.now b.now path_b → IsBriefOf side.now a.now path_a →
        (IsTrue result ↔ Dominates side.now.instance path_b path_a) }
{
    if b.last != a.last {
        return false;
    }
    if b.start > a.start {
        return false;
    }
    let visited = b.visited.strips();
    let reach = reach_of(side, a).strips();
    if !visited.disjoint(&reach) {
        return false;
    }
    needs_of(side, b) == needs_of(side, a)
        && gains_no_less(side, visited, a.visited.strips(), reach)
}
