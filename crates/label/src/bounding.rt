//! Bounds: what a label gains at most with all that may still come.

ghost use Rattle.std.specs.Prelude.{◌≡◌, ◌≤◌, ℕ, List, ◌++◌};
ghost use Rattle.label.specs.Briefs.{IsBrief, IsBriefOf};
ghost use Rattle.label.specs.Labels.{IsLabelOf};
ghost use Rattle.label.specs.Outlines.{HasBoundSets};
ghost use Rattle.strip_model.specs.Directed.{has};
ghost use Rattle.strip_model.specs.LabelPath.{LabelPath};
ghost use Rattle.strip_model.specs.Plan.{Feasible, gain_of};
ghost use Rattle.strip_model.specs.Reach.{bound, reaches};
ghost use Rattle.strip_model.specs.Starts.{earliest};
ghost use Rattle.strip_model.specs.Starts.Place.{Root};
ghost use Rattle.strip_model.specs.declared.limits.TheConstants.{MAX_TOTAL_GAIN};

use crate::needing::needs_of;
use crate::reaching::reach_of;
use crate::{Brief, Label, Side, brief, gain_of_strips, reach};
use strip_model::Instance;
use strip_set::{DirectedSet, StripSet};

/// The bound of a label, in twentieths: what its strips and all that are in its reach gain together, and 0 where one of its
/// needs isn't in its reach. Nothing that completes the path to a feasible plan gains more. It takes no memory.
pub fn bound(side: &Side, label: &Label) -> u64
    requires { IsLabelOf side.now label.now }
    ensures value { result ≡ bound side.now.instance label.now.path.items }
    ensures completions { (c : List ℕ) → Feasible side.now.instance (earliest side.now.instance Root (label.now.path.items ++ c)) →
        gain_of side.now.instance (earliest side.now.instance Root (label.now.path.items ++ c)) ≤ result }
    ensures at_most { result ≤ MAX_TOTAL_GAIN }
{
    bound_with(side, label, reach(side, label))
}

/// The bound of a label whose reach is at hand, in twentieths.
pub fn bound_with(side: &Side, label: &Label, reach: DirectedSet) -> u64
    requires label { IsLabelOf side.now label.now }
    requires reach { (y : ℕ) → has y reach ≡ reaches side.now.instance label.now.path.items y }
    ensures value { result ≡ bound side.now.instance label.now.path.items }
    ensures completions { (c : List ℕ) → Feasible side.now.instance (earliest side.now.instance Root (label.now.path.items ++ c)) →
        gain_of side.now.instance (earliest side.now.instance Root (label.now.path.items ++ c)) ≤ result }
    ensures at_most { result ≤ MAX_TOTAL_GAIN }
{
    // For its clause: the side is one of an instance, on whose rules completions rest.
    let _ = side.instance();
    bound_by_reach(side, &brief(label), reach)
}

/// The bound of a brief's path, in twentieths. It takes no memory.
pub fn bound_of(side: &Side, brief: &Brief) -> u64
    requires { IsBrief side.now brief.now }
    ensures { (path : List ℕ) → LabelPath side.now path → IsBriefOf side.now brief.now path → result ≡ bound side.now.instance path }
{
    bound_by_reach(side, brief, reach_of(side, brief))
}

// The bound of a brief's path whose reach is at hand, in twentieths.
fn bound_by_reach(side: &Side, brief: &Brief, reach: DirectedSet) -> u64
    requires { IsBrief side.now brief.now }
    ensures value { (path : List ℕ) → LabelPath side.now path → IsBriefOf side.now brief.now path →
        ((y : ℕ) → has y reach ≡ reaches side.now.instance path y) → result ≡ bound side.now.instance path }
    ensures at_most { result ≤ MAX_TOTAL_GAIN }
{
    bound_of_sets(
        side.instance(),
        brief.visited.strips(),
        needs_of(side, brief),
        reach,
    )
}

/// The bound of a path with these strips, these needs and this reach, in twentieths.
pub(crate) fn bound_of_sets(
    instance: &Instance,
    visited: StripSet,
    needs: DirectedSet,
    reach: DirectedSet,
) -> u64
    ensures value { (path : List ℕ) → HasBoundSets instance.now path visited needs reach → result ≡ bound instance.now path }
    ensures at_most { result ≤ MAX_TOTAL_GAIN }
{
    if !needs.minus(reach).is_empty() {
        return 0;
    }
    gain_of_strips(instance, visited.join(reach.strips()))
}
