//! What can still come after a label.

ghost use Rattle.std.specs.Prelude.{◌≡◌, ℕ, ◌<◌, ◌≤◌, ◌==◌, ◌&&◌, ◌||◌, nat_lt, true, List, ◌++◌, length};
ghost use Rattle.label.specs.Briefs.{IsBrief, IsBriefOf};
ghost use Rattle.label.specs.Labels.{IsLabelOf};
ghost use Rattle.label.specs.Tables.{deadline_at};
ghost use Rattle.strip_model.specs.Directed.{strip_of, has};
ghost use Rattle.strip_model.specs.Plan.{Feasible};
ghost use Rattle.strip_model.specs.Reach.{reaches};
ghost use Rattle.strip_model.specs.Starts.{earliest};
ghost use Rattle.strip_model.specs.Starts.Place.{Root};
ghost use Rattle.strip_model.specs.declared.limits.TheConstants.{MAX_STRIPS};

use crate::{Brief, Label, Side, brief};
use strip_model::Directed;
use strip_set::DirectedSet;

/// The reach of a label: the directed strips whose strip isn't in its path, and which can start in their window directly after
/// the path's last. Whatever completes the path to a feasible plan is in its reach. The cap plays no part.
pub fn reach(side: &Side, label: &Label) -> DirectedSet
    requires { IsLabelOf side.now label.now }
    ensures value { (y : ℕ) → has y result ≡ reaches side.now.instance label.now.path.items y }
    ensures completions { (c : List ℕ) → Feasible side.now.instance (earliest side.now.instance Root (label.now.path.items ++ c)) →
        (y : ℕ) → has y c ≡ true → has y result ≡ true }
{
    // For its clause: the side is one of an instance, on whose rules completions rest.
    let _ = side.instance();
    reach_of(side, &brief(label))
}

/// The reach of a brief's path.
pub(crate) fn reach_of(side: &Side, brief: &Brief) -> DirectedSet
    requires { IsBrief side.now brief.now }
    ensures { (path : List ℕ) → IsBriefOf side.now brief.now path → (y : ℕ) → has y result ≡ reaches side.now.instance path y }
{
    let visited = brief.visited.strips();
    let count = side.instance().strips().len() as u16;
    let mut reach = DirectedSet::empty();
    for strip in 0..count {
        if !visited.contains(strip) {
            reach = with_strip(side, brief.start, brief.last, strip, reach);
        }
    }
    reach
}

// The set with those directions of a strip that can begin in time after an acquisition of `last` at this start, in ticks.
fn with_strip(side: &Side, start: u32, last: Directed, strip: u16, set: DirectedSet) -> DirectedSet
    requires last { strip_of last < length side.now.instance.strips }
    requires strip { strip < length side.now.instance.strips }
    requires few { length side.now.instance.strips ≤ MAX_STRIPS }
    ensures { (y : ℕ) → has y result ≡ (has y set || (strip_of y == strip && nat_lt start (deadline_at side.now.instance last y))) }
{
    let set = with_directed(side, start, last, Directed::of(strip, 0), set);
    with_directed(side, start, last, Directed::of(strip, 1), set)
}

// The set with `x`, if that can begin in time after an acquisition of `last` at this start, in ticks.
fn with_directed(
    side: &Side,
    start: u32,
    last: Directed,
    x: Directed,
    set: DirectedSet,
) -> DirectedSet
    requires last { strip_of last < length side.now.instance.strips }
    requires next { strip_of x < length side.now.instance.strips }
    ensures { (y : ℕ) → has y result ≡ (has y set || (y == x && nat_lt start (deadline_at side.now.instance last x))) }
{
    if start < side.deadline(last, x) {
        set.with(x.0)
    } else {
        set
    }
}
