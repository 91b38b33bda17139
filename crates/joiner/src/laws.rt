//! Laws that no single call carries.

ghost use Rattle.std.specs.Prelude.{◌≡◌, ◌≤◌, ◌↔◌, ℕ, List, [], Option};
ghost use Rattle.joiner.specs.Halves.{IsHalf, MayJoin};
ghost use Rattle.joiner.specs.Pairs.{IsBest, IsOver};
ghost use Rattle.joiner.specs.declared.over.Over.{Over};
ghost use Rattle.joiner.specs.declared.pair.Pair.{Pair};
ghost use Rattle.label.specs.declared.label.Label.{Label};
ghost use Rattle.strip_model.specs.IsInstance.{IsInstance};
ghost use Rattle.strip_model.specs.Join.{Joins, join_gain};
ghost use Rattle.strip_model.specs.LabelPath.{LabelPath};
ghost use Rattle.strip_model.specs.Mirror.{mirror_of};
ghost use Rattle.strip_model.specs.Orbit.{Orbit};
ghost use Rattle.strip_model.specs.Reach.{bound};
ghost use Rattle.strip_model.specs.Side.{Face};

/// The law of joins, for roots and for label paths of sides with any cuts, and what follows for searches. It does nothing: its
/// contract is what it is for.
///
/// A forward half and a backward one join exactly where no strip stands in both, the forward one needs what is open in the
/// backward one, and there is time between their last acquisitions. What joins gains at most the bound of either. And each
/// search has just one answer.
pub fn joiner_laws()
    ensures root { (J : Orbit) → IsHalf J [] }
    ensures label { (S : Face) (path : List ℕ) → LabelPath S path → IsHalf S.instance path }
    ensures law { (J : Orbit) (f b : List ℕ) → IsInstance J → IsHalf J f → IsHalf (mirror_of J) b → (Joins J f b ↔ MayJoin J f b) }
    ensures forward_bound { (J : Orbit) (f b : List ℕ) → IsInstance J → Joins J f b → join_gain J f b ≤ bound J f }
    ensures backward_bound { (J : Orbit) (f b : List ℕ) → IsInstance J → Joins J f b → join_gain J f b ≤ bound (mirror_of J) b }
    ensures one_best { (J : Orbit) (forward backward : List Label) (floor : ℕ) (first second : Option Pair) → IsBest J forward backward floor first → IsBest J forward backward floor second → first ≡ second }
    ensures one_first { (J : Orbit) (forward backward : List Label) (floor : ℕ) (first second : Option Over) → IsOver J forward backward floor first → IsOver J forward backward floor second → first ≡ second }
{}
