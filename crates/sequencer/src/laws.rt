//! Laws that no single call carries: with budget enough, no search is left open.

ghost use Rattle.std.specs.Prelude.{ℕ, ◌≤◌, List, Option};
ghost use Rattle.instance_text.specs.Text.{IsText};
ghost use Rattle.sequencer.specs.Searching.{cut_for};
ghost use Rattle.sequencer.specs.Solving.{Solves};
ghost use Rattle.sequencer.specs.declared.status.Status.TheVariants.{Best};
ghost use Rattle.strip_model.specs.Orbit.{Orbit};
ghost use Rattle.strip_model.specs.PathCount.{path_count_of};

/// The law of budgets: with a budget of at least as many labels as there are label paths of both sides, `solve` isn't left open. It
/// does nothing: its contract is what it is for.
pub fn budget_laws()
    ensures { (workers budget : ℕ) (cut : Option ℕ) (input text : List ℕ) (J : Orbit) → IsText input J → path_count_of J (cut_for J cut) ≤ budget → Solves workers budget cut input text Best → ⊥ }
{}
