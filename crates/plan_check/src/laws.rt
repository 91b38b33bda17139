//! What holds of all plans and of all texts of plans, whoever judges or reads them.

ghost use Rattle.std.specs.Prelude.{◌≡◌, ◌⊎◌, ℕ, List, ◌↔◌};
ghost use Rattle.plan_check.specs.Fault.{IsFaultless};
ghost use Rattle.plan_check.specs.PlanText.{IsPlanText};
ghost use Rattle.plan_check.specs.Refusal.{IsFirstBadLine};
ghost use Rattle.strip_model.specs.Orbit.{Orbit};
ghost use Rattle.strip_model.specs.Plan.{Feasible};
ghost use Rattle.strip_model.specs.declared.acquisition.Acquisition.{Acquisition};

/// A plan is feasible exactly where it has no fault. It does nothing: its contract is what it is for.
pub fn fault_laws()
    ensures { (J : Orbit) (plan : List Acquisition) → Feasible J plan ↔ IsFaultless J plan }
{}

/// The laws of texts of plans: a text is that of one plan, and then none of its lines is one that can't stand; bytes that are
/// no such text have a first line that can't, and no other one. It does nothing: its contract is what it is for.
pub fn plan_text_laws()
    ensures one_plan { (bytes : List ℕ) (one other : List Acquisition) → IsPlanText bytes one → IsPlanText bytes other → one ≡ other }
    ensures none_refused { (bytes : List ℕ) (plan : List Acquisition) (n : ℕ) → IsPlanText bytes plan → ¬ IsFirstBadLine bytes n }
    ensures else_refused { (bytes : List ℕ) → ((plan : List Acquisition) × IsPlanText bytes plan) ⊎ ((n : ℕ) × IsFirstBadLine bytes n) }
    ensures one_refusal { (bytes : List ℕ) (m n : ℕ) → IsFirstBadLine bytes m → IsFirstBadLine bytes n → m ≡ n }
{}
