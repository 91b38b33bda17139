//! What the first fault of a log says.

ghost use Rattle.std.specs.Prelude.{◌≡◌, ◌↔◌, ℕ};
ghost use Rattle.log_check.specs.Faults.{Rule, Keeps, IsFirstFault};
ghost use Rattle.proof_log.specs.Rules.{IsProof};
ghost use Rattle.proof_log.specs.declared.log.Log.{Log};
ghost use Rattle.strip_model.specs.Orbit.{Orbit};

/// The laws of first faults: a log is a proof exactly where each rule is kept at each place; a log with a first fault is
/// none; and it has one first fault. It does nothing: its contract is what it is for.
pub fn check_laws()
    ensures kept { (I : Orbit) (log : Log) → IsProof I log ↔ ((rule : Rule) (place : ℕ) → Keeps I log rule place) }
    ensures refuted { (I : Orbit) (log : Log) (rule : Rule) (place : ℕ) → IsFirstFault I log rule place → IsProof I log → ⊥ }
    ensures one { (I : Orbit) (log : Log) (r : Rule) (n : ℕ) (s : Rule) (m : ℕ) → IsFirstFault I log r n → IsFirstFault I log s m → (r ≡ s) × (n ≡ m) }
{}
