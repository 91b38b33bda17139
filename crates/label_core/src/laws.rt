//! What legal runs are good for.

ghost use Rattle.std.specs.Prelude.{ℕ, List};
ghost use Rattle.label_core.specs.Closed.{IsClosed};
ghost use Rattle.label_core.specs.CoreState.{CoreState, opening};
ghost use Rattle.label_core.specs.Events.{Event, IsRun};
ghost use Rattle.label_core.specs.LogOf.{IsLogOf};
ghost use Rattle.proof_log.specs.Rules.{IsProof};
ghost use Rattle.proof_log.specs.declared.log.Log.{Log};
ghost use Rattle.strip_model.specs.Orbit.{Orbit};

/// The law of the core: of each instance and cut, whatever legal steps lead from the opening state to a closed one, and in
/// whatever order, each log of that state keeps the rules of a proof. It does nothing: its contract is what it is for.
pub fn core_laws()
    ensures closed { (I : Orbit) (H : ℕ) (events : List Event) (s : CoreState) (log : Log) → IsRun I H opening events s → IsClosed I H s
        → IsLogOf I H s log → IsProof I log }
{}
