//! What the rules of a log are good for.

ghost use Rattle.proof_log.specs.Rules.{IsProof};
ghost use Rattle.proof_log.specs.declared.log.Log.{Log};
ghost use Rattle.strip_model.specs.IsInstance.{IsInstance};
ghost use Rattle.strip_model.specs.Optimal.{Optimal};
ghost use Rattle.strip_model.specs.Orbit.{Orbit};

/// The law of logs: of each instance, a log that keeps the rules has an optimal plan, whoever wrote it.
pub fn proof_laws()
    ensures optimal { (I : Orbit) (log : Log) → IsInstance I → IsProof I log → Optimal I log.plan.items }
{}
