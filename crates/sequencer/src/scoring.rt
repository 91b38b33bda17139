//! What `score` answers to its input: the gain of a plan, or why it has none.

ghost use Rattle.std.specs.Prelude.{◌≤◌, ℕ, List, length, IfOk};
ghost use Rattle.plan_check.specs.Fault.{IsFirstFault};
ghost use Rattle.plan_check.specs.PlanText.{IsPlanText};
ghost use Rattle.sequencer.specs.Scoring.{Scores, ScoresRest};
ghost use Rattle.sequencer.specs.declared.limits.TheConstants.{MAX_SCORE_INPUT};
ghost use Rattle.strip_model.specs.Orbit.{Orbit};
ghost use Rattle.strip_model.specs.declared.acquisition.Acquisition.{Acquisition};

use crate::Status;
use crate::answer::Answer;
use crate::texts::{fault_text, gain_text, refusal_text, rejection_text};
use instance_text::{TextRefusal, read_front};
use plan_check::{PlanFault, PlanRefusal, judge, read_plan};
use std::alloc::{AllocError, Global};
use strip_model::Instance;

/// The gain of the plan that follows the instance in the input.
pub(crate) fn score(alloc: Global, input: &[u8]) -> Result<Answer, AllocError>
    requires { length input.now ≤ MAX_SCORE_INPUT }
    ensures { IfOk result (λ answer. Scores input.now answer.text.items answer.status) }
{
    match read_front(alloc, input) {
        Ok((instance, front)) => score_rest(alloc, &instance, &input[front..]),
        Err(TextRefusal::Memory) => Err(AllocError),
        Err(TextRefusal::Refused(refusal)) => Ok(Answer {
            status: Status::Refused,
            text: refusal_text(alloc, refusal)?,
        }),
    }
}

// The gain of the plan that these bytes tell.
fn score_rest(alloc: Global, instance: &Instance, rest: &[u8]) -> Result<Answer, AllocError>
    ensures { IfOk result (λ answer. ScoresRest instance.now rest.now answer.text.items answer.status) }
{
    let plan = match read_plan(alloc, rest) {
        Ok(plan) => plan,
        Err(PlanRefusal::Memory) => return Err(AllocError),
        Err(PlanRefusal::Refused { line }) => {
            return Ok(Answer {
                status: Status::Rejected,
                text: rejection_text(alloc, "text", line)?,
            });
        }
    };
    match judge(instance, &plan) {
        Ok(gain) => Ok(Answer {
            status: Status::Done,
            text: gain_text(alloc, gain)?,
        }),
        Err(fault) => faulty(alloc, fault),
    }
}

// The answer that tells the first fault of a plan.
fn faulty(alloc: Global, fault: PlanFault) -> Result<Answer, AllocError>
    ensures { (J : Orbit) (rest : List ℕ) (plan : List Acquisition) → IsPlanText rest plan → IsFirstFault J plan fault
        → IfOk result (λ answer. ScoresRest J rest answer.text.items answer.status) }
{
    let text = fault_text(alloc, fault)?;
    Ok(Answer {
        status: Status::Rejected,
        text,
    })
}
