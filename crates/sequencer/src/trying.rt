//! What `trial` answers: an instance is made and solved, and its log is checked.

ghost use Rattle.std.specs.Prelude.{◌≡◌, ◌≤◌, IfOk};
ghost use Rattle.command_line.specs.Ranges.{AreInRange};
ghost use Rattle.inst_maker.specs.Made.{made};
ghost use Rattle.inst_maker.specs.declared.limits.TheConstants.{MAX_SIZE};
ghost use Rattle.proof_log.specs.AnswerText.{IsLogInText};
ghost use Rattle.proof_log.specs.Rules.{IsProof};
ghost use Rattle.sequencer.specs.Texts.{proved_text};
ghost use Rattle.sequencer.specs.Trying.{Tries};
ghost use Rattle.strip_model.specs.Plan.{gain_of};

use crate::Status;
use crate::answer::Answer;
use crate::solution::{Solution, solution_alone};
use crate::task::task_for;
use crate::texts::{open_text, proved_text, rule_text};
use inst_maker::make;
use log_check::{Verdict, check};
use proof_log::Log;
use std::alloc::{AllocError, Global};
use strip_model::Instance;

/// The answer that tells what a search comes to on the instance of this seed and size, with this budget of labels and this cut, and
/// that the checker accepts its log.
pub(crate) fn try_out(
    alloc: Global,
    seed: u32,
    size: u16,
    budget: u64,
    cut: Option<u32>,
) -> Result<Answer, AllocError>
    requires size { size ≤ MAX_SIZE }
    requires range { AreInRange budget cut }
    ensures { IfOk result (λ answer. Tries seed size budget cut answer.text.items answer.status) }
{
    let instance = make(alloc, seed, size)?;
    let task = task_for(alloc, instance, 0, budget, cut)?;
    match solution_alone(alloc, &task)? {
        Solution::Optimal { log } => answer_checked(alloc, seed, size, &task.instance, &log),
        Solution::Open { gain, .. } => Ok(Answer {
            status: Status::Best,
            text: open_text(alloc, seed, size, gain)?,
        }),
    }
}

// The answer that tells the gain of a log, and that the checker accepts it. Another verdict never comes, and would be told.
fn answer_checked(
    alloc: Global,
    seed: u32,
    size: u16,
    instance: &Instance,
    log: &Log,
) -> Result<Answer, AllocError>
    requires proof { IsProof instance.now log.now }
    requires in_text { IsLogInText log.now }
    ensures { IfOk result (λ answer. (answer.text.items ≡ proved_text seed size (gain_of instance.now log.now.plan.items))
        × (answer.status ≡ Status.Done)) }
{
    match check(alloc, instance, log)? {
        Verdict::Accepted => Ok(Answer {
            status: Status::Done,
            text: proved_text(alloc, seed, size, log.gain)?,
        }),
        Verdict::Rejected { rule, at } => Ok(Answer {
            status: Status::Rejected,
            text: rule_text(alloc, rule, at)?,
        }),
    }
}
