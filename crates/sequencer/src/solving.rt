//! How `solve` begins with its input, and how it tells what a search came to.

ghost use Rattle.std.specs.Prelude.{◌≡◌, ◌≤◌, ℕ, List, length, IfOk};
ghost use Rattle.command_line.specs.Ranges.{AreInRange};
ghost use Rattle.instance_text.specs.Text.{IsText};
ghost use Rattle.joiner.specs.declared.limits.TheConstants.{MAX_WORKERS};
ghost use Rattle.sequencer.specs.Finding.{IsFound};
ghost use Rattle.sequencer.specs.Opening.{OpensSolving};
ghost use Rattle.sequencer.specs.Searching.{FitsText, Tells};
ghost use Rattle.sequencer.specs.Solving.{Solves};
ghost use Rattle.sequencer.specs.Tasks.{IsReady};
ghost use Rattle.sequencer.specs.Texts.{refusal_text};
ghost use Rattle.sequencer.specs.declared.limits.TheConstants.{MAX_SOLVE_INPUT};

use crate::Status;
use crate::answer::Answer;
use crate::finding::{find, find_alone};
use crate::opening::Opening;
use crate::solution::{Solution, solution_of};
use crate::task::{Task, task_for};
use crate::texts::{best_text, refusal_text};
use closer::Outcome;
use instance_text::{Refusal, TextRefusal, read};
use pool::Gate;
use proof_log::write;
use std::alloc::{AllocError, Global};
use std::sync::Wait;
use std::thread::Threads;

/// A search on the instance that the input says, with as many workers as are asked for, up to
/// [`MAX_WORKERS`](crate::MAX_WORKERS), this budget of labels and this cut; or the answer that the input says no instance.
pub(crate) fn open(
    alloc: Global,
    input: &[u8],
    workers: u32,
    budget: u64,
    cut: Option<u32>,
) -> Result<Opening, AllocError>
    requires input { length input.now ≤ MAX_SOLVE_INPUT }
    requires workers { workers ≤ MAX_WORKERS }
    requires range { AreInRange budget cut }
    ensures { IfOk result (OpensSolving workers budget cut input.now) }
{
    match read(alloc, input) {
        Ok(instance) => {
            let task = task_for(alloc, instance, workers, budget, cut)?;
            Ok(Opening::Search(task))
        }
        Err(TextRefusal::Memory) => Err(AllocError),
        Err(TextRefusal::Refused(refusal)) => {
            let answer = refused(alloc, refusal)?;
            Ok(Opening::Answered(answer))
        }
    }
}

/// The answer to an input that says the instance of a search, which one thread does, whatever number of workers is asked for. It
/// waits for nobody.
pub(crate) fn solve_alone(alloc: Global, task: &Task) -> Result<Answer, AllocError>
    requires { IsReady task.now }
    ensures { (input : List ℕ) → IsText input task.now.instance
        → IfOk result (λ answer. Solves 0 task.now.budget task.now.cut input answer.text.items answer.status) }
{
    let outcome = find_alone(alloc, task)?;
    told(alloc, task, outcome)
}

/// The same, where as many workers search as are asked for, with their gate. It may wait.
pub(crate) fn solve<R: Threads + Wait + Sync, G: Gate + Sync>(
    rt: &R,
    alloc: Global,
    task: &Task,
    gate: &G,
) -> Result<Answer, AllocError>
    requires { IsReady task.now }
    ensures { (input : List ℕ) → IsText input task.now.instance
        → IfOk result (λ answer. Solves task.now.workers task.now.budget task.now.cut input answer.text.items answer.status) }
{
    let outcome = find(rt, alloc, task, gate)?;
    told(alloc, task, outcome)
}

// The answer that tells what such a search found.
fn told(alloc: Global, task: &Task, outcome: Outcome<'_>) -> Result<Answer, AllocError>
    requires ready { IsReady task.now }
    requires found { (workers : ℕ) × IsFound workers task.now.budget task.now.instance task.now.forward.cut outcome }
    ensures { (workers : ℕ) (input : List ℕ) → IsFound workers task.now.budget task.now.instance task.now.forward.cut outcome.entry
        → IsText input task.now.instance
        → IfOk result (λ answer. Solves workers task.now.budget task.now.cut input answer.text.items answer.status) }
{
    let solution = solution_of(alloc, outcome)?;
    answer_of(alloc, &solution)
}

// The answer that tells why an instance text is refused.
fn refused(alloc: Global, refusal: Refusal) -> Result<Answer, AllocError>
    ensures { IfOk result (λ answer. (answer.text.items ≡ refusal_text refusal) × (answer.status ≡ Status.Refused)) }
{
    let text = refusal_text(alloc, refusal)?;
    Ok(Answer {
        status: Status::Refused,
        text,
    })
}

// The answer that tells what a search came to.
fn answer_of(alloc: Global, solution: &Solution) -> Result<Answer, AllocError>
    requires { FitsText solution.now }
    ensures { IfOk result (λ answer. Tells solution.now answer.text.items answer.status) }
{
    match solution {
        Solution::Optimal { log } => {
            let text = write(alloc, log)?;
            Ok(Answer {
                status: Status::Done,
                text,
            })
        }
        Solution::Open { plan, gain, labels } => {
            let text = best_text(alloc, plan, *gain, *labels)?;
            Ok(Answer {
                status: Status::Best,
                text,
            })
        }
    }
}
