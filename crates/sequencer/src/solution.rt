//! What a search on an instance comes to: a log that proves its plan optimal, or the best plan so far.

ghost use Rattle.std.specs.Prelude.{ℕ, Option, IfOk};
ghost use Rattle.command_line.specs.Ranges.{AreInRange};
ghost use Rattle.sequencer.specs.Finding.{IsFound};
ghost use Rattle.sequencer.specs.Searching.{IsSolution, cut_for};
ghost use Rattle.sequencer.specs.Tasks.{IsReady};
ghost use Rattle.strip_model.specs.IsInstance.{IsInstance};
ghost use Rattle.strip_model.specs.Orbit.{Orbit};

use crate::finding::find_alone;
use crate::task::Task;
use closer::Outcome;
use label_core::log_of;
use proof_log::Log;
use std::alloc::{AllocError, Global};
use strip_model::Acquisition;

/// What a search comes to.
#[derive(Drop)]
pub(crate) enum Solution {
    /// The log shows that its plan is optimal.
    Optimal {
        log: Log,
    },
    /// The budget of labels is reached, and the search is still open: the best plan that was found, with its gain in twentieths
    /// and the number of labels.
    Open {
        plan: Vec<Acquisition>,
        gain: u64,
        labels: u64,
    },
}

/// What a search by one thread comes to, whatever number of workers is asked for. It fails for want of memory alone.
pub(crate) fn solution_alone(alloc: Global, task: &Task) -> Result<Solution, AllocError>
    requires { IsReady task.now }
    ensures { IfOk result (IsSolution 0 task.now.budget task.now.cut task.now.instance) }
{
    let outcome = find_alone(alloc, task)?;
    solution_of(alloc, outcome)
}

/// What an outcome comes to: the log of a core that is closed, or the plan.
pub(crate) fn solution_of(alloc: Global, outcome: Outcome<'_>) -> Result<Solution, AllocError>
    ensures { (workers budget : ℕ) (cut : Option ℕ) (J : Orbit) → IsInstance J → AreInRange budget cut
        → IsFound workers budget J (cut_for J cut) outcome.entry → IfOk result (IsSolution workers budget cut J) }
{
    match outcome {
        Outcome::Optimal { core } => {
            let log = log_of(alloc, &core)?;
            Ok(Solution::Optimal { log })
        }
        Outcome::Open { core } => {
            let plan = Vec::from_slice(alloc, core.plan())?;
            Ok(Solution::Open {
                plan,
                gain: core.gain(),
                labels: core.labels(),
            })
        }
    }
}
