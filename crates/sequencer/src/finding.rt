//! The search itself, and the one fork: by one thread, or by workers and one thread after them.

ghost use Rattle.std.specs.Prelude.{ℕ, ◌≤◌, IfOk};
ghost use Rattle.sequencer.specs.Finding.{IsFound, IsFoundFrom};
ghost use Rattle.sequencer.specs.Tasks.{IsReady};

use crate::searching::{search, search_from};
use crate::task::Task;
use beam::first_plan;
use board::Board;
use closer::Outcome;
use plan_check::Published;
use pool::Gate;
use proof_log::MAX_LABELS;
use std::alloc::{AllocError, Global};
use std::sync::Wait;
use std::thread::Threads;

/// Searches for an optimal plan by one thread, whatever number of workers is asked for. It waits for nobody, and fails for want of
/// memory alone.
pub(crate) fn find_alone<'a>(alloc: Global, task: &'a Task) -> Result<Outcome<'a>, AllocError>
    requires { IsReady task.now }
    ensures { IfOk result (IsFound 0 task.entry.now.budget task.entry.now.instance task.entry.now.forward.cut) }
{
    let plan = first_plan(alloc, &task.instance)?;
    search_from(
        alloc,
        &task.instance,
        &task.forward,
        &task.backward,
        plan,
        task.budget,
    )
}

/// Searches by as many workers as are asked for, with their gate, and one thread after them. It may wait, and fails for want of
/// memory alone.
pub(crate) fn find<'a, R: Threads + Wait + Sync, G: Gate + Sync>(
    rt: &R,
    alloc: Global,
    task: &'a Task,
    gate: &G,
) -> Result<Outcome<'a>, AllocError>
    requires { IsReady task.now }
    ensures { IfOk result (IsFound task.entry.now.workers task.entry.now.budget task.entry.now.instance task.entry.now.forward.cut) }
{
    match task.workers {
        0 => find_alone(alloc, task),
        _ => find_by_team(rt, alloc, task, gate),
    }
}

// The same, where workers are asked for.
fn find_by_team<'a, R: Threads + Wait + Sync, G: Gate + Sync>(
    rt: &R,
    alloc: Global,
    task: &'a Task,
    gate: &G,
) -> Result<Outcome<'a>, AllocError>
    requires ready { IsReady task.now }
    requires some { 1 ≤ task.now.workers }
    ensures { IfOk result (IsFound task.entry.now.workers task.entry.now.budget task.entry.now.instance task.entry.now.forward.cut) }
{
    let plan = first_plan(alloc, &task.instance)?;
    let Ok(first) = Published::new(&task.instance, plan) else {
        unreachable!()
    };
    let (board, pass) = Board::new(
        alloc,
        &task.instance,
        &task.forward,
        &task.backward,
        first,
        task.budget,
    )?;
    let outcome = search(rt, alloc, board, pass, task.budget, task.workers, gate)?;
    within_text(alloc, task, outcome)
}

// What was found, if a text can tell that many labels. Else the labels are dropped, and one thread begins anew with the plan.
fn within_text<'a>(
    alloc: Global,
    task: &'a Task,
    outcome: Outcome<'a>,
) -> Result<Outcome<'a>, AllocError>
    requires ready { IsReady task.now }
    requires found { IsFoundFrom task.now.budget task.now.instance task.now.forward.cut outcome }
    ensures { (workers : ℕ) → 1 ≤ workers
        → IfOk result (IsFound workers task.entry.now.budget task.entry.now.instance task.entry.now.forward.cut) }
{
    let (Outcome::Optimal { core } | Outcome::Open { core }) = &outcome;
    if core.labels() <= MAX_LABELS as u64 {
        return Ok(outcome);
    }
    let plan = Vec::from_slice(alloc, core.plan())?;
    drop(outcome);
    search_from(
        alloc,
        &task.instance,
        &task.forward,
        &task.backward,
        plan,
        task.budget,
    )
}
