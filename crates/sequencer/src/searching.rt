//! The search: on a board by workers and one thread after them, or from the beginning by one thread.

ghost use Rattle.std.specs.Prelude.{◌≡◌, ◌≤◌, IfOk};
ghost use Rattle.board.specs.Passes.{board_of};
ghost use Rattle.pass_weight.specs.declared.whole_weight.TheConstants.{WHOLE_WEIGHT};
ghost use Rattle.closer.specs.Finishing.{Finishes};
ghost use Rattle.joiner.specs.declared.limits.TheConstants.{MAX_WORKERS};
ghost use Rattle.proof_log.specs.declared.limits.TheConstants.{MAX_LABELS};
ghost use Rattle.sequencer.specs.Finding.{IsBegun, IsFoundAlone};
ghost use Rattle.sequencer.specs.SharedSearching.{IsSearched};
ghost use Rattle.strip_model.specs.Plan.{Feasible};
ghost use Rattle.strip_model.specs.Side.{face_of};
ghost use Rattle.strip_model.specs.declared.end.End.TheVariants.{Forward, Backward};

use board::{Board, Pass};
use closer::{Outcome, finish, finish_with};
use label::Side;
use label_core::Core;
use pool::{Gate, run_all};
use std::alloc::{AllocError, Global};
use std::sync::Wait;
use std::thread::Threads;
use strip_model::{Acquisition, End, Instance, gain_of};

/// Searches on a board: as many workers as are given, 1 to [`MAX_WORKERS`](crate::MAX_WORKERS), each in a thread of its own where
/// one can be started, and when they have ended one thread, which goes on from what they left until nothing is left to extend, or
/// the labels number at least the budget, 1 to `proof_log::MAX_LABELS`, and an extension is missing. Each label whose insertion the
/// pass had seen stays, and the plan gains no less than those that were offered. It may wait, and fails for want of memory alone.
pub fn search<'a, R: Threads + Wait + Sync, G: Gate + Sync>(
    rt: &R,
    alloc: Global,
    board: Board<'a>,
    pass: Pass<'a>,
    budget: u64,
    workers: u32,
    gate: &G,
) -> Result<Outcome<'a>, AllocError>
    requires board { board_of pass ≡ board }
    requires whole { pass.weight ≡ WHOLE_WEIGHT }
    requires some { 1 ≤ budget }
    requires budget { budget ≤ MAX_LABELS }
    requires some_workers { 1 ≤ workers }
    requires workers { workers ≤ MAX_WORKERS }
    ensures { IfOk result (IsSearched board.entry pass.entry budget) }
{
    let instance = board.instance();
    let forward = board.side(End::Forward);
    let backward = board.side(End::Backward);
    let trace = run_all(rt, alloc, board, pass, workers, gate);
    let core = Core::from_trace(alloc, instance, forward, backward, trace)?;
    finish_with(rt, alloc, instance, core, budget, workers)
}

/// Searches by one thread, which begins with a feasible plan and no label. It fails for want of memory alone.
pub(crate) fn search_from<'a>(
    alloc: Global,
    instance: &'a Instance,
    forward: &'a Side,
    backward: &'a Side,
    plan: Vec<Acquisition>,
    budget: u64,
) -> Result<Outcome<'a>, AllocError>
    requires forward { forward.now ≡ face_of instance.now forward.now.cut Forward }
    requires backward { backward.now ≡ face_of instance.now forward.now.cut Backward }
    requires feasible { Feasible instance.now plan.items }
    requires some { 1 ≤ budget }
    requires budget { budget ≤ MAX_LABELS }
    ensures { IfOk result (IsFoundAlone budget instance.entry.now forward.entry.now.cut) }
{
    let core = begun(alloc, instance, forward, backward, plan)?;
    finish(alloc, instance, core, budget)
}

// A core without labels whose incumbent is this plan.
fn begun<'a>(
    alloc: Global,
    instance: &'a Instance,
    forward: &'a Side,
    backward: &'a Side,
    plan: Vec<Acquisition>,
) -> Result<Core<'a>, AllocError>
    requires forward { forward.now ≡ face_of instance.now forward.now.cut Forward }
    requires backward { backward.now ≡ face_of instance.now forward.now.cut Backward }
    requires feasible { Feasible instance.now plan.items }
    ensures { IfOk result (IsBegun instance.entry.now forward.entry.now.cut) }
{
    let gain = gain_of(instance, &plan);
    let mut core = Core::new(alloc, instance, forward, backward)?;
    core.publish(plan, gain);
    Ok(core)
}
