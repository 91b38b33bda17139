//! A search that is ready to begin.

ghost use Rattle.std.specs.Prelude.{◌≤◌, IfOk};
ghost use Rattle.command_line.specs.Ranges.{AreInRange};
ghost use Rattle.joiner.specs.declared.limits.TheConstants.{MAX_WORKERS};
ghost use Rattle.sequencer.specs.Tasks.{IsTaskFor};

use label::Side;
use std::alloc::{AllocError, Global};
use strip_model::{End, Instance};

/// A search on an instance: its two sides, and what was asked for.
#[derive(Drop)]
pub(crate) struct Task {
    pub(crate) instance: Instance,
    pub(crate) forward: Side,
    pub(crate) backward: Side,
    /// How many workers search, up to [`MAX_WORKERS`](crate::MAX_WORKERS). With 0 one thread does it all.
    pub(crate) workers: u32,
    /// How many labels may be kept.
    pub(crate) budget: u64,
    /// The tick at which the orbit is cut, if it is given. Else that is half the horizon, rounded down.
    pub(crate) cut: Option<u32>,
}

/// The search on this instance with these numbers.
pub(crate) fn task_for(
    alloc: Global,
    instance: Instance,
    workers: u32,
    budget: u64,
    cut: Option<u32>,
) -> Result<Task, AllocError>
    requires workers { workers ≤ MAX_WORKERS }
    requires range { AreInRange budget cut }
    ensures { IfOk result (IsTaskFor instance workers budget cut) }
{
    // For its clause: an instance keeps its rules.
    let _ = instance.strips();
    let tick = cut.unwrap_or(instance.horizon() / 2);
    let forward = Side::new(alloc, &instance, End::Forward, tick)?;
    let backward = Side::new(alloc, &instance, End::Backward, tick)?;
    Ok(Task {
        instance,
        forward,
        backward,
        workers,
        budget,
        cut,
    })
}
