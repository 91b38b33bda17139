//! The search loop.

ghost use Rattle.std.specs.Prelude.{◌≡◌, ◌<◌, ◌≤◌, true, false, List, ℕ, OnOk, IfOk};
ghost use Rattle.closer.specs.Finishing.{IsOpen};
ghost use Rattle.closer.specs.Searching.{IsNext, IsSearching, left_to_do};
ghost use Rattle.label_core.specs.CoreState.{IsLivePath};
ghost use Rattle.label_core.specs.Machine.{count_of};
ghost use Rattle.label_core.specs.declared.limits.TheConstants.{MAX_CORE_LABELS};
ghost use Rattle.admission.specs.CarefulRuns.{GoesCarefully, IsExtended};
ghost use Rattle.strip_model.specs.declared.end.End.{End};

use crate::agenda::Agenda;
use crate::growing::extend_whole;
use crate::wait::Wait;
use label_core::Core;
use std::alloc::{AllocError, Global};

/// Extends what waits, and what comes of it, the least last start first. True says that nothing waits any more: each root and
/// each live label is extended by all. False says that an extension is missing, and that there is no room for it: the labels
/// number at least the budget. Where they did so before, nothing changes in the core. It fails for want of memory alone.
pub(crate) fn explore(
    alloc: Global,
    core: &mut Core<'_>,
    agenda: &mut Agenda,
    budget: u64,
) -> Result<bool, AllocError>
    requires searching { IsSearching core.old agenda.old }
    requires budget { budget ≤ MAX_CORE_LABELS }
    ensures run { OnOk result (GoesCarefully budget core.old core.new) }
    ensures searching { OnOk result (IsSearching core.new agenda.new) }
    ensures whole { IfOk result (λ whole. whole ≡ true → (e : End) (path : List ℕ) → IsLivePath core.new.state e path → IsExtended core.new e path) }
    ensures open { IfOk result (λ whole. whole ≡ false → IsOpen core.new × (budget ≤ count_of core.new.state)) }
    ensures still { OnOk result (budget ≤ count_of core.old.state → core.new ≡ core.old) }
{
    while let Some(wait) = agenda.queue.pop() {
        if !extend_next(alloc, core, agenda, wait, budget)? {
            return Ok(false);
        }
    }
    Ok(true)
}

// Extends what came out of the queue, if it lives. False says that there was no room; it waits on then.
fn extend_next(
    alloc: Global,
    core: &mut Core<'_>,
    agenda: &mut Agenda,
    wait: Wait,
    budget: u64,
) -> Result<bool, AllocError>
    requires next { IsNext core.old agenda.old wait }
    requires budget { budget ≤ MAX_CORE_LABELS }
    ensures run { OnOk result (GoesCarefully budget core.old core.new) }
    ensures searching { OnOk result (IsSearching core.new agenda.new) }
    ensures work { IfOk result (λ more. more ≡ true → left_to_do budget core.new agenda.new ≤ left_to_do budget core.old agenda.old) }
    ensures open { IfOk result (λ more. more ≡ false → IsOpen core.new × (budget ≤ count_of core.new.state)) }
    ensures still { OnOk result (budget ≤ count_of core.old.state → core.new ≡ core.old) }
{
    if wait.rank != 0 && !core.is_live(wait.id()) {
        return Ok(true);
    }
    if extend_whole(alloc, core, agenda, wait, budget)? {
        return Ok(true);
    }
    agenda.queue.push(wait)?;
    Ok(false)
}
