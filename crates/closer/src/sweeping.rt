//! The cut of what can't gain more.

ghost use Rattle.std.specs.Prelude.{◌≡◌, OnOk};
ghost use Rattle.closer.specs.Finishing.{BoundsExceed};
ghost use Rattle.closer.specs.Searching.{IsSearching};
ghost use Rattle.closer.specs.Sweeping.{SweepsSide};
ghost use Rattle.admission.specs.CarefulRuns.{GoesQuietly};
ghost use Rattle.admission.specs.Antichains.{HasAntichains, Fades, members_of};

use crate::agenda::Agenda;
use admission::prune;
use antichain::Antichain;
use label_core::Core;
use std::alloc::{AllocError, Global};
use strip_model::{Directed, End};

/// Cuts each live label whose bound is at most the incumbent's gain, and takes it out of its antichain. It fails for
/// want of memory alone.
pub(crate) fn sweep(
    alloc: Global,
    core: &mut Core<'_>,
    agenda: &mut Agenda,
) -> Result<(), AllocError>
    requires { IsSearching core.old agenda.old }
    ensures quiet { OnOk result (GoesQuietly core.old core.new) }
    ensures fades { OnOk result (Fades core.old core.new) }
    ensures plan { OnOk result (core.new.state.incumbent ≡ core.old.state.incumbent) }
    ensures searching { OnOk result (IsSearching core.new agenda.new) }
    ensures bounds { OnOk result (BoundsExceed core.new) }
{
    sweep_side(alloc, core, &mut agenda.forward, End::Forward)?;
    sweep_side(alloc, core, &mut agenda.backward, End::Backward)?;
    Ok(())
}

// The same for one side.
fn sweep_side(
    alloc: Global,
    core: &mut Core<'_>,
    antichains: &mut Vec<Antichain>,
    end: End,
) -> Result<(), AllocError>
    requires { HasAntichains core.old end (members_of antichains.old.items) }
    ensures swept { OnOk result (SweepsSide core.old core.new end) }
    ensures antichains { OnOk result (HasAntichains core.new end (members_of antichains.new.items)) }
{
    // For their clauses: there is an antichain for each directed strip, and not too many strips.
    let _ = core.instance().strips();
    let _ = core.labels();
    for x in 0..antichains.len() {
        prune(alloc, core, &mut antichains[x], end, Directed(x as u16))?;
    }
    Ok(())
}
