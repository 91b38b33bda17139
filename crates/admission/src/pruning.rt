//! The cut of the members of an antichain that can't gain more.

ghost use Rattle.std.specs.Prelude.{◌≡◌, ◌<◌, ◌%◌, length, All, OnOk};
ghost use Rattle.admission.specs.Antichains.{IsAntichainAt, Shrinks};
ghost use Rattle.admission.specs.CarefulRuns.{GoesQuietly};
ghost use Rattle.antichain.specs.declared.member.Member.{Member};
ghost use Rattle.bucket.specs.declared.limits.TheConstants.{BUCKETS};
ghost use Rattle.label_core.specs.CoreState.{labels_in};
ghost use Rattle.strip_model.specs.Plan.{gain_of};

use crate::clearing::cut_all;
use antichain::Antichain;
use label_core::Core;
use std::alloc::{AllocError, Global};
use strip_model::{Directed, End};

/// Cuts each label of the antichain of the directed strip `x` whose bound is at most the incumbent's gain, and takes it out. It
/// fails for want of memory alone: then some of these labels are cut, and no others. Nothing is said of the antichain then.
pub fn prune(
    alloc: Global,
    core: &mut Core<'_>,
    antichain: &mut Antichain,
    end: End,
    x: Directed,
) -> Result<(), AllocError>
    requires { IsAntichainAt core.old end x (length (labels_in core.old.state end (x % BUCKETS))) antichain.old.members }
    ensures quiet { GoesQuietly core.old core.new }
    ensures shrinks { Shrinks core.old core.new end x }
    ensures plan { core.new.state.incumbent ≡ core.old.state.incumbent }
    ensures antichain { OnOk result (IsAntichainAt core.new end x (length (labels_in core.new.state end (x % BUCKETS))) antichain.new.members) }
    ensures bounds { OnOk result (All (λ (a : Member). gain_of core.new.instance core.new.state.incumbent < a.outline.bound) antichain.new.members) }
{
    let mut low = Vec::new(alloc);
    low.reserve(antichain.len())?;
    antichain.prune(core.gain(), &mut low);
    cut_all(core, &low, end, x)
}
