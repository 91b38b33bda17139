//! Who looks at many labels.

ghost use Rattle.std.specs.Thread.{IsSync};
ghost use Rattle.std.specs.Prelude.{◌≡◌, ◌<◌, ◌≤◌, length, map, All, IfOk, OnOk, ⊤};
ghost use Rattle.closer.specs.Looking.{AreNamed, Narrows};
ghost use Rattle.joiner.specs.LabelJoins.{IsLabelAt, IsForwardFace};
ghost use Rattle.joiner.specs.Pairs.{IsBest};
ghost use Rattle.joiner.specs.declared.limits.TheConstants.{MAX_WORKERS};
ghost use Rattle.label.specs.Labels.{IsLabelOf};
ghost use Rattle.label.specs.declared.limits.TheConstants.{MAX_LISTED};
ghost use Rattle.strip_model.specs.declared.end.End.TheVariants.{Backward};

use crate::looking::narrow;
use crate::queue::Queue;
use joiner::{Pair, best_pair_of, best_pair_of_with};
use label::{Label, Side};
use label_core::Core;
use std::alloc::{AllocError, Global};
use std::thread::Threads;

/// Those who look at what waits, and for the pair that gains most.
pub(crate) trait Crew {
    // What has to hold of a crew that is asked.
    ghost can_work: { Self → Type 0 };

    /// What waits waits on, or is extended by all already. It fails for want of memory alone.
    fn narrow(&self, alloc: Global, core: &Core<'_>, queue: &mut Queue) -> Result<(), AllocError>
        requires can { can_work self.now }
        requires named { AreNamed core.now queue.old }
        ensures { OnOk result (Narrows core.now queue.old queue.new) };

    /// The pair of a forward label or root and a backward one that gains most, if that is more than a floor, in twentieths: the same
    /// answer as that of [`joiner::best_pair_of`]. It fails for want of memory alone.
    fn best_of(
        &self,
        alloc: Global,
        side: &Side,
        forward: &[&Label],
        backward: &[&Label],
        floor: u64,
    ) -> Result<Option<Pair>, AllocError>
        requires can { can_work self.now }
        requires side { IsForwardFace side.now }
        requires forward { All (IsLabelOf side.now) (map (λ l. l.now) forward.now) }
        requires backward { All (IsLabelAt side.now.instance Backward) (map (λ l. l.now) backward.now) }
        requires few_forward { length forward.now ≤ MAX_LISTED }
        requires few_backward { length backward.now ≤ MAX_LISTED }
        ensures { IfOk result (IsBest side.now.instance (map (λ l. l.now) forward.now) (map (λ l. l.now) backward.now) floor) };
}

/// The thread at hand alone. It looks at nothing before its turn.
pub(crate) struct Alone;

impl Crew for Alone {
    ghost can_work = { λ _. ⊤ };

    // What is extended by all already comes to light when its turn comes.
    fn narrow(
        &self,
        _alloc: Global,
        _core: &Core<'_>,
        _queue: &mut Queue,
    ) -> Result<(), AllocError> {
        Ok(())
    }

    fn best_of(
        &self,
        alloc: Global,
        side: &Side,
        forward: &[&Label],
        backward: &[&Label],
        floor: u64,
    ) -> Result<Option<Pair>, AllocError> {
        best_pair_of(alloc, side, forward, backward, floor)
    }
}

/// So many workers, each of which looks at a part of the labels, in a thread of its own where one can be started.
#[derive(Drop)]
pub(crate) struct Together<'r, R> {
    pub rt: &'r R,
    pub workers: u32,
}

impl<'r, R: Threads + Sync> Crew for Together<'r, R> {
    ghost can_work = { λ s. (1 ≤ s.workers) × (s.workers ≤ MAX_WORKERS) × IsSync R.row };

    fn narrow(&self, alloc: Global, core: &Core<'_>, queue: &mut Queue) -> Result<(), AllocError> {
        narrow(self.rt, alloc, core, queue, self.workers)
    }

    fn best_of(
        &self,
        alloc: Global,
        side: &Side,
        forward: &[&Label],
        backward: &[&Label],
        floor: u64,
    ) -> Result<Option<Pair>, AllocError> {
        best_pair_of_with(self.rt, alloc, side, forward, backward, floor, self.workers)
    }
}
