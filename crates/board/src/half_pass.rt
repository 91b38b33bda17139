//! The half of a pass at one end: a pass of each lock, and one of the queue.

ghost use Rattle.std.specs.Prelude.{◌≡◌};

use crate::queue::IdPass;
use crate::shared_bucket::SharedBucket;
use label::Side;
use std::marker::Model;
use turn_lock::TurnPass;

/// A caller's passes of the locks of one side, by the numbers of their buckets, and of its queue.
pub(crate) struct HalfToken<'a> {
    pub(crate) side: &'a Side,
    pub(crate) locks: Vec<TurnPass<SharedBucket<'a>>>,
    pub(crate) ids: IdPass,
}

impl<'a> Model for HalfToken<'a> {
    ghost use Rattle.board.specs.Inside.{half_pass_of, IsHalfPass};
    ghost use Rattle.board.specs.Passes.{HalfPass};

    ghost Value = { HalfPass };

    ghost view = { λ h. half_pass_of h.side.now h.locks.items h.ids };

    ghost invariant = { λ h. IsHalfPass h.side.now h.locks.items h.ids };
}
