//! What the board answers after a turn.

ghost use Rattle.std.specs.Prelude.{◌≡◌, ℕ, List, ◌<◌};
ghost use Rattle.board.specs.Passes.{LockPass};
ghost use Rattle.board.specs.Turns.{IsTurn, IsAnyTakeAnswer, IsInsertReply, IsTakeReplyOf, index_of};
ghost use Rattle.bucket.specs.Buckets.{IsInsertAnswer};
ghost use Rattle.bucket.specs.Histories.{bucket_of};
ghost use Rattle.bucket.specs.declared.limits.TheConstants.{BUCKETS};
ghost use Rattle.label.specs.Labels.{IsLabelOf};
ghost use Rattle.strip_model.specs.Side.{Face};

use crate::refusal::{BoardRefusal, TakeRefusal};
use bucket::{BUCKETS, BucketRefusal, Id, Inserted, Taken};
use label::{Label, Side};
use std::alloc::AllocError;
use strip_model::End;
use turn_lock::TurnSpent;

/// The number of the bucket in which a label of this side stands.
pub(crate) fn number_of(side: &Side, label: &Label) -> u8
    requires { IsLabelOf side.now label.now }
    ensures value { result ≡ bucket_of label.now.path.items }
    ensures small { result < BUCKETS }
{
    // For its clause: the side is sound.
    let _ = side.instance();
    (label.last().0 % BUCKETS) as u8
}

/// The answer of an insertion, with the bucket in each id.
pub(crate) fn insert_reply(
    end: End,
    number: u8,
    answer: Result<Result<Inserted, BucketRefusal>, TurnSpent>,
) -> Result<(Id, Inserted), BoardRefusal>
    ensures { (S : Face) (path : List ℕ) (old new : LockPass) →
        IsTurn S number (λ r S hs steps. IsInsertAnswer S hs path r steps) answer old new →
        IsInsertReply S end number path result old new }
{
    match answer {
        Err(spent) => Err(BoardRefusal::Turn(spent)),
        Ok(Err(BucketRefusal::Present { id })) => Err(BoardRefusal::Present {
            id: named(end, number, id),
        }),
        Ok(Err(BucketRefusal::Crowded { labels })) => Err(BoardRefusal::Crowded { labels }),
        Ok(Err(BucketRefusal::Memory)) => Err(BoardRefusal::Memory),
        Ok(Ok(inserted)) => Ok((named(end, number, index_in(&inserted)), inserted)),
    }
}

/// The answer of a take.
pub(crate) fn take_reply(
    answer: Result<Result<Taken, AllocError>, TurnSpent>,
) -> Result<Taken, TakeRefusal>
    ensures { (S : Face) (k id : ℕ) (old new : LockPass) →
        IsTurn S k (IsAnyTakeAnswer id) answer old new → IsTakeReplyOf S k id result old new }
{
    match answer {
        Err(spent) => Err(TakeRefusal::Turn(spent)),
        Ok(Err(_)) => Err(TakeRefusal::Memory),
        Ok(Ok(taken)) => Ok(taken),
    }
}

// The name of a label.
fn named(end: End, bucket: u8, index: u32) -> Id
    ensures { result ≡ record { end = end; bucket = bucket; index = index } }
{
    Id { end, bucket, index }
}

// The id in its bucket of a label that was inserted.
fn index_in(inserted: &Inserted) -> u32
    ensures { result ≡ index_of inserted.now }
{
    match *inserted {
        Inserted::Dominated { id, by: _ } => id,
        Inserted::Live { id, retired: _ } => id,
    }
}
