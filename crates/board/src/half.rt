//! The half of a board at one end: the locks of its buckets, and its queue of ids.

ghost use Rattle.std.specs.Prelude.{◌≡◌, ◌≤◌, ◌<◌, [], IfOk, vec_capacity};
ghost use Rattle.board.specs.Passes.{LockChangedIn};
ghost use Rattle.board.specs.Queues.{IsPushReply, IsNextReply};
ghost use Rattle.board.specs.Sharing.{first_half, half_kept, half_split_off, IsHalfJoined, AreLocksClosed};
ghost use Rattle.board.specs.Turns.{IsTurn};
ghost use Rattle.pass_weight.specs.declared.whole_weight.TheConstants.{WHOLE_WEIGHT};
ghost use Rattle.bucket.specs.Traces.{AreBucketsOf};
ghost use Rattle.bucket.specs.declared.limits.TheConstants.{BUCKETS};

use crate::half_pass::HalfToken;
use crate::limits::QUEUE_IDS;
use crate::locks::{close_locks, join_locks, new_locks, split_locks};
use crate::queue::{Given, Halve, IdQueue, Pushed, Unite};
use crate::refusal::Full;
use crate::turns::{Call, Lock, LockPass, in_turn};
use bucket::{Bucket, Id};
use label::Side;
use std::alloc::{AllocError, Global};
use std::marker::Model;
use std::sync::Wait;
use turn_lock::TurnSpent;

/// The locks of one side, by the numbers of their buckets, the queue of its ids, and the room for the buckets at the end.
pub(crate) struct Half<'a> {
    side: &'a Side,
    locks: Vec<Lock<'a>>,
    queue: IdQueue,
    room: Vec<Bucket<'a>>,
}

impl<'a> Model for Half<'a> {
    ghost use Rattle.std.specs.Prelude.{◌≡◌, ◌≤◌, [], length, vec_capacity};
    ghost use Rattle.board.specs.Passes.{HalfName};
    ghost use Rattle.board.specs.declared.limits.TheConstants.{QUEUE_IDS};
    ghost use Rattle.bucket.specs.declared.limits.TheConstants.{BUCKETS};
    ghost use Rattle.crossbeam_queue.specs.Passes.{ruled_capacity};

    ghost Value = { HalfName };

    ghost view = { λ h. record { side = h.side.now; locks = h.locks.items; queue = h.queue.table.shared.table_id } };

    ghost invariant = { λ h. (length h.locks.items ≡ BUCKETS) × (ruled_capacity h.queue ≡ QUEUE_IDS) × (h.room.items ≡ []) × (BUCKETS ≤ vec_capacity h.room) };
}

impl<'a> Half<'a> {
    /// The half of a board with this side, and its first pass.
    pub(crate) fn new(
        alloc: Global,
        side: &'a Side,
    ) -> Result<(Half<'a>, HalfToken<'a>), AllocError>
        ensures side { IfOk result (λ made. made.0.side ≡ side.entry.now) }
        ensures pass { IfOk result (λ made. made.1 ≡ first_half made.0) }
    {
        let (queue, ids) = IdQueue::ruled(alloc, QUEUE_IDS)?;
        let (locks, passes, room) = new_locks(alloc, side)?;
        let half = Half {
            side,
            locks,
            queue,
            room,
        };
        let token = HalfToken {
            side,
            locks: passes,
            ids,
        };
        Ok((half, token))
    }

    /// The side.
    pub(crate) fn side(&self) -> &'a Side
        ensures { result.now ≡ self.now.side }
    {
        self.side
    }

    /// Makes a call of a bucket in one turn of it.
    pub(crate) fn turn<R: Wait, C: Call + Drop>(
        &self,
        rt: &R,
        token: &mut HalfToken<'a>,
        number: u8,
        call: C,
    ) -> Result<C::Answer, TurnSpent>
        requires name { token.old.name ≡ self.now }
        requires number { number < BUCKETS }
        requires fits { C.fits call self.now.side number }
        ensures { LockChangedIn token.old token.new number (IsTurn self.now.side number (C.answers call) result) }
    {
        let k = usize::from(number);
        in_turn(rt, &self.locks[k], &mut token.locks[k], call)
    }

    /// Pushes an id.
    pub(crate) fn push<R: Wait>(
        &self,
        rt: &R,
        token: &mut HalfToken<'a>,
        id: Id,
    ) -> Result<(), Full>
        requires name { token.old.name ≡ self.now }
        ensures { IsPushReply token.old token.new id result }
    {
        match self.queue.push_as::<Pushed, R>(rt, &mut token.ids, id) {
            Ok(()) => Ok(()),
            Err(id) => Err(Full { id }),
        }
    }

    /// The next id.
    pub(crate) fn next<R: Wait>(&self, rt: &R, token: &mut HalfToken<'a>) -> Option<Id>
        requires name { token.old.name ≡ self.now }
        ensures { IsNextReply token.old token.new result }
    {
        self.queue.pop_as::<Given, R>(rt, &mut token.ids)
    }

    /// Splits a pass off, which takes the room for its passes of the locks.
    pub(crate) fn split(&self, token: &mut HalfToken<'a>, room: Vec<LockPass<'a>>) -> HalfToken<'a>
        requires name { token.old.name ≡ self.now }
        requires weight { 2 ≤ token.old.weight }
        requires empty { room.items ≡ [] }
        requires room { BUCKETS ≤ vec_capacity room }
        ensures new { result ≡ half_split_off token.old }
        ensures old { token.new ≡ half_kept token.old }
    {
        let ids = self.queue.another::<Halve>(&mut token.ids);
        let locks = split_locks(&self.locks, &mut token.locks, room);
        HalfToken {
            side: self.side,
            locks,
            ids,
        }
    }

    /// Joins a pass into another.
    pub(crate) fn join(&self, into: &mut HalfToken<'a>, other: HalfToken<'a>)
        requires name { into.old.name ≡ self.now }
        requires other { other.name ≡ self.now }
        ensures { IsHalfJoined into.old other.entry into.new }
    {
        let HalfToken {
            side: _,
            locks,
            ids,
        } = other;
        self.queue.absorb::<Unite>(&mut into.ids, ids);
        join_locks(&self.locks, &mut into.locks, locks);
    }

    /// Ends the half of a board and its last pass, and gives the buckets.
    pub(crate) fn close(self, token: HalfToken<'a>) -> Vec<Bucket<'a>>
        requires name { token.name ≡ self }
        requires whole { token.weight ≡ WHOLE_WEIGHT }
        ensures closed { AreLocksClosed token.entry.locks result.items }
        ensures buckets { AreBucketsOf self.entry.side result.items }
    {
        let Half {
            side: _,
            locks,
            queue: _,
            room,
        } = self;
        let HalfToken {
            side: _,
            locks: passes,
            ids: _,
        } = token;
        close_locks(locks, passes, room)
    }
}
