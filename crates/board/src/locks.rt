//! The locks of a side's buckets, all together: made, split, joined and closed one by one.

ghost use Rattle.std.specs.Prelude.{◌≡◌, ℕ, ◌≤◌, ◌<◌, [], length, map, vec_capacity, IfOk, None};
ghost use Rattle.board.specs.Inside.{names_in, AreIdle};
ghost use Rattle.board.specs.Sharing.{first_locks, lock_kept, lock_split_off, AreLocksJoined, AreLocksClosed, IsLockClosed};
ghost use Rattle.pass_weight.specs.declared.whole_weight.TheConstants.{WHOLE_WEIGHT};
ghost use Rattle.bucket.specs.declared.limits.TheConstants.{BUCKETS};
ghost use Rattle.strip_model.specs.Side.{Face};
ghost use Rattle.turn_lock.specs.Pass.{first_pass};

use crate::shared_bucket::SharedBucket;
use crate::turns::{Lock, LockPass};
use bucket::{BUCKETS, Bucket};
use label::Side;
use std::alloc::{AllocError, Global};
use turn_lock::Turn;

/// The locks of the buckets of a side, by their numbers, their first passes, and the room for the buckets at the end.
pub(crate) fn new_locks<'a>(
    alloc: Global,
    side: &'a Side,
) -> Result<(Vec<Lock<'a>>, Vec<LockPass<'a>>, Vec<Bucket<'a>>), AllocError>
    ensures count { IfOk result (λ made. length made.0.items ≡ BUCKETS) }
    ensures passes { IfOk result (λ made. made.1.items ≡ first_locks side.entry.now 0 made.0.items) }
    ensures empty { IfOk result (λ made. made.2.items ≡ []) }
    ensures room { IfOk result (λ made. BUCKETS ≤ vec_capacity made.2) }
{
    let room = Vec::with_capacity(alloc, usize::from(BUCKETS))?;
    let mut locks = Vec::with_capacity(alloc, usize::from(BUCKETS))?;
    let Ok(mut passes) = Vec::with_capacity(alloc, usize::from(BUCKETS)) else {
        locks.destroy_empty();
        return Err(AllocError);
    };
    for number in 0..BUCKETS as u8 {
        match new_lock(alloc, side, number) {
            Ok((lock, pass)) => {
                locks.push_reserved(lock);
                passes.push_reserved(pass);
            }
            Err(_) => {
                drop(close_locks(locks, passes, room));
                return Err(AllocError);
            }
        }
    }
    Ok((locks, passes, room))
}

/// The lock of a bucket without labels, and its first pass.
fn new_lock<'a>(
    alloc: Global,
    side: &'a Side,
    number: u8,
) -> Result<(Lock<'a>, LockPass<'a>), AllocError>
    requires { number < BUCKETS }
    ensures { IfOk result (λ made. made.1 ≡ first_pass made.0 (record { side = side.entry.now; number = number })) }
{
    let bucket = SharedBucket::new(alloc, side, number)?;
    Turn::new(alloc, bucket)
}

/// Splits a pass off each of these, into the room.
pub(crate) fn split_locks<'a>(
    locks: &Vec<Lock<'a>>,
    passes: &mut Vec<LockPass<'a>>,
    room: Vec<LockPass<'a>>,
) -> Vec<LockPass<'a>>
    requires names { locks.now.items ≡ names_in passes.old.items }
    requires idle { (S : Face) × (weight : ℕ) × (2 ≤ weight) × AreIdle S 0 weight passes.old.items }
    requires empty { room.items ≡ [] }
    requires room { length passes.old.items ≤ vec_capacity room }
    ensures new { result.items ≡ map lock_split_off passes.old.items }
    ensures old { passes.new.items ≡ map lock_kept passes.old.items }
{
    let mut made = room;
    for k in 0..locks.len() {
        let new = locks[k].split(&mut passes[k]);
        made.push_reserved(new);
    }
    made
}

/// Joins each of the other passes into the one of the same lock.
pub(crate) fn join_locks<'a>(
    locks: &Vec<Lock<'a>>,
    into: &mut Vec<LockPass<'a>>,
    others: Vec<LockPass<'a>>,
)
    requires names { locks.now.items ≡ names_in into.old.items }
    requires other_names { locks.now.items ≡ names_in others.items }
    requires idle { (S : Face) × (weight : ℕ) × AreIdle S 0 weight into.old.items }
    requires other_idle { (S : Face) × (weight : ℕ) × AreIdle S 0 weight others.items }
    ensures { AreLocksJoined into.old.items others.entry.items into.new.items }
{
    let mut rest = others.into_iter();
    for k in 0..locks.len() {
        let Some(other) = rest.next() else {
            unreachable!()
        };
        locks[k].join(&mut into[k], other);
    }
    rest.destroy_empty();
}

/// Ends all locks and their last passes, and puts the buckets into the room.
pub(crate) fn close_locks<'a>(
    locks: Vec<Lock<'a>>,
    passes: Vec<LockPass<'a>>,
    room: Vec<Bucket<'a>>,
) -> Vec<Bucket<'a>>
    requires names { locks.items ≡ names_in passes.items }
    requires idle { (S : Face) × AreIdle S 0 WHOLE_WEIGHT passes.items }
    requires empty { room.items ≡ [] }
    requires room { length passes.items ≤ vec_capacity room }
    ensures { AreLocksClosed passes.entry.items result.items }
{
    let mut made = room;
    let count = locks.len();
    let mut locks_left = locks.into_iter();
    let mut passes_left = passes.into_iter();
    for _ in 0..count {
        let Some(lock) = locks_left.next() else {
            unreachable!()
        };
        let Some(pass) = passes_left.next() else {
            unreachable!()
        };
        made.push_reserved(close_lock(lock, pass));
    }
    locks_left.destroy_empty();
    passes_left.destroy_empty();
    made
}

/// Ends a lock and its last pass, and gives the bucket.
fn close_lock<'a>(lock: Lock<'a>, pass: LockPass<'a>) -> Bucket<'a>
    requires lock { pass.lock ≡ lock }
    requires idle { pass.turn ≡ None }
    requires whole { pass.weight ≡ WHOLE_WEIGHT }
    ensures { IsLockClosed pass.entry result }
{
    lock.close(pass).into_bucket()
}
