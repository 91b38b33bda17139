//! One turn of a bucket's lock: it is taken, the bucket is called once, and the turn is given back.

ghost use Rattle.std.specs.Prelude.{◌≡◌, ℕ, List, Some, None};
ghost use Rattle.board.specs.Turns.{IsTurn, IsAnswered};
ghost use Rattle.bucket.specs.Buckets.{IsBucket};
ghost use Rattle.bucket.specs.Histories.{Step};
ghost use Rattle.label_list.specs.Labels.{Held};
ghost use Rattle.strip_model.specs.Side.{Face};

use crate::shared_bucket::SharedBucket;
use bucket::{BucketRefusal, CutAnswer, Inserted, Taken};
use label::Label;
use std::alloc::AllocError;
use std::sync::Wait;
use turn_lock::{Turn, TurnPass, TurnSpent};

/// The lock of a bucket.
pub(crate) type Lock<'a> = Turn<SharedBucket<'a>>;

/// A pass of it.
pub(crate) type LockPass<'a> = TurnPass<SharedBucket<'a>>;

/// A call of a bucket, with its arguments.
pub(crate) trait Call {
    /// What it answers.
    type Answer;

    // On which bucket it can be made: of which side, and with which number.
    ghost fits: { Self → Face → ℕ → Type 0 };

    // What it answers, as a relation of the bucket's side, of the labels before, and of the entries that it makes.
    ghost answers: { Self → Self.Answer → Face → List Held → List Step → Type 0 };

    /// Makes it.
    fn make<'a>(self, bucket: &mut SharedBucket<'a>) -> Self::Answer
        requires { fits self bucket.old.side bucket.old.number }
        ensures answer { IsAnswered (answers self result) bucket.old bucket.new }
        ensures sound { IsBucket bucket.new };
}

/// A label is inserted.
#[derive(Drop)]
pub(crate) struct InsertCall {
    pub(crate) label: Label,
}

impl Call for InsertCall {
    type Answer = Result<Inserted, BucketRefusal>;

    ghost use Rattle.board.specs.Turns.{IsHere};
    ghost use Rattle.bucket.specs.Buckets.{IsInsertAnswer};

    ghost fits = { λ call S k. IsHere S k call.label };

    ghost answers = { λ call answer S hs steps. IsInsertAnswer S hs call.label.path.items answer steps };

    fn make<'a>(self, bucket: &mut SharedBucket<'a>) -> Result<Inserted, BucketRefusal> {
        bucket.insert(self.label)
    }
}

/// The label with an id is taken.
#[derive(Drop)]
pub(crate) struct TakeCall {
    pub(crate) id: u32,
}

impl Call for TakeCall {
    type Answer = Result<Taken, AllocError>;

    ghost use Rattle.board.specs.Turns.{IsAnyTakeAnswer};

    ghost fits = { λ call S k. Unit {0} };

    ghost answers = { λ call. IsAnyTakeAnswer call.id };

    fn make<'a>(self, bucket: &mut SharedBucket<'a>) -> Result<Taken, AllocError> {
        bucket.take(self.id)
    }
}

/// The label with an id is cut at a value.
#[derive(Drop)]
pub(crate) struct CutCall {
    pub(crate) id: u32,
    pub(crate) value: u64,
}

impl Call for CutCall {
    type Answer = CutAnswer;

    ghost use Rattle.board.specs.Turns.{IsAnyCutAnswer};

    ghost fits = { λ call S k. Unit {0} };

    ghost answers = { λ call. IsAnyCutAnswer call.id call.value };

    fn make<'a>(self, bucket: &mut SharedBucket<'a>) -> CutAnswer {
        bucket.cut(self.id, self.value)
    }
}

/// Makes a call in one turn, which is given back.
pub(crate) fn in_turn<'a, R: Wait, C: Call + Drop>(
    rt: &R,
    lock: &Lock<'a>,
    pass: &mut LockPass<'a>,
    call: C,
) -> Result<C::Answer, TurnSpent>
    requires lock { pass.old.lock ≡ lock.now }
    requires idle { pass.old.turn ≡ None }
    requires fits { (S : Face) (k : ℕ) → pass.old.frame ≡ Some (record { side = S; number = k }) → C.fits call S k }
    ensures turn { (S : Face) (k : ℕ) → pass.old.frame ≡ Some (record { side = S; number = k }) →
        IsTurn S k (C.answers call) result pass.old pass.new }
{
    let mut held = lock.enter(rt, pass)?;
    let answer = call.make(held.value());
    lock.leave(held, pass);
    Ok(answer)
}
