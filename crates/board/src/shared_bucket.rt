//! A bucket as its lock sees it.

ghost use Rattle.std.specs.Prelude.{◌≡◌, ◌<◌, [], IfOk};
ghost use Rattle.board.specs.Turns.{IsHere, IsAnyTakeAnswer, IsAnyCutAnswer, IsAnswered};
ghost use Rattle.bucket.specs.Buckets.{IsBucket, IsInsertAnswer};
ghost use Rattle.bucket.specs.declared.limits.TheConstants.{BUCKETS};

use bucket::{Bucket, BucketRefusal, CutAnswer, Entry, Inserted, State, Taken};
use label::{Label, Side};
use std::alloc::{AllocError, Global};
use std::marker::Model;
use strip_model::Directed;
use turn_lock::Chronicle;

/// An entry of a bucket's history, with the path of its label. It stands for a step in clauses, and no value of it is made.
pub struct Recorded {
    pub entry: Entry,
    pub path: Vec<Directed>,
}

impl Model for Recorded {
    ghost use Rattle.board.specs.Shared.{step_with};
    ghost use Rattle.bucket.specs.Histories.{Step};

    ghost Value = { Step };

    ghost view = { λ r. step_with r.path.items r.entry };
}

/// Which bucket it is. It stands for the side and the number in clauses, and no value of it is made.
pub struct Named<'a> {
    pub side: &'a Side,
    pub number: u8,
}

impl<'a> Model for Named<'a> {
    ghost use Rattle.board.specs.Shared.{Whose};

    ghost Value = { Whose };

    ghost view = { λ n. record { side = n.side.now; number = n.number } };
}

/// A bucket that threads share under a lock. Contracts see it as the bucket. Its history is that of the bucket, and its frame
/// is the bucket's side and number.
#[derive(Drop)]
pub struct SharedBucket<'a> {
    bucket: Bucket<'a>,
}

impl<'a> Model for SharedBucket<'a> {
    ghost use Rattle.bucket.specs.Buckets.{Bin};

    ghost Value = { Bin };

    ghost view = { λ s. s.bucket };
}

impl<'a> Chronicle for SharedBucket<'a> {
    type Entry = Recorded;

    type Frame = Named<'a>;

    ghost use Rattle.board.specs.Shared.{history_of, whose};

    ghost history = { history_of };

    ghost frame = { whose };
}

impl<'a> SharedBucket<'a> {
    /// A bucket without labels.
    pub(crate) fn new(
        alloc: Global,
        side: &'a Side,
        number: u8,
    ) -> Result<SharedBucket<'a>, AllocError>
        requires { number < BUCKETS }
        ensures { IfOk result (λ shared. shared ≡ record { side = side.entry.now; number = number; history = [] }) }
    {
        let bucket = Bucket::new(alloc, side, number)?;
        Ok(SharedBucket { bucket })
    }

    /// Inserts a label, as the bucket does.
    pub(crate) fn insert(&mut self, label: Label) -> Result<Inserted, BucketRefusal>
        requires here { IsHere self.old.side self.old.number label }
        ensures answer { IsAnswered (λ S hs steps. IsInsertAnswer S hs label.path.items result steps) self.old self.new }
        ensures sound { IsBucket self.new }
    {
        let answer = self.bucket.insert(label);
        // For its clause: the bucket is sound.
        let _ = self.bucket.labels();
        answer
    }

    /// Takes a label, as the bucket does. An id that isn't there is answered as `Gone`, with the state `Waiting`, which no label
    /// that is there is answered with.
    pub(crate) fn take(&mut self, id: u32) -> Result<Taken, AllocError>
        ensures answer { IsAnswered (IsAnyTakeAnswer id result) self.old self.new }
        ensures sound { IsBucket self.new }
    {
        let answer = if id < self.bucket.labels() {
            self.bucket.take(id)
        } else {
            Ok(Taken::Gone {
                state: State::Waiting,
            })
        };
        // For its clause: the bucket is sound.
        let _ = self.bucket.labels();
        answer
    }

    /// Cuts a label at a value, as the bucket does. An id that isn't there is answered as `Gone`, with the state `Waiting`.
    pub(crate) fn cut(&mut self, id: u32, value: u64) -> CutAnswer
        ensures answer { IsAnswered (IsAnyCutAnswer id value result) self.old self.new }
        ensures sound { IsBucket self.new }
    {
        let answer = if id < self.bucket.labels() {
            self.bucket.cut(id, value)
        } else {
            CutAnswer::Gone {
                state: State::Waiting,
            }
        };
        // For its clause: the bucket is sound.
        let _ = self.bucket.labels();
        answer
    }

    /// The bucket.
    pub(crate) fn into_bucket(self) -> Bucket<'a>
        ensures value { result ≡ self.entry }
        ensures sound { IsBucket result }
    {
        let SharedBucket { bucket } = self;
        // For its clause: the bucket is sound.
        let _ = bucket.labels();
        bucket
    }
}
