//! A bucket: the labels of a side that end with certain directed strips, of which none that lives dominates another.

ghost use Rattle.std.specs.Prelude.{◌≡◌, ◌<◌, ◌≤◌, [], length, map, ◌/◌, IfOk, OnErr};
ghost use Rattle.std.specs.List.{All};
ghost use Rattle.bucket.specs.Buckets.{held_in, IsBucket, Inserting, Taking, Cutting};
ghost use Rattle.bucket.specs.Histories.{bucket_of};
ghost use Rattle.label_list.specs.Labels.{path_of, state_of};
ghost use Rattle.bucket.specs.Stores.{entry_of};
ghost use Rattle.bucket.specs.declared.limits.TheConstants.{BUCKETS, FRONTS, MAX_LABELS};
ghost use Rattle.label.specs.Labels.{IsLabelOf};
ghost use Rattle.strip_model.specs.Directed.{strip_of};

use crate::inserting::insert_at;
use crate::limits::FRONTS;
use crate::store::Store;
use crate::{BUCKETS, BucketRefusal, CutAnswer, Entry, Inserted, State, Taken};
use antichain::Antichain;
use label::{Label, Side, brief, outline_of};
use label_list::LabelList;
use std::alloc::{AllocError, Global};
use std::marker::Model;
use strip_model::Directed;

/// One dominance set: the labels of a side whose last directed strip falls into this bucket, with their states and the
/// history of all that was done to them. Contracts see the side, the bucket's number and the history, in which an insertion
/// has its path. The history is legal, and of the live labels none dominates another.
#[derive(Drop)]
pub struct Bucket<'a> {
    store: Store<'a>,
    // For each last directed strip that falls into this bucket the live labels that end with it.
    fronts: Vec<Antichain>,
    // Room for the ids of those that a new label retires.
    beaten: Vec<u32>,
}

impl<'a> Model for Bucket<'a> {
    ghost use Rattle.bucket.specs.Buckets.{Bin};
    ghost use Rattle.bucket.specs.Fronts.{IsKeptBucket};

    ghost Value = { Bin };

    ghost view = { λ b. b.store };

    ghost invariant = { λ b. IsKeptBucket b.store b.fronts.items };
}

impl<'a> Bucket<'a> {
    /// A bucket of this side without labels. Its number is below `BUCKETS`. It fails for want of memory alone.
    pub fn new(alloc: Global, side: &'a Side, number: u8) -> Result<Bucket<'a>, AllocError>
        requires { number < BUCKETS }
        ensures { IfOk result (λ bucket. bucket ≡ record { side = side.entry.now; number = number; history = [] }) }
    {
        Ok(Bucket {
            store: Store::new(alloc, side, number),
            fronts: empty_fronts(alloc)?,
            beaten: Vec::new(alloc),
        })
    }

    /// How many labels there are, whatever their states.
    pub fn labels(&self) -> u32
        ensures value { result ≡ length (held_in self.now) }
        ensures sound { IsBucket self.now }
        ensures few { result ≤ MAX_LABELS }
    {
        // For its invariant: none of the live labels dominates another.
        let _ = &self.fronts;
        self.store.len()
    }

    /// The directed strips of a label, the first first.
    pub fn path(&self, id: u32) -> &[Directed]
        requires { id < length (held_in self.now) }
        ensures { result.now ≡ path_of (held_in self.now) id }
    {
        self.store.path(id)
    }

    /// The state of a label.
    pub fn state(&self, id: u32) -> State
        requires { id < length (held_in self.now) }
        ensures { result ≡ state_of (held_in self.now) id }
    {
        self.store.state(id)
    }

    /// The history, the first entry first. The path of a label that was inserted is told by `path`.
    pub fn history(&self) -> &[Entry]
        ensures { result.now ≡ map entry_of self.now.history }
    {
        self.store.entries()
    }

    /// Inserts a label of this side and bucket. Where a live label dominates it, it is retired by the least that does, and
    /// else it waits and retires each live label that it dominates, in rising order of ids.
    ///
    /// # Errors
    ///
    /// `Present` exactly where a label has this path, in whatever state; `Crowded` exactly where none has it and there are
    /// `MAX_LABELS` labels; `Memory` for want of memory alone. The bucket stays as it was.
    pub fn insert(&mut self, label: Label) -> Result<Inserted, BucketRefusal>
        requires side { IsLabelOf self.old.side label }
        requires here { bucket_of label.path.items ≡ self.old.number }
        ensures answer { Inserting self.old self.new label.path.items result }
        ensures refused { OnErr result (self.new ≡ self.old) }
    {
        let side = self.store.side();
        let outline = outline_of(side, &brief(&label));
        let front = front_of(side, label.last());
        insert_at(
            &mut self.store,
            &mut self.fronts[front],
            &mut self.beaten,
            &label,
            &outline,
        )
    }

    /// Takes a label that waits: a copy of it. Where the label doesn't wait, its state is answered. It fails for want of
    /// memory alone, and then, as after `Gone`, the bucket is as it was.
    pub fn take(&mut self, id: u32) -> Result<Taken, AllocError>
        requires { id < length (held_in self.old) }
        ensures answer { Taking self.old self.new id result }
        ensures refused { OnErr result (self.new ≡ self.old) }
    {
        self.store.take(id)
    }

    /// Cuts a label that is live and whose bound, in twentieths, is no greater than the value. No memory is taken.
    pub fn cut(&mut self, id: u32, value: u64) -> CutAnswer
        requires { id < length (held_in self.old) }
        ensures { Cutting self.old self.new id value result }
    {
        let brief = self.store.brief(id);
        let front = front_of(self.store.side(), brief.last);
        let answer = self.store.cut(id, value);
        if let CutAnswer::Done = answer {
            self.fronts[front].remove(id, brief.start);
        }
        answer
    }

    /// Takes the bucket apart: its labels with their states, and the entries of its history, the first first. It takes no
    /// memory.
    pub fn into_parts(self) -> (LabelList<'a>, Vec<Entry>)
        ensures list { result.0 ≡ record { face = self.entry.side; labels = held_in self.entry } }
        ensures entries { result.1.items ≡ map entry_of self.entry.history }
    {
        let Bucket {
            store,
            fronts: _,
            beaten: _,
        } = self;
        store.into_parts()
    }
}

// An antichain without members for each last directed strip that falls into a bucket.
fn empty_fronts(alloc: Global) -> Result<Vec<Antichain>, AllocError>
    ensures size { IfOk result (λ fronts. length fronts.items ≡ FRONTS) }
    ensures empty { IfOk result (λ fronts. All (λ front. front.members ≡ []) fronts.items) }
{
    let mut fronts = Vec::with_capacity(alloc, FRONTS)?;
    for _ in 0..FRONTS {
        fronts.push(Antichain::empty(alloc))?;
    }
    Ok(fronts)
}

// The place of the antichain of the labels of the side that end with `x`, among those of its bucket.
fn front_of(side: &Side, x: Directed) -> usize
    requires { strip_of x < length side.now.instance.strips }
    ensures value { result ≡ x / BUCKETS }
    ensures small { result < FRONTS }
{
    // For its clause: how many strips there can be.
    let _ = side.instance();
    usize::from(x.0 / BUCKETS)
}
