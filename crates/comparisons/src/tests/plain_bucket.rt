//! A bucket beside its plain form, which looks at all its labels for each answer: all labels of a made instance, inserted into
//! both, each twice.

ghost use Rattle.std.specs.Prelude.{◌≡◌, ◌<◌, ◌%◌, length, All};
ghost use Rattle.bucket.specs.declared.limits.TheConstants.{BUCKETS};
ghost use Rattle.label.specs.Labels.{IsLabelOf};

use super::all_labels::{all_labels, label_of};
use bucket::{BUCKETS, Bucket, BucketRefusal, Entry, Inserted, State, bucket_of};
use inst_maker::make;
use label::{Label, Side, dominates};
use std::alloc::Global;
use std::test::Fail;
use strip_model::End;

// So many labels stand in all buckets of a side at least, so that the test has enough to compare.
const MANY: usize = 1000;

// A bucket in its plain form.
#[derive(Drop)]
struct PlainBucket {
    // Where each label stands among all labels of its side, by id.
    places: Vec<usize>,
    states: Vec<State>,
    entries: Vec<Entry>,
}

impl PlainBucket {
    fn new(alloc: Global) -> PlainBucket {
        PlainBucket {
            places: Vec::new(alloc),
            states: Vec::new(alloc),
            entries: Vec::new(alloc),
        }
    }

    // The id of the label with the path of that at a place.
    fn find(&self, labels: &[Label], at: usize) -> Option<usize> {
        for id in 0..self.places.len() {
            if have_one_path(labels, self.places[id], at) {
                return Some(id);
            }
        }
        None
    }

    // Whether a label is live.
    fn is_live(&self, id: usize) -> bool {
        matches!(self.states.get(id), Some(State::Waiting | State::Taken))
    }

    // The least id of a live label that dominates the one at a place.
    fn dominator(&self, side: &Side, labels: &[Label], at: usize) -> Option<usize>
        requires { All (IsLabelOf side.now) labels.now }
    {
        for id in 0..self.places.len() {
            if self.is_live(id) && dominates_at(side, labels, self.places[id], at) {
                return Some(id);
            }
        }
        None
    }

    // The label at a place retires the live ones that it dominates, in rising order of ids: how many.
    fn retire_all(
        &mut self,
        side: &Side,
        labels: &[Label],
        at: usize,
        by: usize,
    ) -> Result<u32, Fail>
        requires { All (IsLabelOf side.now) labels.now }
    {
        let mut retired = 0u32;
        for id in 0..by {
            if id < self.places.len()
                && self.is_live(id)
                && dominates_at(side, labels, at, self.places[id])
            {
                self.retire(id, by)?;
                retired = retired.saturating_add(1);
            }
        }
        Ok(retired)
    }

    // A label retires another.
    fn retire(&mut self, id: usize, by: usize) -> Result<(), Fail> {
        let by = u32::try_from(by)?;
        if id < self.states.len() {
            self.states[id] = State::Retired { by };
        }
        self.entries.push(Entry::Retire {
            id: u32::try_from(id)?,
            by,
        })?;
        Ok(())
    }

    // Inserts the label at a place.
    fn insert(
        &mut self,
        side: &Side,
        labels: &[Label],
        at: usize,
    ) -> Result<Result<Inserted, BucketRefusal>, Fail>
        requires { All (IsLabelOf side.now) labels.now }
    {
        if let Some(id) = self.find(labels, at) {
            let id = u32::try_from(id)?;
            return Ok(Err(BucketRefusal::Present { id }));
        }
        let dominator = self.dominator(side, labels, at);
        let place = self.places.len();
        let id = u32::try_from(place)?;
        self.places.push(at)?;
        self.states.push(State::Waiting)?;
        self.entries.push(Entry::Insert { id })?;
        if let Some(by) = dominator {
            self.retire(place, by)?;
            let by = u32::try_from(by)?;
            return Ok(Ok(Inserted::Dominated { id, by }));
        }
        let retired = self.retire_all(side, labels, at, place)?;
        Ok(Ok(Inserted::Live { id, retired }))
    }
}

// Whether the labels at two places have one path.
fn have_one_path(labels: &[Label], p: usize, q: usize) -> bool {
    if p >= labels.len() || q >= labels.len() {
        return false;
    }
    labels[p].path() == labels[q].path()
}

// Whether the label at one place dominates that at another.
fn dominates_at(side: &Side, labels: &[Label], b: usize, a: usize) -> bool
    requires { All (IsLabelOf side.now) labels.now }
{
    if b >= labels.len() || a >= labels.len() {
        return false;
    }
    dominates(side, label_of(side, labels, b), label_of(side, labels, a))
}

// Whether two answers are the same.
fn are_same(
    answer: &Result<Inserted, BucketRefusal>,
    plain: &Result<Inserted, BucketRefusal>,
) -> bool {
    match (answer, plain) {
        (Ok(answer), Ok(plain)) => answer == plain,
        (Err(BucketRefusal::Present { id }), Err(BucketRefusal::Present { id: plain })) => {
            id == plain
        }
        _ => false,
    }
}

// Inserts a copy of a label into a bucket.
fn insert_copy(
    alloc: Global,
    side: &Side,
    bucket: &mut Bucket<'_>,
    label: &Label,
) -> Result<Result<Inserted, BucketRefusal>, Fail>
    requires label { IsLabelOf side.now label.now }
    requires side { bucket.old.side ≡ side.now }
    requires here { label.now.last % BUCKETS ≡ bucket.old.number }
    ensures side { bucket.new.side ≡ bucket.old.side }
    ensures number { bucket.new.number ≡ bucket.old.number }
{
    let copy = label.copy(alloc)?;
    Ok(bucket.insert(copy))
}

// Inserts the label at a place, if it is of this bucket, into both forms: whether they answer the same.
fn insert_at(
    alloc: Global,
    side: &Side,
    labels: &[Label],
    at: usize,
    number: u8,
    bucket: &mut Bucket<'_>,
    plain: &mut PlainBucket,
) -> Result<bool, Fail>
    requires labels { All (IsLabelOf side.now) labels.now }
    requires side { bucket.old.side ≡ side.now }
    requires number { bucket.old.number ≡ number }
    ensures side { bucket.new.side ≡ bucket.old.side }
    ensures number { bucket.new.number ≡ bucket.old.number }
{
    if at >= labels.len() {
        return Ok(false);
    }
    let label = label_of(side, labels, at);
    if bucket_of(label.last()) != number {
        return Ok(true);
    }
    let answer = insert_copy(alloc, side, bucket, label)?;
    let plain_answer = plain.insert(side, labels, at)?;
    Ok(are_same(&answer, &plain_answer))
}

// Inserts all labels of this bucket into both forms: whether all answers are the same.
fn insert_all(
    alloc: Global,
    side: &Side,
    labels: &[Label],
    number: u8,
    bucket: &mut Bucket<'_>,
    plain: &mut PlainBucket,
) -> Result<bool, Fail>
    requires labels { All (IsLabelOf side.now) labels.now }
    requires side { bucket.old.side ≡ side.now }
    requires number { bucket.old.number ≡ number }
    ensures side { bucket.new.side ≡ bucket.old.side }
    ensures number { bucket.new.number ≡ bucket.old.number }
{
    for at in 0..labels.len() {
        if !insert_at(alloc, side, labels, at, number, bucket, plain)? {
            return Ok(false);
        }
    }
    Ok(true)
}

// Whether both forms have the same labels in the same states, and one history.
fn are_alike(labels: &[Label], bucket: &Bucket<'_>, plain: &PlainBucket) -> bool {
    if bucket.labels() as usize != plain.places.len() || bucket.history() != &plain.entries[..] {
        return false;
    }
    for id in 0..bucket.labels() {
        if !is_label_alike(labels, bucket, plain, id) {
            return false;
        }
    }
    true
}

// Whether both forms have the same label with this id, in the same state.
fn is_label_alike(labels: &[Label], bucket: &Bucket<'_>, plain: &PlainBucket, id: u32) -> bool {
    if id >= bucket.labels() {
        return false;
    }
    match (plain.places.get(id as usize), plain.states.get(id as usize)) {
        (Some(at), Some(state)) => {
            *at < labels.len()
                && bucket.path(id) == labels[*at].path()
                && bucket.state(id) == *state
        }
        _ => false,
    }
}

// How many labels both forms of a bucket have, where they are alike.
fn try_bucket(alloc: Global, side: &Side, labels: &[Label], number: u8) -> Result<usize, Fail>
    requires labels { All (IsLabelOf side.now) labels.now }
    requires number { number < BUCKETS }
{
    let mut bucket = Bucket::new(alloc, side, number)?;
    let mut plain = PlainBucket::new(alloc);
    if !insert_all(alloc, side, labels, number, &mut bucket, &mut plain)? {
        return Err("an answer differs".into());
    }
    if !insert_all(alloc, side, labels, number, &mut bucket, &mut plain)? {
        return Err("an answer to a label that is there differs".into());
    }
    if !are_alike(labels, &bucket, &plain) {
        return Err("a label or the history differs".into());
    }
    Ok(plain.places.len())
}

// How many labels all buckets of a side have, where both forms of each are alike.
fn try_side(alloc: Global, side: &Side) -> Result<usize, Fail> {
    let labels = all_labels(alloc, side)?;
    let mut count = 0usize;
    for number in 0..BUCKETS as u8 {
        count = count.saturating_add(try_bucket(alloc, side, &labels, number)?);
    }
    if count != labels.len() {
        return Err("a label stands in no bucket".into());
    }
    Ok(count)
}

#[test]
fn buckets_are_as_their_plain_form(rt: HostRuntime) -> Result<(), Fail> {
    let instance = make(rt.alloc(), 7, 20)?;
    let middle = instance.horizon() / 2;
    let forward = Side::new(rt.alloc(), &instance, End::Forward, middle)?;
    let backward = Side::new(rt.alloc(), &instance, End::Backward, middle)?;
    let count = try_side(rt.alloc(), &forward)?;
    assert!(rt; count >= MANY, "{count}");
    let count = try_side(rt.alloc(), &backward)?;
    assert!(rt; count >= MANY, "{count}");
    Ok(())
}
