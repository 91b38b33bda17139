//! Two labels of one bucket, of which neither dominates the other.

ghost use Rattle.std.specs.Prelude.{◌≡◌, ◌<◌, [], ◌∷◌, length, IfOk, OnOk};
ghost use Rattle.label.specs.Labels.{IsLabelOf};

use bucket::{Bucket, BucketRefusal, Inserted, State, Taken};
use label::{Label, Side, extend, start};
use std::alloc::Global;
use std::test::Fail;
use strip_model::{Directed, End};
use worked_instances::four_strips;

// The label of `x` and then the third strip, in direction 0.
fn label_by(alloc: Global, side: &Side, x: Directed) -> Result<Label, Fail>
    ensures label { IfOk result (IsLabelOf side.now) }
    ensures path { IfOk result (λ label. label.path.items ≡ x ∷ 4 ∷ []) }
{
    if side.instance().strips().len() < 3 || x.strip() > 2 {
        return Err("it has no such strip".into());
    }
    let Some(first) = start(alloc, side, x)? else {
        return Err("its window is closed".into());
    };
    match extend(alloc, side, &first, Directed(4))? {
        Some(label) => Ok(label),
        None => Err("it can't come next".into()),
    }
}

// What inserting that label answers.
fn insert_by(
    alloc: Global,
    bucket: &mut Bucket<'_>,
    side: &Side,
    x: Directed,
) -> Result<Result<Inserted, BucketRefusal>, Fail>
    requires side { bucket.old.side ≡ side.now }
    requires number { bucket.old.number ≡ 4 }
    ensures side { bucket.new.side ≡ bucket.old.side }
    ensures number { bucket.new.number ≡ bucket.old.number }
{
    let label = label_by(alloc, side, x)?;
    Ok(bucket.insert(label))
}

// Whether a label was there, waited, and has this path.
fn takes(bucket: &mut Bucket<'_>, id: u32, path: &[Directed]) -> Result<bool, Fail> {
    if id >= bucket.labels() {
        return Ok(false);
    }
    match bucket.take(id)? {
        Taken::Label(label) => Ok(label.path() == path),
        Taken::Gone { state: _ } => Ok(false),
    }
}

// Whether a label is there in this state.
fn is_in_state(bucket: &Bucket<'_>, id: u32, state: State) -> bool {
    id < bucket.labels() && bucket.state(id) == state
}

#[test]
fn two_labels_stand_side_by_side(rt: HostRuntime) -> Result<(), Fail> {
    let instance = four_strips(rt.alloc())?;
    let side = Side::new(rt.alloc(), &instance, End::Forward, 12)?;
    let mut bucket = Bucket::new(rt.alloc(), &side, 4)?;
    let first = insert_by(rt.alloc(), &mut bucket, &side, Directed(0))?;
    assert!(rt; matches!(first, Ok(Inserted::Live { id: 0, retired: 0 })));
    let second = insert_by(rt.alloc(), &mut bucket, &side, Directed(2))?;
    assert!(rt; matches!(second, Ok(Inserted::Live { id: 1, retired: 0 })));
    let again = insert_by(rt.alloc(), &mut bucket, &side, Directed(0))?;
    assert!(rt; matches!(again, Err(BucketRefusal::Present { id: 0 })));
    assert!(rt; takes(&mut bucket, 0, &[Directed(0), Directed(4)])?);
    assert!(rt; is_in_state(&bucket, 0, State::Taken));
    assert!(rt; is_in_state(&bucket, 1, State::Waiting));
    Ok(())
}
