//! Inserting a label into a bucket: it is retired at once by a label that dominates it, or retires those that it dominates.

ghost use Rattle.std.specs.Prelude.{◌≡◌, ◌<◌, ◌%◌, ℕ, length};
ghost use Rattle.antichain.specs.Antichains.{Row};
ghost use Rattle.bucket.specs.Buckets.{held_in, grown, retirements, Above, Inserting};
ghost use Rattle.bucket.specs.Fronts.{IsFront};
ghost use Rattle.bucket.specs.Histories.{bucket_of};
ghost use Rattle.bucket.specs.Stores.{AreRetirable};
ghost use Rattle.bucket.specs.declared.limits.TheConstants.{MAX_LABELS};
ghost use Rattle.label.specs.Labels.{IsLabelOf};
ghost use Rattle.label.specs.Outlines.{IsOutlineOf};
ghost use Rattle.label_list.specs.Labels.{IsAbsent, last_of};

use crate::store::Store;
use crate::{BucketRefusal, Inserted, MAX_LABELS};
use antichain::{Antichain, Member};
use label::{Label, Outline};

/// Inserts a label with its outline, whose antichain this is: the live labels that end as it does.
pub(crate) fn insert_at(
    store: &mut Store<'_>,
    front: &mut Antichain,
    beaten: &mut Vec<u32>,
    label: &Label,
    outline: &Outline,
) -> Result<Inserted, BucketRefusal>
    requires side { IsLabelOf store.old.side label.now }
    requires here { bucket_of label.now.path.items ≡ store.old.number }
    requires outline { IsOutlineOf store.old.side outline.now label.now.path.items }
    requires front { IsFront store.old.side (held_in store.old) (last_of label.now.path.items) front.old.members }
    ensures inserting { Inserting store.old store.new label.now.path.items result }
    ensures front { IsFront store.new.side (held_in store.new) (last_of label.now.path.items) front.new.members }
{
    if let Some(id) = store.id_of(label.path()) {
        return Err(BucketRefusal::Present { id });
    }
    let labels = store.len();
    if labels == MAX_LABELS {
        return Err(BucketRefusal::Crowded { labels });
    }
    match front.least_dominator(store.side(), outline) {
        Some(by) => {
            let id = store.add(label)?;
            store.retire(id, by);
            Ok(Inserted::Dominated { id, by })
        }
        None => add_live(store, front, beaten, label, outline),
    }
}

// Inserts a label that no live one dominates: it retires those that it dominates, in rising order of ids. All memory is taken
// before anything changes.
fn add_live(
    store: &mut Store<'_>,
    front: &mut Antichain,
    beaten: &mut Vec<u32>,
    label: &Label,
    outline: &Outline,
) -> Result<Inserted, BucketRefusal>
    requires side { IsLabelOf store.old.side label.now }
    requires here { bucket_of label.now.path.items ≡ store.old.number }
    requires absent { IsAbsent (held_in store.old) label.now.path.items }
    requires few { length (held_in store.old) < MAX_LABELS }
    requires none_above { (k : ℕ) → ¬ Above store.old.side (held_in store.old) label.now.path.items k }
    requires outline { IsOutlineOf store.old.side outline.now label.now.path.items }
    requires front { IsFront store.old.side (held_in store.old) (last_of label.now.path.items) front.old.members }
    ensures inserting { Inserting store.old store.new label.now.path.items result }
    ensures front { IsFront store.new.side (held_in store.new) (last_of label.now.path.items) front.new.members }
{
    front.reserve()?;
    beaten.clear();
    beaten.reserve(front.len())?;
    let id = store.add(label)?;
    front.take_beaten(store.side(), outline, beaten);
    beaten.sort_unstable();
    retire_all(store, id, beaten);
    front.insert(Member {
        id,
        outline: *outline,
    });
    Ok(Inserted::Live {
        id,
        retired: beaten.len() as u32,
    })
}

// The label with the id `by` retires these.
fn retire_all(store: &mut Store<'_>, by: u32, ids: &[u32])
    requires { AreRetirable store.old.side (held_in store.old) by ids.now }
    ensures { store.new ≡ grown store.old (retirements by ids.now) }
{
    for id in ids {
        store.retire(*id, by);
    }
}
