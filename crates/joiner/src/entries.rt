ghost use Rattle.std.specs.Prelude.{◌≡◌, ◌≤◌, length, map, All, IfOk, OnOk};
ghost use Rattle.joiner.specs.LabelJoins.{IsLabelAt};
ghost use Rattle.joiner.specs.Represented.{IsEntry, AreEntries, IsPushed};
ghost use Rattle.label.specs.Gaining.{set_value};
ghost use Rattle.label.specs.declared.limits.TheConstants.{MAX_LISTED};

use crate::entry::Entry;
use crate::tip::{Tip, tip_of};
use label::{Label, value_of_strips};
use std::alloc::{AllocError, Global};
use strip_model::{End, Instance};

/// The entries of labels at an end, in their order. It fails for want of memory alone.
pub(crate) fn entries_of(
    alloc: Global,
    instance: &Instance,
    end: End,
    labels: &[&Label],
) -> Result<Vec<Entry>, AllocError>
    requires each { All (IsLabelAt instance.now end) (map (λ l. l.now) labels.now) }
    requires few { length labels.now ≤ MAX_LISTED }
    ensures { IfOk result (λ entries. AreEntries instance.now end (map (λ l. l.now) labels.now) (length labels.now) entries.items) }
{
    let mut entries = Vec::with_capacity(alloc, labels.len())?;
    for label in labels {
        push_entry(&mut entries, instance, end, label)?;
    }
    Ok(entries)
}

// Adds the entry of the label whose place is the length of the list.
fn push_entry(
    entries: &mut Vec<Entry>,
    instance: &Instance,
    end: End,
    label: &Label,
) -> Result<(), AllocError>
    requires label { IsLabelAt instance.now end label.now }
    requires few { length entries.old.items ≤ MAX_LISTED }
    ensures { OnOk result (IsPushed (IsEntry instance.now end (length entries.old.items) label.now) entries.old.items entries.new.items) }
{
    let place = entries.len() as u32;
    let tip = tip_of(instance, end, label);
    let over = tip.over;
    let value = value_of(instance, &tip);
    entries.push(Entry {
        tip: Some(tip),
        over,
        place: Some(place),
        value,
    })?;
    Ok(())
}

/// The entry of a label at an end, at this place of its list.
pub(crate) fn entry_of(instance: &Instance, end: End, label: &Label, place: u32) -> Entry
    requires { IsLabelAt instance.now end label.now }
    ensures { IsEntry instance.now end place label.now result }
{
    let tip = tip_of(instance, end, label);
    let over = tip.over;
    let value = value_of(instance, &tip);
    Entry {
        tip: Some(tip),
        over,
        place: Some(place),
        value,
    }
}

/// The value of a tip's strips, in twentieths.
pub(crate) fn value_of(instance: &Instance, tip: &Tip) -> u64
    ensures { result ≡ set_value instance.now tip.now.strips }
{
    value_of_strips(instance, tip.strips)
}
