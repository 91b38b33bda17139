//! A core from what a search by many threads left.

ghost use Rattle.std.specs.Prelude.{◌≡◌, ◌<◌, length, map, IfOk, OnOk};
ghost use Rattle.bucket.specs.Buckets.{IsBucket};
ghost use Rattle.bucket.specs.Traces.{AreBucketsOf, IsTraceOf};
ghost use Rattle.bucket.specs.declared.limits.TheConstants.{BUCKETS};
ghost use Rattle.label_core.specs.CoreState.{opening};
ghost use Rattle.label_core.specs.Settling.{waiting, at_hand, settle, settle_cut, settle_all, settle_bucket, settle_side, IsNamed, AreNamed};
ghost use Rattle.label_core.specs.Traces.{name_in, trace_run, last_state, IsLegalRun};
ghost use Rattle.label_list.specs.Labels.{with_labels};
ghost use Rattle.strip_model.specs.Side.{face_of};
ghost use Rattle.strip_model.specs.declared.end.End.TheVariants.{Forward, Backward};

use crate::both_sides::BothSides;
use crate::side_labels::SideLabels;
use crate::{Core, Note};
use bucket::{BUCKETS, Bucket, Entry, Id, State, Trace};
use incumbent::Worth;
use label::{Side, bound_of};
use label_list::LabelList;
use std::alloc::{AllocError, Global};
use strip_model::{End, Instance};

impl<'a> Core<'a> {
    /// The core that a trace leads to: its plan is published, and then the entries of the forward buckets are made, and those
    /// of the backward ones, each in its order. A cut whose bound, in twentieths, exceeds the plan's gain is left out, so its
    /// label stays live. All these steps are legal, whatever the threads did. The two sides are those of the instance with one
    /// cut, and the trace is of these sides. The labels of the trace move into the core as they are, so it takes time of the
    /// order of the labels and entries, whatever the lengths of the paths. It fails for want of memory alone.
    pub fn from_trace(
        alloc: Global,
        instance: &'a Instance,
        forward: &'a Side,
        backward: &'a Side,
        trace: Trace<'a>,
    ) -> Result<Core<'a>, AllocError>
        requires forward { forward.now ≡ face_of instance.now forward.now.cut Forward }
        requires backward { backward.now ≡ face_of instance.now forward.now.cut Backward }
        requires trace { IsTraceOf instance.now forward.now backward.now trace }
        ensures legal { IsLegalRun instance.entry.now forward.entry.now.cut opening (trace_run instance.entry.now trace.entry) }
        ensures last { IfOk result (λ core. core ≡ record {
          instance = instance.entry.now;
          cut = forward.entry.now.cut;
          state = last_state instance.entry.now opening (trace_run instance.entry.now trace.entry);
        }) }
    {
        let gain = trace.plan.worth();
        let plan = Vec::from_slice(alloc, trace.plan.plan())?;
        let mut notes = Vec::new(alloc);
        let sides = BothSides {
            forward: settled_side(
                alloc,
                forward,
                End::Forward,
                gain,
                trace.forward,
                &mut notes,
            )?,
            backward: settled_side(
                alloc,
                backward,
                End::Backward,
                gain,
                trace.backward,
                &mut notes,
            )?,
        };
        let labels = sides.labels();
        Ok(Core::from_parts(alloc, instance, sides, notes, plan, gain, labels))
    }
}

// The labels of a side's buckets as their histories leave them; the marks come after those before.
fn settled_side<'a>(
    alloc: Global,
    side: &'a Side,
    end: End,
    gain: u64,
    buckets: Vec<Bucket<'a>>,
    notes: &mut Vec<Note>,
) -> Result<SideLabels<'a>, AllocError>
    requires buckets { AreBucketsOf side.now buckets.items }
    ensures labels { IfOk result (λ labels. labels ≡ record {
      face = side.entry.now;
      buckets = (settle_side side.entry.now.instance end gain notes.old.items buckets.entry.items).buckets;
    }) }
    ensures notes { OnOk result (notes.new.items ≡ (settle_side side.entry.now.instance end gain notes.old.items buckets.entry.items).notes) }
{
    let mut lists = Vec::with_capacity(alloc, usize::from(BUCKETS))?;
    let mut rest = buckets.into_iter();
    for number in 0..BUCKETS as u8 {
        let Some(bucket) = rest.next() else {
            unreachable!()
        };
        let list = settled_bucket(bucket, end, number, gain, notes)?;
        lists.push(list)?;
    }
    rest.destroy_empty();
    Ok(SideLabels::from_lists(side, lists))
}

// The labels of a bucket as its history leaves them; the marks come after those before.
fn settled_bucket<'a>(
    bucket: Bucket<'a>,
    end: End,
    number: u8,
    gain: u64,
    notes: &mut Vec<Note>,
) -> Result<LabelList<'a>, AllocError>
    requires number { bucket.number ≡ number }
    requires sound { IsBucket bucket }
    ensures list { IfOk result (λ list. list ≡ record {
      face = bucket.entry.side;
      labels = (settle_bucket bucket.entry.side.instance end gain notes.old.items bucket.entry).labels;
    }) }
    ensures notes { OnOk result (notes.new.items ≡ (settle_bucket bucket.entry.side.instance end gain notes.old.items bucket.entry).notes) }
{
    let (mut list, entries) = bucket.into_parts();
    wait_all(&mut list);
    settle_entries(&mut list, end, number, gain, &entries, notes)?;
    Ok(list)
}

// All labels wait.
fn wait_all(list: &mut LabelList<'_>)
    ensures { list.new ≡ with_labels list.old (map waiting list.old.labels) }
{
    for id in 0..list.len() {
        list.set_state(id, State::Waiting);
    }
}

// The labels of a bucket, and the marks, after these entries.
fn settle_entries(
    list: &mut LabelList<'_>,
    end: End,
    number: u8,
    gain: u64,
    entries: &[Entry],
    notes: &mut Vec<Note>,
) -> Result<(), AllocError>
    requires named { AreNamed (length list.old.labels) entries.now }
    ensures list { OnOk result (list.new ≡ with_labels list.old
        (settle_all list.old.face.instance end number gain (at_hand list.old.labels notes.old.items) entries.now).labels) }
    ensures notes { OnOk result (notes.new.items ≡
        (settle_all list.old.face.instance end number gain (at_hand list.old.labels notes.old.items) entries.now).notes) }
{
    for entry in entries {
        settle(list, end, number, gain, *entry, notes)?;
    }
    Ok(())
}

// The same after one entry.
fn settle(
    list: &mut LabelList<'_>,
    end: End,
    number: u8,
    gain: u64,
    entry: Entry,
    notes: &mut Vec<Note>,
) -> Result<(), AllocError>
    requires named { IsNamed (length list.old.labels) entry }
    ensures list { OnOk result (list.new ≡ with_labels list.old
        (settle list.old.face.instance end number gain (at_hand list.old.labels notes.old.items) entry).labels) }
    ensures notes { OnOk result (notes.new.items ≡
        (settle list.old.face.instance end number gain (at_hand list.old.labels notes.old.items) entry).notes) }
{
    match entry {
        // The label is there already.
        Entry::Insert { id: _ } => Ok(()),
        Entry::Take { id } => {
            list.set_state(id, State::Taken);
            Ok(())
        }
        Entry::Retire { id, by } => {
            notes.push(Note::Retires {
                label: name_in(end, number, id),
                by: name_in(end, number, by),
            })?;
            list.set_state(id, State::Retired { by });
            Ok(())
        }
        Entry::Cut { id } => cut_within(list, name_in(end, number, id), gain, notes),
    }
}

// A label is cut, where its bound, in twentieths, is at most the gain.
fn cut_within(
    list: &mut LabelList<'_>,
    id: Id,
    gain: u64,
    notes: &mut Vec<Note>,
) -> Result<(), AllocError>
    requires there { id.index < length list.old.labels }
    ensures list { OnOk result (list.new ≡ with_labels list.old
        (settle_cut list.old.face.instance gain (at_hand list.old.labels notes.old.items) id).labels) }
    ensures notes { OnOk result (notes.new.items ≡
        (settle_cut list.old.face.instance gain (at_hand list.old.labels notes.old.items) id).notes) }
{
    if bound_of(list.side(), &list.brief(id.index)) > gain {
        return Ok(());
    }
    notes.push(Note::Cuts { label: id })?;
    list.set_state(id.index, State::Cut);
    Ok(())
}

// The name of a label of a bucket.
fn name_in(end: End, bucket: u8, index: u32) -> Id
    ensures { result ≡ name_in end bucket index }
{
    Id { end, bucket, index }
}
