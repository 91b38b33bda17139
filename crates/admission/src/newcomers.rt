//! How a new label comes in.

ghost use Rattle.std.specs.Prelude.{ℕ, ◌≡◌, ◌⊎◌, ◌<◌, ◌≤◌, length, OnOk, OnErr, IfOk};
ghost use Rattle.admission.specs.Antichains.{IsAntichainAt, Admits};
ghost use Rattle.admission.specs.CarefulRuns.{InsertsWithCare, GoesCarefully};
ghost use Rattle.admission.specs.Contests.{NamesIfLive};
ghost use Rattle.bucket.specs.Histories.{bucket_of};
ghost use Rattle.label.specs.Labels.{IsLabelOf};
ghost use Rattle.label_core.specs.CoreState.{labels_in, state_of};
ghost use Rattle.label_core.specs.Events.{InsertLabel};
ghost use Rattle.label_core.specs.Machine.{Can, count_of, new_id};
ghost use Rattle.label_core.specs.declared.limits.TheConstants.{MAX_CORE_LABELS};
ghost use Rattle.label_list.specs.Labels.{last_of};
ghost use Rattle.label_list.specs.declared.state.State.TheVariants.{Cut};
ghost use Rattle.strip_model.specs.Plan.{gain_of};
ghost use Rattle.strip_model.specs.Reach.{bound};
ghost use Rattle.strip_model.specs.Side.{facing, face_of};

use crate::contests::weigh;
use antichain::Antichain;
use bucket::Id;
use label::{Label, brief, outline_of};
use label_core::Core;
use std::alloc::{AllocError, Global};

/// Inserts a label and does at once what it makes possible: it is cut if its bound is at most the incumbent's gain; it is
/// retired if a label of its antichain dominates it; else it retires those that it dominates, and joins them. The antichain is
/// that of its last directed strip. The answer is the label's name if it lives then. It fails for want of memory alone: then
/// nothing has changed in the core, or the label is there and only a part of this is done; either way legal steps led there,
/// and the plan is the same. Nothing is said of the antichain then.
pub fn admit(
    alloc: Global,
    core: &mut Core<'_>,
    antichain: &mut Antichain,
    label: Label,
) -> Result<Option<Id>, AllocError>
    requires can { Can core.old (InsertLabel label.end label.path.items) }
    requires label { IsLabelOf (face_of core.old.instance core.old.cut label.end) label }
    requires room { count_of core.old.state < MAX_CORE_LABELS }
    requires antichain { IsAntichainAt core.old label.end (last_of label.path.items) (length (labels_in core.old.state label.end (bucket_of label.path.items))) antichain.old.members }
    ensures run { (budget : ℕ) → InsertsWithCare budget core.old label.end label.path.items → GoesCarefully budget core.old core.new }
    ensures admits { OnOk result (Admits core.old core.new label.end label.path.items) }
    ensures antichain { OnOk result (IsAntichainAt core.new label.end (last_of label.path.items) (length (labels_in core.new.state label.end (bucket_of label.path.items))) antichain.new.members) }
    ensures plan { core.new.state.incumbent ≡ core.old.state.incumbent }
    ensures lives { IfOk result (NamesIfLive core.new.state (new_id core.old.state label.end label.path.items)) }
    ensures cut { bound (facing core.old.instance label.end) label.path.items ≤ gain_of core.old.instance core.old.state.incumbent
        → OnOk result (state_of core.new.state (new_id core.old.state label.end label.path.items) ≡ Cut) }
    ensures refused { OnErr result ((core.new ≡ core.old) ⊎ Admits core.old core.new label.end label.path.items) }
{
    let outline = outline_of(core.side(label.end()), &brief(&label));
    // For its clause: legal steps led here.
    let _ = core.gain();
    let id = core.insert(&label)?;
    let name = weigh(alloc, core, antichain, id, outline)?;
    Ok(name)
}
