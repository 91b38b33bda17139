//! What a new label does to the antichain that it enters.

ghost use Rattle.std.specs.Prelude.{◌≡◌, ◌≤◌, List, OnOk, OnErr, IfOk};
ghost use Rattle.admission.specs.Antichains.{IsAntichainAt};
ghost use Rattle.admission.specs.Contests.{last_at, beside, HasContended, NamesIfLive, Thins};
ghost use Rattle.antichain.specs.Antichains.{NoneDominates, IsDominator};
ghost use Rattle.label.specs.Outlines.{IsOutlineOf};
ghost use Rattle.label_core.specs.CoreState.{path_of, state_of, IsLiveAt};
ghost use Rattle.label_core.specs.Machine.{IsReached};
ghost use Rattle.label_list.specs.declared.state.State.TheVariants.{Cut};
ghost use Rattle.strip_model.specs.Plan.{gain_of};
ghost use Rattle.strip_model.specs.Reach.{bound};
ghost use Rattle.strip_model.specs.Side.{facing, face_of};

use crate::clearing::retire_all;
use antichain::{Antichain, Member};
use bucket::Id;
use label::Outline;
use label_core::Core;
use std::alloc::{AllocError, Global};

// A live label, of which this is the outline, enters the antichain of its last directed strip, where all labels stand that come
// before it in its bucket: it is cut if its bound is at most the incumbent's gain; it is retired if a member dominates it; else
// it retires those that it dominates, and joins the others. The answer is its name if it lives then. It fails for want of memory
// alone; some members are retired then.
pub(crate) fn weigh(
    alloc: Global,
    core: &mut Core<'_>,
    antichain: &mut Antichain,
    id: Id,
    outline: Outline,
) -> Result<Option<Id>, AllocError>
    requires live { IsLiveAt core.old.state id }
    requires outline { IsOutlineOf (face_of core.old.instance core.old.cut id.end) outline (path_of core.old.state id) }
    requires antichain { IsAntichainAt core.old id.end (last_at core.old id) id.index antichain.old.members }
    ensures contended { OnOk result (HasContended core.old core.new id antichain.new.members) }
    ensures lives { IfOk result (NamesIfLive core.new.state id) }
    ensures cut { bound (facing core.old.instance id.end) (path_of core.old.state id) ≤ gain_of core.old.instance core.old.state.incumbent
        → OnOk result (state_of core.new.state id ≡ Cut) }
    ensures refused { OnErr result (Thins core.old core.new id.end (last_at core.old id)) }
{
    if outline.bound <= core.gain() {
        core.cut(id)?;
        return Ok(None);
    }
    match antichain.dominator(core.side(id.end), &outline) {
        Some(by) => {
            retire_new(core, id, by)?;
            Ok(None)
        }
        None => {
            join(alloc, core, antichain, id, outline)?;
            Ok(Some(id))
        }
    }
}

// The label is retired by the member with this id, which dominates it. Want of memory changes nothing.
fn retire_new(core: &mut Core<'_>, id: Id, by: u32) -> Result<(), AllocError>
    requires reached { IsReached core.old }
    requires live { IsLiveAt core.old.state id }
    requires dominator { (members : List Member) × IsAntichainAt core.old id.end (last_at core.old id) id.index members
        × IsDominator (facing core.old.instance id.end) (λ k. path_of core.old.state (beside core.old id k)) members (path_of core.old.state id) by }
    ensures contended { OnOk result ((members : List Member) → IsAntichainAt core.old id.end (last_at core.old id) id.index members → HasContended core.old core.new id members) }
    ensures dead { OnOk result (¬ IsLiveAt core.new.state id) }
    ensures unchanged { OnErr result (core.new ≡ core.old) }
{
    core.retire(
        id,
        Id {
            end: id.end,
            bucket: id.bucket,
            index: by,
        },
    )
}

// The label, which no member dominates, retires those that it dominates and joins the others. It fails for want of memory alone;
// some are retired then.
fn join(
    alloc: Global,
    core: &mut Core<'_>,
    antichain: &mut Antichain,
    id: Id,
    outline: Outline,
) -> Result<(), AllocError>
    requires reached { IsReached core.old }
    requires live { IsLiveAt core.old.state id }
    requires outline { IsOutlineOf (face_of core.old.instance core.old.cut id.end) outline (path_of core.old.state id) }
    requires antichain { IsAntichainAt core.old id.end (last_at core.old id) id.index antichain.old.members }
    requires unbeaten { NoneDominates (facing core.old.instance id.end) (λ k. path_of core.old.state (beside core.old id k)) antichain.old.members
        (path_of core.old.state id) }
    ensures contended { OnOk result (HasContended core.old core.new id antichain.new.members) }
    ensures lives { OnOk result (IsLiveAt core.new.state id) }
    ensures refused { OnErr result (Thins core.old core.new id.end (last_at core.old id)) }
{
    let mut beaten = Vec::new(alloc);
    beaten.reserve(antichain.len())?;
    antichain.reserve()?;
    antichain.take_beaten(core.side(id.end), &outline, &mut beaten);
    retire_all(core, &beaten, id)?;
    antichain.insert(Member {
        id: id.index,
        outline,
    });
    Ok(())
}
