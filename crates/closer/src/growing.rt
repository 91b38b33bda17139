//! The extension of a root or a label by all directed strips.

ghost use Rattle.std.specs.Prelude.{ℕ, ◌≡◌, ◌+◌, ◌*◌, ◌<◌, ◌≤◌, ◌∷◌, ◌++◌, [], true, false, length, Option, OnOk, IfOk, IfSome};
ghost use Rattle.bucket.specs.declared.limits.TheConstants.{BUCKETS};
ghost use Rattle.closer.specs.Finishing.{IsOpen};
ghost use Rattle.admission.specs.Contests.{NamesIfLive};
ghost use Rattle.closer.specs.NewWaits.{WaitsIfLive};
ghost use Rattle.closer.specs.Searching.{IsExtending, IsParent, Names, end_of, path_in, left_to_do};
ghost use Rattle.label.specs.Labels.{IsLabelOf};
ghost use Rattle.label_core.specs.CoreState.{CoreState, IsListed};
ghost use Rattle.label_core.specs.Events.{InsertLabel};
ghost use Rattle.label_core.specs.Machine.{Can, count_of, new_id};
ghost use Rattle.label_core.specs.declared.limits.TheConstants.{MAX_CORE_LABELS};
ghost use Rattle.admission.specs.CarefulRuns.{InsertsWithCare, GoesCarefully};
ghost use Rattle.admission.specs.Antichains.{HasAntichains, Admits, members_of};
ghost use Rattle.strip_model.specs.Side.{face_of};
ghost use Rattle.strip_model.specs.declared.end.End.TheVariants.{Forward, Backward};

use crate::agenda::Agenda;
use crate::extension::{extension, parent_of};
use crate::queue::Queue;
use crate::wait::Wait;
use admission::admit;
use antichain::Antichain;
use bucket::Id;
use label::{Label, Side};
use label_core::Core;
use std::alloc::{AllocError, Global};
use strip_model::{Directed, End};

/// Extends a root or live label by each directed strip that makes a label path with it, unless the list has that path already.
/// True says that it is whole; false, that there was no room for one that is missing. It fails for want of memory alone.
pub(crate) fn extend_whole(
    alloc: Global,
    core: &mut Core<'_>,
    agenda: &mut Agenda,
    now: Wait,
    budget: u64,
) -> Result<bool, AllocError>
    requires extending { IsExtending core.old agenda.old now 0 }
    requires budget { budget ≤ MAX_CORE_LABELS }
    ensures run { OnOk result (GoesCarefully budget core.old core.new) }
    ensures whole { IfOk result (λ whole. whole ≡ true → IsExtending core.new agenda.new now (2 * length core.old.instance.strips)) }
    ensures open { IfOk result (λ whole. whole ≡ false → IsExtending core.new agenda.new now 0 × IsOpen core.new × (budget ≤ count_of core.new.state)) }
    ensures work { OnOk result (left_to_do budget core.new agenda.new ≤ left_to_do budget core.old agenda.old) }
    ensures still { OnOk result (budget ≤ count_of core.old.state → core.new ≡ core.old) }
{
    let parent = parent_of(core, now)?;
    let count = 2 * core.instance().strips().len() as u16;
    for y in 0..count {
        if !extend_by(alloc, core, agenda, now, &parent, Directed(y), budget)? {
            return Ok(false);
        }
    }
    Ok(true)
}

// Extends it by one directed strip, where the label itself is at hand, if it is none of the roots. False says that this makes a label path that is not in the list, and that there was no
// room for it.
fn extend_by(
    alloc: Global,
    core: &mut Core<'_>,
    agenda: &mut Agenda,
    now: Wait,
    parent: &Option<Label>,
    y: Directed,
    budget: u64,
) -> Result<bool, AllocError>
    requires extending { IsExtending core.old agenda.old now y }
    requires parent { IsParent core.old now parent.now }
    requires exists { y < 2 * length core.old.instance.strips }
    requires budget { budget ≤ MAX_CORE_LABELS }
    ensures run { OnOk result (GoesCarefully budget core.old core.new) }
    ensures more { IfOk result (λ more. more ≡ true → IsExtending core.new agenda.new now (y + 1)) }
    ensures parent { OnOk result (IsParent core.new now parent.now) }
    ensures open { IfOk result (λ more. more ≡ false → IsExtending core.new agenda.new now y × IsOpen core.new × (budget ≤ count_of core.new.state)) }
    ensures work { OnOk result (left_to_do budget core.new agenda.new ≤ left_to_do budget core.old agenda.old) }
    ensures still { OnOk result (budget ≤ count_of core.old.state → core.new ≡ core.old) }
{
    let Some(label) = extension(alloc, core, now, parent, y)? else {
        return Ok(true);
    };
    if core.is_listed(&label) {
        return Ok(true);
    }
    if !core.has_room(budget) {
        return Ok(false);
    }
    enter(alloc, core, agenda, label)?;
    Ok(true)
}

// A new label enters the core and its antichain, and waits if it lives.
fn enter(
    alloc: Global,
    core: &mut Core<'_>,
    agenda: &mut Agenda,
    label: Label,
) -> Result<(), AllocError>
    requires extending { (now : Wait) × (y : ℕ) × IsExtending core.old agenda.old now y × (label.path.items ≡ path_in core.old now ++ y ∷ [])
        × IsLabelOf (face_of core.old.instance core.old.cut (end_of now)) label }
    requires new { ¬ IsListed core.old.state label.end label.path.items }
    requires room { count_of core.old.state < MAX_CORE_LABELS }
    ensures run { OnOk result ((budget : ℕ) → count_of core.old.state < budget → GoesCarefully budget core.old core.new) }
    ensures extending { OnOk result ((now : Wait) (y : ℕ) → IsExtending core.old agenda.old now y → label.path.items ≡ path_in core.old now ++ y ∷ []
        → IsLabelOf (face_of core.old.instance core.old.cut (end_of now)) label → IsExtending core.new agenda.new now (y + 1)) }
    ensures parents { OnOk result ((now : Wait) (parent : Option Label) → Names core.old now → IsParent core.old now parent → IsParent core.new now parent) }
    ensures count { OnOk result (count_of core.new.state ≡ count_of core.old.state + 1) }
    ensures queue { OnOk result (length agenda.new.queue ≤ length agenda.old.queue + 1) }
{
    let rank = waiting_rank(core.side(label.end()), &label);
    let id = settle(alloc, core, agenda, label)?;
    // For its clause: legal steps led here.
    let _ = core.gain();
    wait_for(&mut agenda.queue, id, rank)?;
    Ok(())
}

// The rank with which a label waits: its last start, in ticks from its side's end, and 1.
fn waiting_rank(side: &Side, label: &Label) -> u32
    requires { IsLabelOf side.now label.now }
    ensures { result ≡ label.now.start + 1 }
{
    // Its last start is within the greatest horizon.
    let _ = side.end();
    label.start_of_last() + 1
}

// A new label enters the core, and its antichain among those of both sides. The answer is its name if it lives then.
fn settle(
    alloc: Global,
    core: &mut Core<'_>,
    agenda: &mut Agenda,
    label: Label,
) -> Result<Option<Id>, AllocError>
    requires can { Can core.old (InsertLabel label.end label.path.items) }
    requires label { IsLabelOf (face_of core.old.instance core.old.cut label.end) label }
    requires room { count_of core.old.state < MAX_CORE_LABELS }
    requires forward { HasAntichains core.old Forward (members_of agenda.old.forward.items) }
    requires backward { HasAntichains core.old Backward (members_of agenda.old.backward.items) }
    ensures run { OnOk result ((budget : ℕ) → InsertsWithCare budget core.old label.end label.path.items → GoesCarefully budget core.old core.new) }
    ensures admits { OnOk result (Admits core.old core.new label.end label.path.items) }
    ensures forward { OnOk result (HasAntichains core.new Forward (members_of agenda.new.forward.items)) }
    ensures backward { OnOk result (HasAntichains core.new Backward (members_of agenda.new.backward.items)) }
    ensures queue { OnOk result (agenda.new.queue ≡ agenda.old.queue) }
    ensures lives { IfOk result (NamesIfLive core.new.state (new_id core.old.state label.end label.path.items)) }
{
    match label.end() {
        End::Forward => settle_among(alloc, core, &mut agenda.forward, label),
        End::Backward => settle_among(alloc, core, &mut agenda.backward, label),
    }
}

// A new label enters the core, and its antichain among those of its side.
fn settle_among(
    alloc: Global,
    core: &mut Core<'_>,
    antichains: &mut Vec<Antichain>,
    label: Label,
) -> Result<Option<Id>, AllocError>
    requires can { Can core.old (InsertLabel label.end label.path.items) }
    requires label { IsLabelOf (face_of core.old.instance core.old.cut label.end) label }
    requires room { count_of core.old.state < MAX_CORE_LABELS }
    requires antichains { HasAntichains core.old label.end (members_of antichains.old.items) }
    ensures run { OnOk result ((budget : ℕ) → InsertsWithCare budget core.old label.end label.path.items → GoesCarefully budget core.old core.new) }
    ensures admits { OnOk result (Admits core.old core.new label.end label.path.items) }
    ensures antichains { OnOk result (HasAntichains core.new label.end (members_of antichains.new.items)) }
    ensures lives { IfOk result (NamesIfLive core.new.state (new_id core.old.state label.end label.path.items)) }
{
    let last = usize::from(label.last().0);
    let id = admit(alloc, core, &mut antichains[last], label)?;
    Ok(id)
}

// A label waits with this rank, if there is a name.
fn wait_for(queue: &mut Queue, id: Option<Id>, rank: u32) -> Result<(), AllocError>
    requires { IfSome id (λ id. id.bucket < BUCKETS) }
    ensures { OnOk result ((s : CoreState) (new : Id) → NamesIfLive s new id → WaitsIfLive s new rank queue.old queue.new) }
{
    match id {
        None => Ok(()),
        Some(id) => queue.push(Wait::label(id, rank)),
    }
}
