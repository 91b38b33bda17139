//! Steps of a core, behind their tests.

ghost use Rattle.std.specs.Prelude.{◌≡◌, ◌<◌, ◌≤◌, ◌↔◌, ◌++◌, [], reverse, Some, MatchOption, IsTrue, IfOk, IsSome};
ghost use Rattle.label_list.specs.declared.state.State.TheVariants.{Waiting};
ghost use Rattle.label_core.specs.CoreState.{path_of, IsThere};
ghost use Rattle.label_core.specs.Events.{InsertLabel, TakeLabel, RetireLabel, CutLabel, Publish, JoinLabels, MayJoin, joining_path};
ghost use Rattle.label_core.specs.Machine.{Can, count_of};
ghost use Rattle.label_core.specs.StepAnswers.{event_of, HasRoomFor, IsStepAnswer};
ghost use Rattle.label_core.specs.declared.limits.TheConstants.{MAX_CORE_LABELS};
ghost use Rattle.strip_model.specs.Plan.{gain_of};
ghost use Rattle.strip_model.specs.Join.{joined_plan, Joins};
ghost use Rattle.strip_model.specs.declared.end.End.TheVariants.{Forward, Backward};

use crate::names::{are_same, is_same_end};
use crate::{Core, Event, StepRefusal};
use bucket::{Id, State};
use label::{bound_of, brief_dominates, restore};
use plan_check::{earliest, judge};
use std::alloc::AllocError;
use strip_model::{Acquisition, Directed, End};

/// Makes the step of an event. `Illegal` exactly where the event has no step; then, and where memory is wanting, the core stays
/// as it was. Where the event is an `Insert`, the core has fewer than `MAX_CORE_LABELS` labels.
pub fn step(core: &mut Core<'_>, event: Event) -> Result<(), StepRefusal>
    requires room { HasRoomFor core.old event }
    ensures answer { IsStepAnswer core.old core.new (event_of event) result }
{
    match event {
        Event::Insert { end, path } => insert(core, end, &path),
        Event::Take { id } => take(core, id),
        Event::Retire { id, by } => retire(core, id, by),
        Event::Cut { id } => cut(core, id),
        Event::Publish { plan } => publish(core, plan),
        Event::Join { forward, backward } => join(core, forward, backward),
    }
}

// A new label.
fn insert(core: &mut Core<'_>, end: End, path: &[Directed]) -> Result<(), StepRefusal>
    requires room { count_of core.old.state < MAX_CORE_LABELS }
    ensures { IsStepAnswer core.old core.new (InsertLabel end path.now) result }
{
    let Some(label) = restore(core.alloc(), core.side(end), path)? else {
        return Err(StepRefusal::Illegal);
    };
    if core.is_listed(&label) {
        return Err(StepRefusal::Illegal);
    }
    core.insert(&label)?;
    Ok(())
}

// A label is taken.
fn take(core: &mut Core<'_>, id: Id) -> Result<(), StepRefusal>
    ensures { IsStepAnswer core.old core.new (TakeLabel id) result }
{
    if !may_take(core, id) {
        return Err(StepRefusal::Illegal);
    }
    core.take(id);
    Ok(())
}

// Whether there is a label of this name that waits.
fn may_take(core: &Core<'_>, id: Id) -> bool
    ensures { IsTrue result ↔ Can core.now (TakeLabel id) }
{
    if !core.is_there(id) {
        return false;
    }
    waits(core.state_of(id))
}

// Whether a label in this state waits.
fn waits(state: State) -> bool
    ensures { IsTrue result ↔ (state ≡ Waiting) }
{
    matches!(state, State::Waiting)
}

// A label is retired by another.
fn retire(core: &mut Core<'_>, id: Id, by: Id) -> Result<(), StepRefusal>
    ensures { IsStepAnswer core.old core.new (RetireLabel id by) result }
{
    if !may_retire(core, id, by) {
        return Err(StepRefusal::Illegal);
    }
    core.retire(id, by)?;
    Ok(())
}

// Whether a live label may be retired by another.
fn may_retire(core: &Core<'_>, id: Id, by: Id) -> bool
    ensures { IsTrue result ↔ Can core.now (RetireLabel id by) }
{
    if !core.is_live(id) {
        return false;
    }
    if !core.is_live(by) {
        return false;
    }
    if !is_same_end(by.end, id.end) {
        return false;
    }
    if are_same(id, by) {
        return false;
    }
    brief_dominates(core.side(id.end), &core.brief(by), &core.brief(id))
}

// A label is cut.
fn cut(core: &mut Core<'_>, id: Id) -> Result<(), StepRefusal>
    ensures { IsStepAnswer core.old core.new (CutLabel id) result }
{
    if !may_cut(core, id) {
        return Err(StepRefusal::Illegal);
    }
    core.cut(id)?;
    Ok(())
}

// Whether a live label's bound is at most the incumbent's gain.
fn may_cut(core: &Core<'_>, id: Id) -> bool
    ensures { IsTrue result ↔ Can core.now (CutLabel id) }
{
    if !core.is_live(id) {
        return false;
    }
    bound_of(core.side(id.end), &core.brief(id)) <= core.gain()
}

// A plan becomes the incumbent.
fn publish(core: &mut Core<'_>, plan: Vec<Acquisition>) -> Result<(), StepRefusal>
    ensures { IsStepAnswer core.old core.new (Publish plan.items) result }
{
    match gain_to_publish(core, &plan) {
        None => Err(StepRefusal::Illegal),
        Some(gain) => {
            core.publish(plan, gain);
            Ok(())
        }
    }
}

// The gain of a plan that may be published, in twentieths.
fn gain_to_publish(core: &Core<'_>, plan: &[Acquisition]) -> Option<u64>
    ensures { MatchOption result (¬ Can core.now (Publish plan.now)) (λ gain. Can core.now (Publish plan.now) × (gain ≡ gain_of core.now.instance plan.now)) }
{
    match judge(core.instance(), plan) {
        Err(_) => None,
        Ok(gain) => {
            if gain.0 < core.gain() {
                None
            } else {
                Some(gain.0)
            }
        }
    }
}

// The plan of two labels or roots becomes the incumbent.
fn join(core: &mut Core<'_>, forward: Option<Id>, backward: Option<Id>) -> Result<(), StepRefusal>
    ensures { IsStepAnswer core.old core.new (JoinLabels forward backward) result }
{
    if !may_join(core, End::Forward, forward) {
        return Err(StepRefusal::Illegal);
    }
    if !may_join(core, End::Backward, backward) {
        return Err(StepRefusal::Illegal);
    }
    let Some(plan) = plan_of(core, forward, backward)? else {
        return Err(StepRefusal::Illegal);
    };
    match gain_to_publish(core, &plan) {
        None => Err(StepRefusal::Illegal),
        Some(gain) => {
            core.join(forward, backward, plan, gain);
            Ok(())
        }
    }
}

// Whether there is no name, or a live label of this side has it.
fn may_join(core: &Core<'_>, end: End, id: Option<Id>) -> bool
    ensures { IsTrue result ↔ MayJoin core.now.state end id }
{
    match id {
        None => true,
        Some(id) => is_same_end(id.end, end) && core.is_live(id),
    }
}

// The plan of a forward label or root and a backward one, and None where its starts aren't in time.
fn plan_of(
    core: &Core<'_>,
    forward: Option<Id>,
    backward: Option<Id>,
) -> Result<Option<Vec<Acquisition>>, AllocError>
    requires forward { MayJoin core.now.state Forward forward }
    requires backward { MayJoin core.now.state Backward backward }
    ensures { IfOk result (λ o. MatchOption o
        (¬ Joins core.now.instance (joining_path core.now.state forward) (joining_path core.now.state backward))
        (λ plan. plan.items ≡ joined_plan core.now.instance (joining_path core.now.state forward) (joining_path core.now.state backward))) }
{
    let alloc = core.alloc();
    let mut order = Vec::from_slice(alloc, joining_path(core, End::Forward, forward))?;
    let mut back = Vec::from_slice(alloc, joining_path(core, End::Backward, backward))?;
    back.reverse();
    order.extend_from_slice(&back)?;
    earliest(alloc, core.instance(), &order)
}

// The path of a label, or of the root where there is no name.
fn joining_path<'c>(core: &'c Core<'_>, end: End, id: Option<Id>) -> &'c [Directed]
    requires { MayJoin core.now.state end id }
    ensures { result.now ≡ joining_path core.entry.now.state id }
{
    match id {
        None => &[],
        Some(id) => core.path_of(id),
    }
}
