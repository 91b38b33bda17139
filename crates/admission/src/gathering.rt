//! The antichains of the labels that a core has already.

ghost use Rattle.std.specs.Prelude.{ℕ, ◌≡◌, ◌+◌, ◌<◌, [], length, get_or, OnOk, IfOk};
ghost use Rattle.admission.specs.Antichains.{HasAntichains, members_of};
ghost use Rattle.admission.specs.Gathering.{Gathers, HasAntichainsUpTo};
ghost use Rattle.bucket.specs.declared.limits.TheConstants.{BUCKETS};
ghost use Rattle.label_core.specs.CoreState.{IsThere};

use crate::contests::weigh;
use antichain::Antichain;
use bucket::{BUCKETS, Id};
use label::outline_of;
use label_core::Core;
use std::alloc::{AllocError, Global};
use strip_model::End;

/// The antichains of a side, by directed strip: each live label of the side enters that of its last directed strip as a new
/// label would. So those are cut whose bound is at most the incumbent's gain, and those are retired that another dominates.
/// It fails for want of memory alone; some of them are cut and retired then, and no others.
pub fn gather(alloc: Global, core: &mut Core<'_>, end: End) -> Result<Vec<Antichain>, AllocError>
    ensures gathers { Gathers core.old core.new end }
    ensures antichains { IfOk result (λ antichains. HasAntichains core.new end (members_of antichains.items)) }
{
    let strips = core.instance().strips();
    let mut antichains = empty_antichains(alloc, 2 * strips.len())?;
    for number in 0..BUCKETS as u8 {
        gather_bucket(alloc, core, &mut antichains, end, number)?;
    }
    Ok(antichains)
}

// So many antichains without members.
fn empty_antichains(alloc: Global, count: usize) -> Result<Vec<Antichain>, AllocError>
    ensures { IfOk result (λ antichains. (length antichains.items ≡ count) × ((x : ℕ) → get_or (members_of antichains.items) x [] ≡ [])) }
{
    let mut antichains = Vec::with_capacity(alloc, count)?;
    for _ in 0..count {
        antichains.push(Antichain::empty(alloc))?;
    }
    Ok(antichains)
}

// The labels of one bucket enter the antichains, which have those of the buckets before it.
fn gather_bucket(
    alloc: Global,
    core: &mut Core<'_>,
    antichains: &mut Vec<Antichain>,
    end: End,
    number: u8,
) -> Result<(), AllocError>
    requires number { number < BUCKETS }
    requires antichains { HasAntichainsUpTo core.old end number 0 (members_of antichains.old.items) }
    ensures gathers { Gathers core.old core.new end }
    ensures antichains { OnOk result (HasAntichainsUpTo core.new end (number + 1) 0 (members_of antichains.new.items)) }
{
    for index in 0..core.count(end, number) {
        let id = Id {
            end,
            bucket: number,
            index,
        };
        gather_label(alloc, core, antichains, id)?;
    }
    Ok(())
}

// A label enters its antichain, if it lives.
fn gather_label(
    alloc: Global,
    core: &mut Core<'_>,
    antichains: &mut Vec<Antichain>,
    id: Id,
) -> Result<(), AllocError>
    requires there { IsThere core.old.state id }
    requires antichains { HasAntichainsUpTo core.old id.end id.bucket id.index (members_of antichains.old.items) }
    ensures gathers { Gathers core.old core.new id.end }
    ensures antichains { OnOk result (HasAntichainsUpTo core.new id.end id.bucket (id.index + 1) (members_of antichains.new.items)) }
{
    if !core.is_live(id) {
        return Ok(());
    }
    // For its clause: legal steps led here.
    let _ = core.gain();
    let outline = outline_of(core.side(id.end), &core.brief(id));
    let last = usize::from(outline.last.0);
    weigh(alloc, core, &mut antichains[last], id, outline)?;
    Ok(())
}
