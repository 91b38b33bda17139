//! How a search begins.

ghost use Rattle.std.specs.Prelude.{◌≡◌, ◌≢◌, ◌<◌, ◌%◌, List, ℕ, length, All, OnOk, IfOk};
ghost use Rattle.bucket.specs.declared.limits.TheConstants.{BUCKETS};
ghost use Rattle.closer.specs.MoreWaits.{AddsWaits};
ghost use Rattle.closer.specs.Searching.{IsSearching, IsTodo, Names, end_of, path_in};
ghost use Rattle.label_core.specs.CoreState.{labels_in, path_of, IsLivePath, IsThere};
ghost use Rattle.label_core.specs.Machine.{IsReached};
ghost use Rattle.admission.specs.CarefulRuns.{GoesQuietly};
ghost use Rattle.admission.specs.Antichains.{id_at, HasAntichains, IsAntichainAt, members_of};

use crate::agenda::Agenda;
use crate::queue::Queue;
use crate::wait::Wait;
use admission::gather;
use antichain::Antichain;
use bucket::{BUCKETS, Id};
use label_core::Core;
use std::alloc::{AllocError, Global};
use strip_model::End;

/// Brings a core in order, and tells what is to do: labels whose bound is at most the incumbent's gain are cut, labels that
/// others dominate are retired, and each root and each label that still lives waits. It fails for want of memory alone.
pub(crate) fn agenda_of(alloc: Global, core: &mut Core<'_>) -> Result<Agenda, AllocError>
    ensures quiet { OnOk result (GoesQuietly core.old core.new) }
    ensures searching { IfOk result (IsSearching core.new) }
    ensures plan { OnOk result (core.new.state.incumbent ≡ core.old.state.incumbent) }
{
    let forward = gather(alloc, core, End::Forward)?;
    let backward = gather(alloc, core, End::Backward)?;
    let mut queue = Queue::new(alloc);
    wait_side(core, &mut queue, End::Forward, &forward)?;
    wait_side(core, &mut queue, End::Backward, &backward)?;
    Ok(Agenda {
        forward,
        backward,
        queue,
    })
}

// The root of a side waits, and so do the labels of its antichains, which are all that live.
fn wait_side(
    core: &Core<'_>,
    queue: &mut Queue,
    end: End,
    antichains: &[Antichain],
) -> Result<(), AllocError>
    requires { HasAntichains core.now end (members_of antichains.now) }
    ensures adds { OnOk result (AddsWaits core.now queue.old queue.new) }
    ensures waits { OnOk result ((path : List ℕ) → IsLivePath core.now.state end path → IsTodo core.now queue.new end path) }
    ensures reached { OnOk result (IsReached core.now) }
{
    // What legal steps reach has each label in the bucket of its last directed strip.
    let _ = core.gain();
    queue.push(Wait::root(end))?;
    for x in 0..antichains.len() {
        wait_antichain(core, queue, end, x, &antichains[x])?;
    }
    Ok(())
}

// The labels of the antichain of a directed strip wait.
fn wait_antichain(
    core: &Core<'_>,
    queue: &mut Queue,
    end: End,
    x: usize,
    antichain: &Antichain,
) -> Result<(), AllocError>
    requires { IsAntichainAt core.now end x (length (labels_in core.now.state end (x % BUCKETS))) antichain.now.members }
    ensures adds { OnOk result (AddsWaits core.now queue.old queue.new) }
    ensures waits { OnOk result (All (λ a. IsTodo core.now queue.new end (path_of core.now.state (id_at end x a.id))) antichain.now.members) }
{
    let bucket = (x % usize::from(BUCKETS)) as u8;
    for member in antichain.members() {
        let id = Id {
            end,
            bucket,
            index: member.id,
        };
        queue.push(wait_of(core, id))?;
    }
    Ok(())
}

// A label as it waits: by its name and its last start.
fn wait_of(core: &Core<'_>, id: Id) -> Wait
    requires there { IsThere core.now.state id }
    requires bucket { id.bucket < BUCKETS }
    ensures names { Names core.now result }
    ensures end { end_of result ≡ id.end }
    ensures path { path_in core.now result ≡ path_of core.now.state id }
{
    // Its last start is within the greatest horizon.
    let _ = core.side(id.end).end();
    Wait::label(id, core.brief(id).start + 1)
}
