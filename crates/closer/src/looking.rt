//! The look at all that waits, for what is extended by all already.

ghost use Rattle.std.specs.Prelude.{ℕ, ◌≡◌, ◌*◌, ◌<◌, ◌≤◌, true, false, length, slice_index_or, All, IfOk, OnOk, MatchBool};
ghost use Rattle.closer.specs.Looking.{AreLeft, AreNamed, IsExtendedBy, IsLooked, Lacks, Narrows, first_looks};
ghost use Rattle.closer.specs.Searching.{IsParent, Names, end_of, path_in};
ghost use Rattle.closer.specs.Waiting.{Joins};
ghost use Rattle.admission.specs.CarefulRuns.{IsExtended};

use crate::extension::{extension, parent_of};
use crate::queue::Queue;
use crate::wait::Wait;
use label::Label;
use label_core::Core;
use std::alloc::{AllocError, Global};
use std::cmp::Reverse;
use std::thread::{Threads, for_each_mut};
use strip_model::Directed;

/// Takes out of the queue what is extended by all already. As many workers as are given, 1 or more, look each at a part of what
/// waits, in a thread of its own where one can be started. It fails for want of memory alone; a look that wants it leaves what
/// it was at waiting.
pub(crate) fn narrow<R: Threads + Sync>(
    rt: &R,
    alloc: Global,
    core: &Core<'_>,
    queue: &mut Queue,
    workers: u32,
) -> Result<(), AllocError>
    requires some { 1 ≤ workers }
    requires named { AreNamed core.now queue.old }
    ensures { OnOk result (Narrows core.now queue.old queue.new) }
{
    let mut looks = looks_at(alloc, queue.as_slice())?;
    look_at_all(rt, alloc, core, &mut looks, workers as usize);
    *queue = left_of(alloc, &looks)?;
    Ok(())
}

// A look at a root or a label that waits.
#[derive(Clone, Copy)]
struct Look {
    wait: Wait,
    // Whether an extension may be missing in the list: it may until a look finds none.
    may_lack: bool,
}

impl Look {
    // Makes the look. Where memory is wanting it finds nothing.
    fn make(&mut self, alloc: Global, core: &Core<'_>)
        requires { Names core.now self.old.wait }
        ensures { IsLooked core.now self.old self.new }
    {
        match is_extended(alloc, core, self.wait) {
            Ok(true) => self.may_lack = false,
            Ok(false) | Err(_) => self.may_lack = true,
        }
    }
}

// The looks at all of these, before they are made.
fn looks_at(alloc: Global, waits: &[Reverse<Wait>]) -> Result<Vec<Look>, AllocError>
    ensures { IfOk result (λ looks. looks.items ≡ first_looks waits.now) }
{
    waits
        .iter()
        .map(|r| Look {
            wait: r.0,
            may_lack: true,
        })
        .collect(alloc)
}

// Makes all looks, each part of them in a thread of its own where one can be started.
fn look_at_all<R: Threads + Sync>(
    rt: &R,
    alloc: Global,
    core: &Core<'_>,
    looks: &mut Vec<Look>,
    threads: usize,
)
    requires threads { 0 < threads }
    requires named { All (λ l. Names core.now l.wait) looks.old.items }
    ensures len { length looks.new.items ≡ length looks.old.items }
    ensures looked { (k : ℕ) (d : Look) → k < length looks.old.items
        → IsLooked core.now (slice_index_or looks.old.items k d) (slice_index_or looks.new.items k d) }
{
    for_each_mut(
        rt,
        looks.as_mut_slice(),
        threads,
        &|_: usize, look: &mut Look|
            requires { Names core.now look.old.wait }
            ensures { IsLooked core.entry.now look.old look.new }
        { look.make(alloc, core) },
    );
}

// What waits on after these looks.
fn left_of(alloc: Global, looks: &[Look]) -> Result<Queue, AllocError>
    ensures { IfOk result (AreLeft looks.now (length looks.now)) }
{
    let mut queue = Queue::new(alloc);
    for look in looks {
        wait_on(&mut queue, look)?;
    }
    Ok(queue)
}

// What the look was at waits on, where an extension may be missing.
fn wait_on(queue: &mut Queue, look: &Look) -> Result<(), AllocError>
    ensures { OnOk result (MatchBool look.now.may_lack (Joins look.now.wait queue.old queue.new) (queue.new ≡ queue.old)) }
{
    if look.may_lack {
        queue.push(look.wait)?;
    }
    Ok(())
}

/// Whether a root or a label is extended by each directed strip that makes a label path with it: the list has them all. It fails
/// for want of memory alone.
pub(crate) fn is_extended(alloc: Global, core: &Core<'_>, now: Wait) -> Result<bool, AllocError>
    requires { Names core.now now }
    ensures whole { IfOk result (λ whole. whole ≡ true → IsExtended core.now (end_of now) (path_in core.now now)) }
    ensures lacks { IfOk result (λ whole. whole ≡ false → (y : ℕ) × Lacks core.now now y) }
{
    let parent = parent_of(core, now)?;
    let count = 2 * core.instance().strips().len() as u16;
    for y in 0..count {
        if !is_extended_by(alloc, core, now, &parent, Directed(y))? {
            return Ok(false);
        }
    }
    Ok(true)
}

// Whether it is extended by one directed strip, where the label itself is at hand, if it is none of the roots.
fn is_extended_by(
    alloc: Global,
    core: &Core<'_>,
    now: Wait,
    parent: &Option<Label>,
    y: Directed,
) -> Result<bool, AllocError>
    requires parent { IsParent core.now now parent.now }
    requires exists { y < 2 * length core.now.instance.strips }
    ensures whole { IfOk result (λ whole. whole ≡ true → IsExtendedBy core.now now y) }
    ensures lacks { IfOk result (λ whole. whole ≡ false → Lacks core.now now y) }
{
    match extension(alloc, core, now, parent, y)? {
        None => Ok(true),
        Some(label) => Ok(core.is_listed(&label)),
    }
}
