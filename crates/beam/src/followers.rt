//! What can come directly after a directed strip, by its start.

ghost use Rattle.std.specs.Prelude.{◌<◌, length};
ghost use Rattle.strip_model.specs.Directed.{strip_of};

use std::alloc::{AllocError, Global};
use strip_model::{Directed, Instance};
use strip_set::DirectedSet;

/// What can come directly after each directed strip, by its start, so that a search looks it up.
#[derive(Drop)]
pub(crate) struct Followers {
    rows: Vec<Row>,
}

// What can come after one directed strip: its deadlines, the earliest first.
#[derive(Drop)]
struct Row {
    untils: Vec<Until>,
}

// Before this start, in ticks, all of these directed strips can still come directly after.
#[derive(Clone, Copy)]
struct Until {
    before: u64,
    followers: DirectedSet,
}

impl Followers {
    /// Those of an instance. It fails for want of memory alone.
    pub(crate) fn new(alloc: Global, instance: &Instance) -> Result<Followers, AllocError> {
        let count = instance.strips().len();
        let mut rows = Vec::with_capacity(alloc, 2 * count)?;
        for strip in 0..count {
            for direction in 0..2u16 {
                rows.push(row_of(alloc, instance, Directed::of(strip as u16, direction))?)?;
            }
        }
        Ok(Followers { rows })
    }

    /// The directed strips that can start in their windows directly after an acquisition of `x` at this start, in ticks, but
    /// not those of the strip of `x`.
    pub(crate) fn after(&self, start: u64, x: Directed) -> DirectedSet {
        match self.rows.get(usize::from(x.0)) {
            Some(row) => row.after(start),
            None => DirectedSet::empty(),
        }
    }
}

impl Row {
    // What can still come after a start, in ticks.
    fn after(&self, start: u64) -> DirectedSet {
        let passed = self.untils.partition_point(|until| until.before <= start);
        match self.untils.get(passed) {
            Some(until) => until.followers,
            None => DirectedSet::empty(),
        }
    }
}

// A directed strip, and the start before which it can still come, in ticks.
#[derive(Clone, Copy, PartialEq, Eq, PartialOrd, Ord)]
struct Follower {
    before: u64,
    at: Directed,
}

// What can come after `x`.
fn row_of(alloc: Global, instance: &Instance, x: Directed) -> Result<Row, AllocError>
    requires { strip_of x < length instance.now.strips }
{
    let followers = followers_of(alloc, instance, x)?;
    let mut untils = Vec::with_capacity(alloc, followers.len())?;
    let mut later = DirectedSet::empty();
    for follower in followers.iter().rev() {
        later = with_follower(instance, later, follower.at);
        untils.push(Until {
            before: follower.before,
            followers: later,
        })?;
    }
    untils.reverse();
    Ok(Row { untils })
}

// The set with a directed strip, if that exists.
fn with_follower(instance: &Instance, set: DirectedSet, x: Directed) -> DirectedSet {
    if usize::from(x.strip()) < instance.strips().len() {
        set.with(x.0)
    } else {
        set
    }
}

// Each directed strip of another strip that can come after `x` at all, that of the earliest deadline first.
fn followers_of(
    alloc: Global,
    instance: &Instance,
    x: Directed,
) -> Result<Vec<Follower>, AllocError>
    requires { strip_of x < length instance.now.strips }
{
    let count = instance.strips().len();
    let mut followers = Vec::with_capacity(alloc, 2 * count)?;
    for strip in 0..count {
        for direction in 0..2u16 {
            let at = Directed::of(strip as u16, direction);
            let before = deadline(instance, x, at);
            if before > 0 && at.strip() != x.strip() {
                followers.push(Follower { before, at })?;
            }
        }
    }
    followers.sort()?;
    Ok(followers)
}

// One more than the latest start of `x` after which `y` can still begin in its window, in ticks; 0 where there is none.
fn deadline(instance: &Instance, x: Directed, y: Directed) -> u64
    requires from { strip_of x < length instance.now.strips }
    requires to { strip_of y < length instance.now.strips }
{
    let window = instance.window(y);
    if window.early > window.late {
        return 0;
    }
    (u64::from(window.late) + 1).saturating_sub(instance.ready_after(0, x, y))
}
