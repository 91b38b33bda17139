//! Partial sequences in a beam.

ghost use Rattle.std.specs.Prelude.{◌<◌, ◌^◌, length};
ghost use Rattle.label.specs.Labels.{IsLabelOf};
ghost use Rattle.strip_model.specs.Directed.{strip_of};

use crate::followers::Followers;
use crate::outlook::{Outlook, bound_without};
use label::{Label, Side, bound_with, extend, gain_of_strips, needs, reach, start};
use std::alloc::{AllocError, Global};
use std::marker::Model;
use strip_model::Directed;
use strip_set::{DirectedSet, StripSet};

/// A label in a beam, with what can still come, and what ranks it. Contracts see its side.
#[derive(Drop)]
pub(crate) struct Candidate<'a> {
    side: &'a Side,
    label: Label,
    // What can come directly after it.
    reach: DirectedSet,
    // What must still come.
    needs: DirectedSet,
    // Its strips and those that can still come: what the bound counts.
    possible: StripSet,
    /// What its strips gain, in twentieths.
    pub(crate) gain: u64,
    /// What they gain at most with all that may still come, in twentieths.
    pub(crate) bound: u64,
}

impl<'a> Model for Candidate<'a> {
    ghost use Rattle.label.specs.Labels.{IsLabelOf};
    ghost use Rattle.strip_model.specs.Side.{Face};

    ghost Value = { Face };

    ghost view = { λ c. c.side.now };

    ghost invariant = { λ c. IsLabelOf c.side.now c.label };
}

impl<'a> Candidate<'a> {
    fn new(side: &'a Side, label: Label) -> Candidate<'a>
        requires { IsLabelOf side.now label }
    {
        let reach = reach(side, &label);
        let needs = needs(side, &label);
        let visited = label.visited().strips();
        let gain = gain_of_strips(side.instance(), visited);
        let bound = bound_with(side, &label, reach);
        Candidate {
            side,
            label,
            reach,
            needs,
            possible: visited.join(reach.strips()),
            gain,
            bound,
        }
    }

    /// The label of one directed strip, if there is such a label of the side. It fails for want of memory alone.
    pub(crate) fn first(
        alloc: Global,
        side: &'a Side,
        x: Directed,
    ) -> Result<Option<Candidate<'a>>, AllocError>
        requires { strip_of x < length side.now.instance.strips }
    {
        match start(alloc, side, x)? {
            None => Ok(None),
            Some(label) => Ok(Some(Candidate::new(side, label))),
        }
    }

    /// The label with one more directed strip, if there is such a label of the side. It fails for want of memory alone.
    pub(crate) fn next(
        &self,
        alloc: Global,
        x: Directed,
    ) -> Result<Option<Candidate<'a>>, AllocError> {
        if usize::from(x.strip()) >= self.side.instance().strips().len() {
            return Ok(None);
        }
        match extend(alloc, self.side, &self.label, x)? {
            None => Ok(None),
            Some(label) => Ok(Some(Candidate::new(self.side, label))),
        }
    }

    /// What one more directed strip makes of it, without the label: when that strip would be acquired, and the bound then,
    /// which need not be exact where it is no more than the floor. None where that strip can't come next, or where a need
    /// would be out of reach.
    pub(crate) fn outlook(
        &self,
        followers: &Followers,
        x: Directed,
        floor: u64,
    ) -> Option<Outlook> {
        let instance = self.side.instance();
        if usize::from(x.strip()) >= instance.strips().len() {
            return None;
        }
        let needs = self.needs_with(x)?;
        let start = instance.arrive_after(self.label.start_of_last(), self.label.last(), x);
        let after = followers.after(start, x);
        if !needs.minus(after).is_empty() {
            return None;
        }
        let visited = self.label.visited().strips().with(x.strip());
        let lost = self.possible.minus(visited).minus(after.strips());
        Some(Outlook {
            start,
            end: start.saturating_add(u64::from(instance.window(x).duration)),
            bound: bound_without(self.side, self.bound, self.possible, lost, floor),
            visited,
        })
    }

    // What must still come once `x` has come, whose strip is new: None where the twin of that strip came in the other direction.
    fn needs_with(&self, x: Directed) -> Option<DirectedSet>
        requires { strip_of x < length self.now.instance.strips }
    {
        let Some(partner) = self.side.instance().partner(x) else {
            return Some(self.needs);
        };
        if self.needs.contains(x.0) {
            Some(self.needs.without(x.0))
        } else if self.label.visited().strips().contains(partner.strip()) {
            None
        } else {
            Some(self.needs.with(partner.0))
        }
    }

    /// What can come directly after it, as directed strips.
    pub(crate) fn reach(&self) -> DirectedSet {
        self.reach
    }

    /// Whether the twin of each of its strips is there.
    pub(crate) fn is_whole(&self) -> bool {
        self.label.open().is_empty()
    }

    /// Its directed strips, from the side's end on.
    pub(crate) fn path(&self) -> &[Directed] {
        self.label.path()
    }
}
