//! What stands on both sides.

ghost use Rattle.std.specs.Prelude.{◌≡◌, IfOk};
ghost use Rattle.log_check.specs.Standing.{AreStanding};

use crate::listed::Listed;
use crate::marked::Marked;
use crate::standing::{Standing, standing_at};
use std::alloc::{AllocError, Global};
use std::marker::Model;
use strip_model::End;

/// A log that keeps the first six rules, with the labels of both sides that no mark marks. Contracts see the instance and the
/// log.
#[derive(Drop)]
pub(crate) struct Seated<'a> {
    listed: &'a Listed<'a>,
    forward: Standing,
    backward: Standing,
}

impl<'a> Model for Seated<'a> {
    ghost use Rattle.log_check.specs.Seated.{AreSeated};
    ghost use Rattle.log_check.specs.Reading.{Read};

    ghost Value = { Read };

    ghost view = { λ s. s.listed.now };

    ghost invariant = { λ s. AreSeated s.listed.now.instance s.listed.now.log s.forward s.backward };
}

impl<'a> Seated<'a> {
    /// The labels that no mark marks. It fails for want of memory alone.
    pub(crate) fn new(alloc: Global, marked: &Marked<'a>) -> Result<Seated<'a>, AllocError>
        ensures { IfOk result (λ seated. seated ≡ marked.now) }
    {
        Ok(Seated {
            listed: marked.listed(),
            forward: standing_at(alloc, marked, End::Forward)?,
            backward: standing_at(alloc, marked, End::Backward)?,
        })
    }

    /// The log with its labels.
    pub(crate) fn listed(&self) -> &'a Listed<'a>
        ensures { result.now ≡ self.now }
    {
        self.listed
    }

    /// The labels of a side that no mark marks.
    pub(crate) fn at(&self, end: End) -> &Standing
        ensures { AreStanding self.now.instance self.now.log end result.now }
    {
        match end {
            End::Forward => &self.forward,
            End::Backward => &self.backward,
        }
    }
}
