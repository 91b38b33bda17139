//! A log whose marks keep the fourth rule.

ghost use Rattle.std.specs.Prelude.{◌≡◌, ◌<◌, ◌≤◌, length, take, slice_get, Some, IfOk};
ghost use Rattle.proof_log.specs.Labels.{paths_in, is_marked};
ghost use Rattle.proof_log.specs.Rules.{NamesLabels};

use crate::listed::Listed;
use crate::naming::mark_at;
use crate::times::{Times, is_marked, is_marked_before, times_of};
use proof_log::Mark;
use std::alloc::{AllocError, Global};
use std::marker::Model;
use strip_model::End;

/// A log whose labels keep the third rule and whose marks keep the fourth, with the number of the first mark of each label.
/// Contracts see the instance and the log.
#[derive(Drop)]
pub(crate) struct Marked<'a> {
    listed: &'a Listed<'a>,
    times: Times,
}

impl<'a> Model for Marked<'a> {
    ghost use Rattle.log_check.specs.Marked.{KeepsTimes};
    ghost use Rattle.log_check.specs.Reading.{Read};

    ghost Value = { Read };

    ghost view = { λ m. m.listed.now };

    ghost invariant = { λ m. KeepsTimes m.listed.now.log m.times };
}

impl<'a> Marked<'a> {
    ghost use Rattle.log_check.specs.Times.{AllNamed};

    /// The log, once it is known when its labels are marked. It fails for want of memory alone.
    pub(crate) fn new(alloc: Global, listed: &'a Listed<'a>) -> Result<Marked<'a>, AllocError>
        requires named { AllNamed listed.now.log }
        ensures { IfOk result (λ marked. marked ≡ listed.entry.now) }
    {
        Ok(Marked {
            listed,
            times: times_of(alloc, listed.reading().log())?,
        })
    }

    /// The log with its labels.
    pub(crate) fn listed(&self) -> &'a Listed<'a>
        ensures { result.now ≡ self.now }
    {
        self.listed
    }

    /// How many marks there are.
    pub(crate) fn marks(&self) -> usize
        ensures { result ≡ length self.now.log.marks.items }
    {
        self.listed.reading().log().marks.len()
    }

    /// The mark of a number, which names labels that are there.
    pub(crate) fn mark(&self, j: usize) -> Mark
        requires { j < length self.now.log.marks.items }
        ensures mark { slice_get self.now.log.marks.items j ≡ Some result }
        ensures named { NamesLabels self.now.log result }
    {
        mark_at(self.listed.reading().log(), j)
    }

    /// Whether one of the first `marks` marks marks a label.
    pub(crate) fn is_marked_before(&self, end: End, label: usize, marks: usize) -> bool
        requires label { label < length (paths_in self.now.log end) }
        requires marks { marks ≤ length self.now.log.marks.items }
        ensures { result ≡ is_marked end label (take marks self.now.log.marks.items) }
    {
        is_marked_before(self.listed.reading().log(), &self.times, end, label, marks)
    }

    /// Whether a mark marks a label.
    pub(crate) fn is_marked(&self, end: End, label: usize) -> bool
        requires { label < length (paths_in self.now.log end) }
        ensures { result ≡ is_marked end label self.now.log.marks.items }
    {
        is_marked(self.listed.reading().log(), &self.times, end, label)
    }
}
