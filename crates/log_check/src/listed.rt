//! A log whose labels keep the third rule.

ghost use Rattle.std.specs.Prelude.{◌≡◌, ◌<◌, ◌↔◌, IsTrue, IfOk, length};
ghost use Rattle.label.specs.Briefs.{IsBriefOf};
ghost use Rattle.label.specs.Labels.{IsLabelWith};
ghost use Rattle.log_check.specs.Listing.{HasPaths};
ghost use Rattle.proof_log.specs.Labels.{paths_in, path_at, IsListed};
ghost use Rattle.strip_model.specs.LabelPath.{LabelPath};
ghost use Rattle.strip_model.specs.Side.{face_of};
ghost use Rattle.strip_model.specs.declared.end.End.TheVariants.{Forward, Backward};

use crate::reading::Reading;
use label::{Brief, Label};
use label_list::LabelList;
use std::alloc::{AllocError, Global};
use std::marker::Model;
use strip_model::{Directed, End};

/// A log whose labels keep the third rule, with the labels of both sides in lists: no path is read from the log again.
/// Contracts see the instance and the log.
#[derive(Drop)]
pub(crate) struct Listed<'a> {
    reading: &'a Reading<'a>,
    forward: LabelList<'a>,
    backward: LabelList<'a>,
}

impl<'a> Model for Listed<'a> {
    ghost use Rattle.log_check.specs.Listed.{KeepsLists};
    ghost use Rattle.log_check.specs.Reading.{Read};

    ghost Value = { Read };

    ghost view = { λ l. l.reading.now };

    ghost invariant = { λ l. KeepsLists l.reading.now l.forward l.backward };
}

impl<'a> Listed<'a> {
    ghost use Rattle.log_check.specs.Reading.{AreRight, face_in};

    /// The log, once its labels stand in the lists.
    pub(crate) fn new(
        reading: &'a Reading<'a>,
        forward: LabelList<'a>,
        backward: LabelList<'a>,
    ) -> Listed<'a>
        requires right { AreRight reading.now.instance reading.now.log }
        requires forward { HasPaths (face_in reading.now Forward) (paths_in reading.now.log Forward) forward }
        requires backward { HasPaths (face_in reading.now Backward) (paths_in reading.now.log Backward) backward }
        ensures { result ≡ reading.entry.now }
    {
        Listed {
            reading,
            forward,
            backward,
        }
    }

    /// The log and its instance.
    pub(crate) fn reading(&self) -> &'a Reading<'a>
        ensures { result.now ≡ self.now }
    {
        self.reading
    }

    // The labels of an end.
    fn at(&self, end: End) -> &LabelList<'a>
        ensures { HasPaths (face_of self.now.instance self.now.log.cut end) (paths_in self.now.log end) result.now }
    {
        match end {
            End::Forward => &self.forward,
            End::Backward => &self.backward,
        }
    }

    /// Whether a path is listed at an end.
    pub(crate) fn has(&self, end: End, path: &[Directed]) -> bool
        ensures { IsTrue result ↔ IsListed self.now.log end path.now }
    {
        self.at(end).id_of(path).is_some()
    }

    /// The brief of the label of a number, which is of a label path of its side.
    pub(crate) fn brief(&self, end: End, k: usize) -> Brief
        requires { k < length (paths_in self.now.log end) }
        ensures brief { IsBriefOf (face_of self.now.instance self.now.log.cut end) result (path_at self.now.log end k) }
        ensures path { LabelPath (face_of self.now.instance self.now.log.cut end) (path_at self.now.log end k) }
    {
        let labels = self.at(end);
        // For its clause: numbers of labels are small.
        let _ = labels.len();
        labels.brief(k as u32)
    }

    /// The label of a number, made again from its path. It fails for want of memory alone.
    pub(crate) fn restore(&self, alloc: Global, end: End, k: usize) -> Result<Label, AllocError>
        requires { k < length (paths_in self.now.log end) }
        ensures { IfOk result (IsLabelWith (face_of self.now.instance self.now.log.cut end) (path_at self.now.log end k)) }
    {
        let labels = self.at(end);
        // For its clause: numbers of labels are small.
        let _ = labels.len();
        let label = labels.restore(alloc, k as u32)?;
        Ok(label)
    }
}
