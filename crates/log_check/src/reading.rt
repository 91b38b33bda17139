//! A log beside the instance that it is of.

ghost use Rattle.std.specs.Prelude.{◌≡◌, ◌≤◌, length};
ghost use Rattle.label.specs.declared.limits.TheConstants.{MAX_LISTED};
ghost use Rattle.log_check.specs.Paths.{plain};
ghost use Rattle.proof_log.specs.Labels.{paths_in};
ghost use Rattle.strip_model.specs.Side.{face_of};

use crate::naming::paths_of;
use label::{Side, Sides};
use proof_log::Log;
use std::marker::Model;
use strip_model::{Directed, End, Instance};

/// A log with few labels, its instance, and the sides of the instance with the cut that the log names. Contracts see the
/// instance and the log.
#[derive(Drop)]
pub(crate) struct Reading<'a> {
    instance: &'a Instance,
    log: &'a Log,
    sides: &'a Sides,
}

impl<'a> Model for Reading<'a> {
    ghost use Rattle.log_check.specs.Reading.{Read, IsReading};

    ghost Value = { Read };

    ghost view = { λ r. record { instance = r.instance.now; log = r.log.now } };

    ghost invariant = { λ r. IsReading r.instance.now r.log.now r.sides.now };
}

impl<'a> Reading<'a> {
    ghost use Rattle.log_check.specs.Reading.{HasFewLabels};

    /// The reading of a log beside its instance.
    pub(crate) fn new(instance: &'a Instance, log: &'a Log, sides: &'a Sides) -> Reading<'a>
        requires few { HasFewLabels log.now }
        requires instance { sides.now.instance ≡ instance.now }
        requires cut { sides.now.cut ≡ log.now.cut }
        ensures { result ≡ record { instance = instance.entry.now; log = log.entry.now } }
    {
        Reading {
            instance,
            log,
            sides,
        }
    }

    /// The instance.
    pub(crate) fn instance(&self) -> &'a Instance
        ensures { result.now ≡ self.now.instance }
    {
        self.instance
    }

    /// The log.
    pub(crate) fn log(&self) -> &'a Log
        ensures { result.now ≡ self.now.log }
    {
        self.log
    }

    /// The side at an end.
    pub(crate) fn side(&self, end: End) -> &'a Side
        ensures { result.now ≡ face_of self.now.instance self.now.log.cut end }
    {
        self.sides.at(end)
    }

    /// The paths that the log lists at an end.
    pub(crate) fn paths(&self, end: End) -> &'a [Vec<Directed>]
        ensures value { plain result.now ≡ paths_in self.now.log end }
        ensures count { length result.now ≡ length (paths_in self.now.log end) }
        ensures few { length result.now ≤ MAX_LISTED }
    {
        paths_of(self.log, end)
    }
}
