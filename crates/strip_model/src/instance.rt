//! The instance, and what it tells of itself.

ghost use Rattle.std.specs.Prelude.{◌≡◌, ◌<◌, ◌≤◌, ◌+◌, ◌*◌, length, All, IfOk, IfErr, pos, neg_ℤ, ◌≤ℤ◌};
ghost use Rattle.gain_curve.specs.Difference.{IsLeastDifference, worst};
ghost use Rattle.gain_curve.specs.declared.curve.TheConstants.{MAX_AREA};
ghost use Rattle.manoeuvre.specs.declared.limits.TheConstants.{MAX_MANOEUVRE};
ghost use Rattle.strip_model.specs.Directed.{strip_of};
ghost use Rattle.strip_model.specs.Gain.{whole_area, share_at};
ghost use Rattle.strip_model.specs.Horizon.{horizon_of};
ghost use Rattle.strip_model.specs.IsInstance.{IsInstance, IsWithinLimits, KeepsTwins, IsWindow};
ghost use Rattle.strip_model.specs.Orbit.{window_at, gain_at};
ghost use Rattle.strip_model.specs.Refusal.{IsRefusedAs};
ghost use Rattle.strip_model.specs.declared.limits.TheConstants.{MAX_HORIZON, MAX_TOTAL_GAIN};

use crate::areas::areas_of;
use crate::making::{greatest_end, table_for};
use crate::{Directed, ModelRefusal, Request, Strip, Window};
use gain_curve::{phi, worst_difference};
use manoeuvre::Table;
use std::alloc::{AllocError, Global};
use std::marker::Model;

/// The instance of one orbit: requests, strips, and the manoeuvre times between directed strips. It keeps each request's
/// area and its horizon, so that no call adds them up again.
#[derive(Debug, Drop)]
pub struct Instance {
    requests: Vec<Request>,
    strips: Vec<Strip>,
    table: Table,
    areas: Vec<u64>,
    horizon: u32,
}

impl Model for Instance {
    ghost use Rattle.strip_model.specs.Orbit.{Orbit};
    ghost use Rattle.strip_model.specs.Kept.{IsKept};

    ghost Value = { Orbit };

    ghost view = { λ i. record { requests = i.requests.items; strips = i.strips.items; table = i.table } };

    ghost invariant = { λ i. IsKept (record { requests = i.requests.items; strips = i.strips.items; table = i.table }) i.areas.items i.horizon };
}

impl Instance {
    /// Makes an instance. `entries` are the manoeuvre times in rows: row x has the times from directed strip x to
    /// directed strips 0, 1 and so on. Refused are a wrong number of entries and a table that breaks the same-strip rule
    /// or the shortcut rule, and `Memory` comes where none of these holds. That twins keep their rule is the caller's to
    /// test.
    pub fn new(
        alloc: Global,
        requests: Vec<Request>,
        strips: Vec<Strip>,
        entries: &[u32],
    ) -> Result<Instance, ModelRefusal>
        requires limits { IsWithinLimits requests.items strips.items }
        requires twins { KeepsTwins strips.items }
        requires entries { All (λ m. m ≤ MAX_MANOEUVRE) entries.now }
        ensures made { IfOk result (λ instance. instance ≡ record {
          requests = requests.items;
          strips = strips.items;
          table = record { size = 2 * length strips.items; entries = entries.now };
        }) }
        ensures sound { IfOk result IsInstance }
        ensures refused { IfErr result (IsRefusedAs strips.items entries.now) }
    {
        let table = table_for(alloc, &strips, entries)?;
        let instance = Instance::from_parts(alloc, requests, strips, table)?;
        Ok(instance)
    }

    /// The instance of these parts. It fails for want of memory alone.
    pub(crate) fn from_parts(
        alloc: Global,
        requests: Vec<Request>,
        strips: Vec<Strip>,
        table: Table,
    ) -> Result<Instance, AllocError>
        requires { IsInstance (record { requests = requests.items; strips = strips.items; table = table }) }
        ensures { IfOk result (λ instance. instance ≡ record { requests = requests.items; strips = strips.items; table = table }) }
    {
        let areas = areas_of(alloc, requests.len(), &strips)?;
        let horizon = greatest_end(&strips);
        Ok(Instance {
            requests,
            strips,
            table,
            areas,
            horizon,
        })
    }

    /// The same instance once more. It fails for want of memory alone.
    pub fn copy(&self, alloc: Global) -> Result<Instance, AllocError>
        ensures value { IfOk result (λ instance. instance ≡ self.now) }
        ensures sound { IfOk result IsInstance }
    {
        Ok(Instance {
            requests: Vec::from_slice(alloc, &self.requests)?,
            strips: Vec::from_slice(alloc, &self.strips)?,
            table: self.table.copy(alloc)?,
            areas: Vec::from_slice(alloc, &self.areas)?,
            horizon: self.horizon,
        })
    }

    /// The requests, by number.
    pub fn requests(&self) -> &[Request]
        ensures value { result.now ≡ self.now.requests }
        ensures sound { IsInstance self.now }
    {
        &self.requests
    }

    /// The strips, by number.
    pub fn strips(&self) -> &[Strip]
        ensures value { result.now ≡ self.now.strips }
        ensures sound { IsInstance self.now }
    {
        &self.strips
    }

    /// The manoeuvre times, in ticks.
    pub fn table(&self) -> &Table
        ensures value { result.now ≡ self.now.table }
        ensures sound { IsInstance self.now }
    {
        &self.table
    }

    /// When a directed strip can be acquired.
    pub fn window(&self, x: Directed) -> Window
        requires { strip_of x < length self.now.strips }
        ensures value { result ≡ window_at self.now x }
        ensures bounds { IsWindow result }
    {
        self.strips[usize::from(x.strip())].windows[usize::from(x.direction())]
    }

    /// The area of a request: that of all its strips.
    pub fn area_of(&self, request: u16) -> u64
        requires { request < length self.now.requests }
        ensures value { result ≡ whole_area self.now request }
        ensures bound { result ≤ MAX_AREA }
    {
        self.areas[usize::from(request)]
    }

    /// What a request gains, in twentieths, where this much of its area is acquired.
    pub fn share(&self, request: u16, area: u64) -> u64
        requires request { request < length self.now.requests }
        requires area { area ≤ whole_area self.now request }
        ensures value { result ≡ share_at self.now request area }
        ensures under_chord { result ≤ 20 * gain_at self.now request * area }
        ensures bound { result ≤ MAX_TOTAL_GAIN }
    {
        let gain = self.requests()[usize::from(request)].gain;
        u64::from(gain) * phi(area, self.area_of(request))
    }

    /// The least by which a request gains more where `first` of its area is acquired than where `second` is, over every
    /// area up to `room` that is added to both. It is that of a request of gain 1, in twentieths times its area.
    pub fn worst_difference(&self, request: u16, first: u64, second: u64, room: u64) -> i64
        requires request { request < length self.now.requests }
        requires first { first + room ≤ whole_area self.now request }
        requires second { second + room ≤ whole_area self.now request }
        ensures value { result ≡ worst first second room (whole_area self.now request) }
        ensures least { IsLeastDifference first second room (whole_area self.now request) result }
        ensures at_least { neg_ℤ (pos (20 * MAX_AREA)) ≤ℤ result }
        ensures at_most { result ≤ℤ pos (20 * MAX_AREA) }
    {
        worst_difference(first, second, room, self.area_of(request))
    }

    /// When the last possible acquisition is over, in ticks: the greatest end of a window plus its duration, and 0 without
    /// strips.
    pub fn horizon(&self) -> u32
        ensures value { result ≡ horizon_of self.now }
        ensures bound { result ≤ MAX_HORIZON }
    {
        self.horizon
    }
}
