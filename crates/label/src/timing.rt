//! When a directed strip can come next on a side, and whether that is within the cap.

ghost use Rattle.std.specs.Prelude.{◌≡◌, ◌<◌, ◌≤◌, ◌↔◌, length, IsTrue};
ghost use Rattle.label.specs.Tables.{deadline_at};
ghost use Rattle.strip_model.specs.Directed.{strip_of};
ghost use Rattle.strip_model.specs.Orbit.{late_at};
ghost use Rattle.strip_model.specs.Side.{IsWithinCap};
ghost use Rattle.strip_model.specs.Starts.{arrive};
ghost use Rattle.strip_model.specs.Starts.Place.{After};

use crate::Side;
use strip_model::{Directed, End};

impl Side {
    // When an acquisition of `y` can start after one of `x` that starts before its deadline, in ticks.
    pub(crate) fn start_after(&self, start: u32, x: Directed, y: Directed) -> u32
        requires from { strip_of x < length self.now.instance.strips }
        requires to { strip_of y < length self.now.instance.strips }
        requires before { start < deadline_at self.now.instance x y }
        ensures value { result ≡ arrive self.now.instance (After start x) y }
        ensures in_time { result ≤ late_at self.now.instance y }
    {
        let early = self.instance().window(y).early;
        let ready = start + self.step(x, y);
        early.max(ready)
    }

    // Whether the last acquisition of a label of this side may be one of `x` at this earliest start.
    pub(crate) fn is_within_cap(&self, start: u32, x: Directed) -> bool
        requires { strip_of x < length self.now.instance.strips }
        ensures { IsTrue result ↔ IsWithinCap self.now.end self.now (After start x) }
    {
        match self.end() {
            End::Forward => start <= self.cut(),
            End::Backward => {
                let over = u64::from(start) + u64::from(self.instance().window(x).duration);
                over + u64::from(self.cut()) < u64::from(self.horizon())
            }
        }
    }
}
