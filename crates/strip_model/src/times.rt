//! What an instance tells of directed strips and the times between them.

ghost use Rattle.std.specs.Prelude.{◌≡◌, ◌+◌, ◌<◌, ◌≤◌, length, IfSome};
ghost use Rattle.manoeuvre.specs.declared.limits.TheConstants.{MAX_DURATION, MAX_MANOEUVRE};
ghost use Rattle.strip_model.specs.Directed.{strip_of};
ghost use Rattle.strip_model.specs.Orbit.{partner_of, manoeuvre_at};
ghost use Rattle.strip_model.specs.Starts.{ready, arrive};
ghost use Rattle.strip_model.specs.Starts.Place.{After};

use crate::{Directed, Instance};

impl Instance {
    /// The twin of a directed strip's strip, in its direction, if that strip has a twin.
    pub fn partner(&self, x: Directed) -> Option<Directed>
        requires { strip_of x < length self.now.strips }
        ensures value { result ≡ partner_of self.now x }
        ensures exists { IfSome result (λ y. strip_of y < length self.now.strips) }
    {
        match self.strips()[usize::from(x.strip())].twin {
            None => None,
            Some(twin) => Some(Directed::of(twin, x.direction())),
        }
    }

    /// The time in ticks from the end of an acquisition of `x` to the start of one of `y`.
    pub fn manoeuvre(&self, x: Directed, y: Directed) -> u32
        requires from { strip_of x < length self.now.strips }
        requires to { strip_of y < length self.now.strips }
        ensures value { result ≡ manoeuvre_at self.now x y }
        ensures bound { result ≤ MAX_MANOEUVRE }
    {
        self.table().between(x.0, y.0)
    }

    /// When the satellite is ready to acquire `y` after an acquisition of `x` that starts at `start`, in ticks.
    pub fn ready_after(&self, start: u32, x: Directed, y: Directed) -> u64
        requires from { strip_of x < length self.now.strips }
        requires to { strip_of y < length self.now.strips }
        ensures value { result ≡ ready self.now (After start x) y }
        ensures bound { result ≤ start + MAX_DURATION + MAX_MANOEUVRE }
    {
        let duration = self.window(x).duration;
        let manoeuvre = self.manoeuvre(x, y);
        u64::from(start) + u64::from(duration) + u64::from(manoeuvre)
    }

    /// When an acquisition of `y` can start after one of `x` that starts at `start`, in ticks: not before its window, and
    /// not before the satellite is ready.
    pub fn arrive_after(&self, start: u32, x: Directed, y: Directed) -> u64
        requires from { strip_of x < length self.now.strips }
        requires to { strip_of y < length self.now.strips }
        ensures value { result ≡ arrive self.now (After start x) y }
    {
        let early = self.window(y).early;
        let ready = self.ready_after(start, x, y);
        u64::from(early).max(ready)
    }
}
