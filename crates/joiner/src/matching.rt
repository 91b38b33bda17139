//! When tips meet, and what they gain.

ghost use Rattle.std.specs.Prelude.{◌≡◌, ◌↔◌, ◌&&◌, ℕ, false, IsTrue, MatchOption};
ghost use Rattle.joiner.specs.Tips.{HasTime, Meets, meet_gain, strips_at, twins_at};
ghost use Rattle.strip_model.specs.Directed.{has};

use crate::tip::{Tip, strips_at, twins_at};
use label::gain_of_strips;
use strip_model::Instance;

/// What a forward tip and a backward one between which there is time gain together, in twentieths, and none where they
/// don't meet. No tip is a root.
pub(crate) fn matching(instance: &Instance, f: &Option<Tip>, b: &Option<Tip>) -> Option<u64>
    requires { HasTime instance.now f.now b.now }
    ensures { MatchOption result (¬ Meets instance.now f.now b.now) (λ gain. Meets instance.now f.now b.now × (gain ≡ meet_gain instance.now f.now b.now)) }
{
    if !are_apart(f, b) || !wait_for_the_same(f, b) {
        return None;
    }
    let both = strips_at(f).join(strips_at(b));
    Some(gain_of_strips(instance, both))
}

// Whether no strip stands in both.
fn are_apart(f: &Option<Tip>, b: &Option<Tip>) -> bool
    ensures { IsTrue result ↔ ((i : ℕ) → (has i (strips_at f.now) && has i (strips_at b.now)) ≡ false) }
{
    strips_at(f).disjoint(&strips_at(b))
}

// Whether both wait for the same.
fn wait_for_the_same(f: &Option<Tip>, b: &Option<Tip>) -> bool
    ensures { IsTrue result ↔ ((z : ℕ) → has z (twins_at f.now) ≡ has z (twins_at b.now)) }
{
    twins_at(f) == twins_at(b)
}
