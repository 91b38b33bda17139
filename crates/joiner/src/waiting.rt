ghost use Rattle.std.specs.Prelude.{◌≡◌, ◌<◌, ◌==◌, ℕ, List, true, if◌then◌else◌, length};
ghost use Rattle.joiner.specs.Tips.{waits_for};
ghost use Rattle.stereo_twins.specs.Twins.{is_need};
ghost use Rattle.strip_model.specs.Directed.{strip_of, has};
ghost use Rattle.strip_model.specs.Reach.{is_open};
ghost use Rattle.strip_model.specs.Side.{facing};
ghost use Rattle.strip_model.specs.Twins.{twins_of};

use strip_model::{Directed, End, Instance};
use strip_set::{DirectedSet, MAX_DIRECTED};

/// What a path at this end waits for in a join, where these are its open directed strips: forward the twins that it needs,
/// backward those themselves.
pub(crate) fn waiting(instance: &Instance, end: End, lone: DirectedSet) -> DirectedSet
    requires { (y : ℕ) → has y lone ≡ true → strip_of y < length instance.now.strips }
    ensures { (path : List ℕ) → ((y : ℕ) → has y lone ≡ is_open (facing instance.now end) path y) → (z : ℕ) → has z result ≡ waits_for instance.now end path z }
{
    match end {
        End::Forward => needs_of(instance, lone),
        End::Backward => lone,
    }
}

// The twins of these directed strips, in their directions.
fn needs_of(instance: &Instance, lone: DirectedSet) -> DirectedSet
    requires { (y : ℕ) → has y lone ≡ true → strip_of y < length instance.now.strips }
    ensures { (z : ℕ) → has z result ≡ is_need (twins_of instance.now) lone z }
{
    // For its clause: the instance keeps what every instance keeps.
    let _ = instance.strips();
    let mut needs = DirectedSet::empty();
    for x in lone.iter() {
        if let Some(twin) = instance.partner(Directed(x)) {
            needs = with(needs, twin);
        }
    }
    needs
}

// The set with one more directed strip.
fn with(set: DirectedSet, x: Directed) -> DirectedSet
    requires { x < MAX_DIRECTED }
    ensures { (z : ℕ) → has z result ≡ (if z == x then true else has z set) }
{
    set.with(x.0)
}
