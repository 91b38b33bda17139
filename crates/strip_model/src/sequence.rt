//! What stands in a sequence of directed strips or of acquisitions, and whether twins come together in it.

ghost use Rattle.std.specs.Prelude.{◌≡◌, ◌<◌, ◌↔◌, IsTrue, length, map};
ghost use Rattle.strip_model.specs.Directed.{strip_of, has, has_strip};
ghost use Rattle.strip_model.specs.Plan.{StripsExist, KeepsTwinsTogether};
ghost use Rattle.strip_model.specs.Twins.{keeps_twin};

use crate::{AtDirected, Directed, Instance};

/// Whether a strip stands in the sequence, in whichever direction.
pub fn has_strip<X: AtDirected>(sequence: &[X], strip: u16) -> bool
    ensures { result ≡ has_strip strip (map X.directed sequence.now) }
{
    for item in sequence {
        if item.directed().strip() == strip {
            return true;
        }
    }
    false
}

/// Whether a directed strip stands in the sequence.
pub fn has<X: AtDirected>(sequence: &[X], x: Directed) -> bool
    ensures { result ≡ has x (map X.directed sequence.now) }
{
    for item in sequence {
        if item.directed() == x {
            return true;
        }
    }
    false
}

/// Whether the twin of the strip of `x` stands in the sequence in the direction of `x`, if that strip has a twin.
pub fn keeps_twin<X: AtDirected>(instance: &Instance, sequence: &[X], x: Directed) -> bool
    requires { strip_of x < length instance.now.strips }
    ensures { result ≡ keeps_twin instance.now (map X.directed sequence.now) x }
{
    match instance.partner(x) {
        None => true,
        Some(partner) => has(sequence, partner),
    }
}

/// Whether each strip of the sequence that has a twin comes with it, in the same direction.
pub fn keeps_twins_together<X: AtDirected>(instance: &Instance, sequence: &[X]) -> bool
    requires { StripsExist instance.now (map X.directed sequence.now) }
    ensures { IsTrue result ↔ KeepsTwinsTogether instance.now (map X.directed sequence.now) }
{
    for item in sequence {
        if !keeps_twin(instance, sequence, item.directed()) {
            return false;
        }
    }
    true
}
