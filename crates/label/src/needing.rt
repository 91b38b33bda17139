//! What must still come after a label.

ghost use Rattle.std.specs.Prelude.{◌≡◌, ℕ, List};
ghost use Rattle.label.specs.Briefs.{IsBrief, IsBriefOf};
ghost use Rattle.label.specs.Labels.{IsLabelOf};
ghost use Rattle.strip_model.specs.Directed.{has};
ghost use Rattle.strip_model.specs.Reach.{needs};

use crate::{Brief, Label, Side};
use strip_set::DirectedSet;

/// The needs of a label: for each directed strip of its path whose strip has a twin that doesn't stand there, that twin in the
/// same direction.
pub fn needs(side: &Side, label: &Label) -> DirectedSet
    requires { IsLabelOf side.now label.now }
    ensures { (z : ℕ) → has z result ≡ has z (needs side.now.instance label.now.path.items) }
{
    side.twins_of(label.lone)
}

/// The needs of a brief's path.
pub(crate) fn needs_of(side: &Side, brief: &Brief) -> DirectedSet
    requires { IsBrief side.now brief.now }
    ensures { (path : List ℕ) → IsBriefOf side.now brief.now path → (z : ℕ) → has z result ≡ has z (needs side.now.instance path) }
{
    side.twins_of(side.open_among(brief.visited))
}
