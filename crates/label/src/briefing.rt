//! What is kept of a label in brief.

ghost use Rattle.label.specs.Briefs.{IsBriefOf};
ghost use Rattle.label.specs.Labels.{IsLabelOf};
ghost use Rattle.strip_model.specs.Side.{Face};

use crate::{Brief, Label};

/// The brief of a label. It takes no memory.
pub fn brief(label: &Label) -> Brief
    ensures { (S : Face) → IsLabelOf S label.now → IsBriefOf S result label.now.path.items }
{
    Brief {
        last: label.last,
        start: label.start,
        visited: label.visited,
    }
}
