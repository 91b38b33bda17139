ghost use Rattle.std.specs.Prelude.{◌≡◌};
ghost use Rattle.joiner.specs.LabelJoins.{IsLabelAt};
ghost use Rattle.joiner.specs.Tips.{IsTipOf, strips_at, twins_at};

use crate::waiting::waiting;
use label::Label;
use strip_model::{Directed, End, Instance};
use strip_set::{DirectedSet, StripSet};

/// What a join asks of a label, so that it never looks at a path.
#[derive(Clone, Copy, Debug)]
pub(crate) struct Tip {
    /// The last directed strip.
    pub last: Directed,
    /// When the last acquisition is over at its earliest, in ticks from the label's end.
    pub over: u32,
    /// The strips of the path.
    pub strips: StripSet,
    /// What the path waits for: a forward one the twins that it needs, a backward one its directed strips that lack their twin.
    pub twins: DirectedSet,
}

/// The tip of a label at this end of the instance.
pub(crate) fn tip_of(instance: &Instance, end: End, label: &Label) -> Tip
    requires { IsLabelAt instance.now end label.now }
    ensures { IsTipOf instance.now end label.now.path.items result }
{
    // For its clause: the instance keeps what every instance keeps.
    let _ = instance.strips();
    let last = label.last();
    let duration = instance.window(last).duration;
    Tip {
        last,
        over: label.start_of_last() + duration,
        strips: label.visited().strips(),
        twins: waiting(instance, end, label.open()),
    }
}

/// The strips of a tip, and none at the root.
pub(crate) fn strips_at(tip: &Option<Tip>) -> StripSet
    ensures { result ≡ strips_at tip.now }
{
    match tip {
        None => StripSet::empty(),
        Some(tip) => tip.strips,
    }
}

/// What a tip waits for, and nothing at the root.
pub(crate) fn twins_at(tip: &Option<Tip>) -> DirectedSet
    ensures { result ≡ twins_at tip.now }
{
    match tip {
        None => DirectedSet::empty(),
        Some(tip) => tip.twins,
    }
}
