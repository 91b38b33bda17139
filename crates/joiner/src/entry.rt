ghost use Rattle.std.specs.Prelude.{◌≡◌};
ghost use Rattle.joiner.specs.Entries.{root};

use crate::tip::Tip;

/// What a walk keeps of a label or a root, so that it looks at each pair of them once and never at a label.
#[derive(Clone, Copy, Debug)]
pub(crate) struct Entry {
    /// The label's tip, and none for a root.
    pub tip: Option<Tip>,
    /// When the last acquisition is over at its earliest, in ticks from the label's end, and 0 for a root.
    pub over: u32,
    /// The label's place in its list, and none for a root.
    pub place: Option<u32>,
    /// The value of the label's strips, in twentieths.
    pub value: u64,
}

/// The entry of a root.
pub(crate) fn root() -> Entry
    ensures { result ≡ root }
{
    Entry {
        tip: None,
        over: 0,
        place: None,
        value: 0,
    }
}
