//! Briefs: what dominance depends on, without the path.

use strip_model::Directed;
use strip_set::DirectedSet;

/// What dominance depends on of a label path: its last acquisition and its directed strips. What else a search compares of a
/// label comes of these and the side. A contract says by `IsBriefOf` of which path it is.
#[derive(Clone, Copy, Debug)]
pub struct Brief {
    /// The last directed strip of the path.
    pub last: Directed,
    /// The earliest start of the last, in ticks from the side's end.
    pub start: u32,
    /// The directed strips of the path.
    pub visited: DirectedSet,
}
