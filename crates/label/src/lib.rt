//! Labels: the partial sequences of which a search keeps track, from either end of the orbit. A `Side` is an instance as it
//! is seen from one end, with what the search looks up most; a `Label` is a label path of a side, with what the path's
//! extensions ask for; a `Brief` is what dominance depends on of a label; and an `Outline` is what a search compares of it,
//! made of its brief and the side. Each call says exactly what the definitions of label paths, reach, needs, bounds and
//! dominance say, and what follows of every completion.
#![tactic(auto)]

mod bounding;
mod briefing;
mod briefs;
mod differences;
mod dominance;
mod extending;
mod gains;
mod label;
mod limits;
mod needing;
mod outline;
mod reaching;
mod restoring;
mod side;
mod sides;
mod tables;
mod timing;

pub use bounding::{bound, bound_of, bound_with};
pub use briefing::brief;
pub use briefs::Brief;
pub use dominance::{brief_dominates, dominates};
pub use extending::{can_extend, extend, start};
pub use gains::{gain_of_strips, value_of_strips};
pub use label::Label;
pub use limits::MAX_LISTED;
pub use needing::needs;
pub use outline::{Outline, outline_dominates, outline_of};
pub use reaching::reach;
pub use restoring::restore;
pub use side::Side;
pub use sides::Sides;
