//! Sets of strips and of directed strips, as words of bits.
//!
//! A strip is a number below [`MAX_STRIPS`]. A directed strip is the number `2 * strip + direction`, where the direction
//! is 0 or 1, so it lies below [`MAX_DIRECTED`]. Callers see each set as the rising list of its members, and each
//! contract says of which numbers the result consists. No call takes memory.
#![tactic(auto)]

mod directed_set;
mod set_iter;
mod strip_set;

pub use directed_set::{DirectedSet, MAX_DIRECTED};
pub use set_iter::SetIter;
pub use strip_set::{MAX_STRIPS, StripSet};
