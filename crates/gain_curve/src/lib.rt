//! The gain curve: which share of a request's gain its acquired area earns.
//!
//! A request pays little for its first strips and more for its last: the curve is convex and goes
//! through (0, 0), (4/10, 1/10), (7/10, 4/10) and (1, 1), with straight lines between. Two areas are
//! compared by the least difference of their shares over every area that may still be added to both.
//! The crate promises that least difference exactly, although it looks at one added area alone.
#![tactic(auto)]

mod curve;
mod difference;
mod laws;

pub use curve::{MAX_AREA, phi};
pub use difference::worst_difference;
pub use laws::curve_laws;
