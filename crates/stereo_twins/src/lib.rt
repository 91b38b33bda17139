//! The stereo twins among the strips.
//!
//! Two strips that are each other's twin are views of one target, and a plan has both or neither, in one direction. A
//! [`TwinMap`] is made only of a list of twins that keeps the rules: no strip is its own twin, twins are of one request,
//! and the twin of a strip's twin is the strip. Its questions are the twin's part in the search: whether a directed
//! strip may join a path, which members of a path wait for their twin, and which directed strips they wait for.
#![tactic(auto)]

mod twin_map;
mod twin_refusal;

pub use twin_map::TwinMap;
pub use twin_refusal::TwinRefusal;
