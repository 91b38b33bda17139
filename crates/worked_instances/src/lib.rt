//! Small instances on which several crates' tests rest, each made by a function whose contract says how many requests and
//! strips it has, so that no test proves that anew. From each strip to each other one the satellite turns for 2 ticks.
#![tactic(auto)]

mod apart;
mod four;
mod touching;
mod windows;

pub use apart::twins_apart;
pub use four::four_strips;
pub use touching::touching_strips;
