//! The instance of one orbit, and the definitions that every other crate's contracts cite: what a feasible plan is, its
//! gain, when a plan is optimal, earliest starts, the horizon. An `Instance` keeps every limit and rule that its
//! definition `IsInstance` lists, so a reader of an instance has them all without a test of its own.
#![tactic(auto)]

mod acquisition;
mod areas;
mod at_directed;
mod directed;
mod end;
mod gain;
mod instance;
mod laws;
mod limits;
mod making;
mod mirroring;
mod next;
mod path_laws;
mod refusal;
mod request;
mod sequence;
mod strip;
mod times;
mod twin_lists;
mod window;

pub use acquisition::Acquisition;
pub use at_directed::AtDirected;
pub use directed::Directed;
pub use end::End;
pub use gain::{area_in, gain_of, gain_with};
pub use instance::Instance;
pub use laws::twin_laws;
pub use limits::{
    MAX_GAIN, MAX_HORIZON, MAX_REQUESTS, MAX_STRIP_AREA, MAX_STRIPS, MAX_TOTAL_GAIN, MAX_WINDOW_END,
};
pub use mirroring::{mirror, mirror_laws};
pub use next::{earliest_start, following};
pub use path_laws::label_path_laws;
pub use refusal::ModelRefusal;
pub use request::Request;
pub use sequence::{has, has_strip, keeps_twin, keeps_twins_together};
pub use strip::Strip;
pub use twin_lists::twin_map;
pub use window::Window;
