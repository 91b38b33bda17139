//! The table of manoeuvre times between directed strips.
//!
//! A strip is acquired in one of two opposite directions. The directed strip of strip `s` in
//! direction `d` is the number `2 * s + d`, so its strip is `x / 2`. A [`Table`] holds the time in
//! ticks that the satellite needs from the end of one acquisition to the start of the next.
//!
//! The promise of this crate: a `Table` keeps the two rules of manoeuvre times. Between two
//! directions of one strip the manoeuvre takes no time, and with the durations that it was made
//! for, a detour by a third strip never saves time. A refusal names the first place that breaks
//! a rule.
#![tactic(auto)]

mod limits;
mod refusal;
mod same_strip;
mod shortcut;
mod square;
mod table;

pub use limits::{MAX_DIRECTED, MAX_DURATION, MAX_MANOEUVRE};
pub use refusal::TableRefusal;
pub use table::Table;
