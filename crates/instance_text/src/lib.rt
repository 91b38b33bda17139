//! The text of an instance: one spelling that is written, and a grammar of lines and tokens that is read, with each
//! refusal at its line. That a text has one value, and bytes one text in front of them and one refusal, are the laws
//! [`one_value`] and [`refusal_laws`].
#![tactic(auto)]

mod contents;
mod front;
mod laws;
mod limits;
mod line_kinds;
mod place;
mod reader;
mod reading;
mod refusal;
mod rules;
mod runs;
mod tokens;
mod writing;

pub use front::read_front;
pub use laws::{one_value, refusal_laws};
pub use limits::MAX_TEXT_BYTES;
pub use reading::read;
pub use refusal::{Cause, Refusal, TextRefusal};
pub use writing::write;
