//! How much a pass weighs.
//!
//! What threads share gives each caller a pass, which is split for another thread and joined when that thread has ended.
//! Who has the last pass knows that there is no other one by its weight: the first pass has [`WHOLE_WEIGHT`], a split gives
//! half of a pass's weight, rounded down, to the new one, and a join adds both. So the weights of all passes are the whole
//! together, and a pass that has it is alone.
//!
//! The constant stands here once, for `turn_lock`, `incumbent`, `shared_budget` and `board`. Beside it, in
//! `proofs/Totals.antt`, stand the lemmas that all of these cite on totals over the views of passes, of which one changes.
#![tactic(auto)]

mod whole_weight;

pub use whole_weight::WHOLE_WEIGHT;
