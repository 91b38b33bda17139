//! The best plan that any thread has offered.
//!
//! Threads that search for a plan share one number, the greatest worth offered so far, so that each of them can give
//! up what can't beat it. A [`Peak`] is that number, one atomic word. Each party has a [`Share`] of it, which keeps a
//! plan and the greatest number that it has seen. An offer raises the word to the worth of its plan, where that is
//! greater, and the share keeps the better of its two plans. The word itself has no plan: at the end the shares are
//! joined, and the last one has it.
//!
//! # What is promised, whatever the threads do
//!
//! - What a share sees never falls, and is no less than the worth of its own plan. With a share of the whole weight,
//!   when there is no other, it is just that worth.
//! - An offer is `Raised` exactly where the plan is worth more than the word was just before.
//! - No offer is lost: each call that may let a plan go keeps the one of greater worth, and a share ends only by
//!   `join` or `close`, since it can't be dropped. Only a share of the whole weight, into which each other one was
//!   joined, can `close` its peak. So the closing plan is worth at least as much as each plan that any party offered,
//!   its worth is the word, and nobody saw more.
//! - Every call waits for nobody and returns. Only `Peak::new` takes memory.
//!
//! # What isn't promised
//!
//! - How fresh `see` is beside other shares. A `see` that answered only what its share knows already would meet its
//!   contract; a test shows that a share sees what another one offered.
//! - Which word an offer finds while others offer, beyond that it is no less than what the share knew, and so whose
//!   plan comes first.
#![tactic(auto)]

mod better;
mod knowledge;
mod offered;
mod peak;
mod rule;
mod share;
mod worth;

pub use offered::Offered;
pub use pass_weight::WHOLE_WEIGHT;
pub use peak::Peak;
pub use share::Share;
pub use worth::Worth;
