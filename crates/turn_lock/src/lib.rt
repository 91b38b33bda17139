//! Turns round one value that keeps a history: a lock whose callers can tell what they did under it.
//!
//! The value is a [`Chronicle`]: it has a history, a list of entries that only grows, and a frame, which never changes.
//! [`Turn`] is the lock, shared by reference. Each caller has a [`TurnPass`], which knows what it has seen of the history
//! and which entries it made. With the pass the caller takes a turn, [`Held`], changes the value, and gives the turn back.
//! A pass is split for another thread, and joined when that thread has ended. Neither a pass nor a turn can be dropped, so
//! none is lost.
//!
//! Promised, by the clauses of the calls and however the turns fall:
//!
//! - There is one history. `enter` finds one that begins with all that the pass had seen, and a value with the frame of the
//!   first one.
//! - `leave` makes the whole history seen, and adds just what the turn added to the pass's own entries.
//! - `close`, with all passes joined, gives the value. Its history has the own entries of each pass, each once and in that
//!   pass's order, and no others.
//! - A pass makes at most [`MOST_TURNS`] turns, and `enter` refuses it exactly then.
//!
//! Not promised: that a turn is ever got, how soon, or in which order callers get theirs. A caller that keeps its turn keeps
//! all others waiting. Of the value in a turn nothing is known but its history, its frame and what its type always keeps.
//!
//! Inside is a table of `atomic_table` with two words and one slot. Its rule, and the kinds of step that keep it, are in
//! `specs/Rule.antt` and `specs/Steps.antt`.
#![tactic(auto)]

mod chronicle;
mod held;
mod rule;
mod turn;
mod turn_pass;
mod turn_spent;
mod view;

pub use chronicle::Chronicle;
pub use held::Held;
pub use pass_weight::WHOLE_WEIGHT;
pub use turn::Turn;
pub use turn_pass::TurnPass;
pub use turn_spent::{MOST_TURNS, TurnSpent};
