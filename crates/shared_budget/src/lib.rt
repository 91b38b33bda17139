//! Numbers drawn from one shared word.
//!
//! Threads that share a budget draw a number before each step that the budget counts: 0, 1, 2 and so on, no number twice.
//! Who gets a number below the budget makes the step; who gets another one has reached the budget, and draws no more.
//! [`Draws`] is the next number, one atomic word that threads share by reference. Each of them has a [`Drawer`], which knows
//! the numbers that it drew. A drawer is split for another thread, and joined when that thread has ended. Neither the word
//! nor a drawer can be dropped, so none is lost.
//!
//! Promised, by the clauses of the calls and whatever the threads do:
//!
//! - `draw` answers a number below the budget, or [`DrawSpent`] with one that isn't. A drawer that got [`DrawSpent`] is
//!   exhausted: it keeps that number and draws no more, and each later `draw` answers [`DrawSpent`] with the number that it
//!   keeps. [`DrawSpent`] comes exactly where the drawer was exhausted before or became so.
//! - A number that is drawn exceeds all that its drawer has drawn before, and those that were joined into it.
//! - A drawer that is split from an exhausted one is exhausted, with the same number, and one into which an exhausted one
//!   was joined is exhausted too.
//! - `close`, with all drawers joined: the numbers that all parties drew are those below some number, each of them drawn
//!   once and none left out. Where no drawer was exhausted, that number is at most the budget. Where one was, it is greater
//!   than the budget, so each number below the budget was drawn.
//! - Every call waits for nobody and returns. Only `Draws::new` takes memory; the list of the numbers of a drawer stands in
//!   proofs alone.
//!
//! Not promised:
//!
//! - Which drawer gets which number, beyond that the numbers of each rise.
//! - That a drawer knows the budget reached as soon as another one does. It finds that by drawing a number itself, so as many
//!   numbers that aren't below the budget may be drawn as there are drawers.
//!
//! Inside is a table of `atomic_table` with one word. Its rule, and the kinds of step that keep it, are in `specs/Rule.antt`
//! and `specs/Steps.antt`.
#![tactic(auto)]

mod draw_spent;
mod drawer;
mod draws;
mod rule;
mod view;

pub use draw_spent::DrawSpent;
pub use drawer::Drawer;
pub use draws::{Draws, MOST_BUDGET};
pub use pass_weight::WHOLE_WEIGHT;
