//! All that workers of one search share.
//!
//! A [`Board`] has, for each end of the orbit, the buckets of that side, each under a turn lock of its own, and a queue of ids;
//! besides, the incumbent, which is the best plan that any worker has offered, and a word of drawn numbers, by which workers
//! share a budget of labels. Threads share the board by reference, and each calls it with a [`Pass`] of its own: a pass of each
//! lock and of both queues, a share of the incumbent, and a drawer. A pass is split for another thread, and joined when that
//! thread has ended. Neither a board nor a pass can be dropped, so nothing is lost.
//!
//! Promised, by the clauses of the calls and however the threads run:
//!
//! - `insert`, `take` and `cut` make at most one turn of one bucket. They answer what the bucket answers on the labels to which
//!   the history leads that the turn found, and make just the entries of that answer. That history begins with all that the
//!   pass had seen; afterwards the pass has seen all of the history, and has the new entries as its own. The turn is given
//!   back, after a refusal too. An id that isn't there is answered as gone, with the state `Waiting`, and makes no entry.
//! - A pass that has made as many turns of a bucket as it can is refused before the bucket is looked at, and exactly then.
//! - `cut` uses the gain that a look at the incumbent at its start gives, which the pass has then seen.
//! - `see`, `offer` and `draw` wait for nobody. What a pass sees never falls; of two plans the better one is kept.
//! - `next` adds the id that it answers to the ids of the pass, and its reply, an id or none, to the replies of the pass, which
//!   stand in order for both ends; no other call adds any. `Full` and `None` come only where the queue held
//!   [`QUEUE_IDS`] ids, or none, at a moment of the call; where there is no other pass, this is told by the numbers of ids that
//!   it has pushed and was given.
//! - `draw` draws at most one number. A pass whose number isn't below the budget is exhausted, keeps it, and draws no more;
//!   `split` and `join` keep that.
//! - `close`, with all passes joined, gives a trace: the buckets of both sides by their numbers, each with a legal history that
//!   begins with what the pass had seen and has the own entries of each party, each once and in the party's order, and no
//!   others; of all plans that were offered the best, which gains no less than any pass saw; and the numbers that were drawn
//!   are those below some number, each once.
//! - Of `split`, want of memory leaves the pass as it was. `see`, `offer`, `draw`, `join` and `close` take no memory.
//!
//! Each of these clauses follows from the contract of one part: no rule spans two of them.
//!
//! Not promised: that a turn is ever got, or in which order; how fresh a look at the incumbent is; that ids leave a queue in the
//! order of their pushes, or that none is lost while several passes are out; that workers stop just at the budget.
#![tactic(auto)]

mod asked;
mod board;
mod half;
mod half_pass;
mod limits;
mod locks;
mod pass;
mod queue;
mod refusal;
mod replies;
mod reply;
mod shared_bucket;
mod turns;

pub use board::Board;
pub use limits::QUEUE_IDS;
pub use pass::Pass;
pub use pass_weight::WHOLE_WEIGHT;
pub use refusal::{BoardRefusal, Full, TakeRefusal};
pub use reply::Reply;
pub use shared_bucket::{Named, Recorded, SharedBucket};
