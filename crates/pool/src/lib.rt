//! Workers on a board. [`run_all`] has them search by rounds, in threads: in each round the labels of one layer of last starts are
//! cut or extended, and each bucket is one worker's alone. [`work`] is one worker for callers with threads of their own: it takes
//! labels from the queues, cuts those that can't beat the best plan, and extends the others, until it is told to stop, or there is
//! nothing to do, or the budget is spent. Both ask a gate before each call.
//!
//! # What is promised, whatever the threads do
//!
//! - A worker, by itself or in rounds, only adds to what its pass had: the histories that it had seen, its parties' entries, plans,
//!   numbers and ids stand. Each history that it has seen anew is legal.
//! - In one call it draws at most one number more than it inserts labels, so the budget can't be spent on nothing, and inserts no
//!   more labels than it draws numbers.
//! - Each id that it was given names no label that its pass had seen before the call, or one that isn't waiting at the end; and each
//!   label that it took isn't live at the end, or each label path that extends it by one directed strip was seen. With an end other
//!   than [`WorkEnd::Empty`] the id that it was given last, of both queues, is left out.
//! - [`WorkEnd`] tells the cause of the end, each with what shows it: `Empty` the last two replies of this call's queues, first the
//!   forward one and then the other, neither of which gave an id.
//! - [`run_all`] leaves a trace as the board's `close` gives it, for a pass into which the given one has grown.
//!
//! # What isn't promised
//!
//! - That threads ran at the same time, that any of them got on, or how far it came: a worker by itself that finds the queues empty
//!   while another one is about to fill them ends.
//! - Which labels, how many for a number that was drawn, and which plan.
#![tactic(auto)]

mod crew;
mod cutting;
mod extending;
mod extensions;
mod following;
mod gate;
mod lane;
mod layers;
mod order;
mod post;
mod rounds;
mod running;
mod stop_at;
mod tally;
mod work_end;
mod worker;
mod working;

pub use gate::{Gate, Go, OpenGate};
pub use joiner::MAX_WORKERS;
pub use running::run_all;
pub use stop_at::StopAt;
pub use work_end::WorkEnd;
pub use working::work;
