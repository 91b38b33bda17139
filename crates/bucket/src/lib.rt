//! One dominance set: the labels of a side whose last directed strip falls into one bucket, with their states, an index by
//! path, and the history of all that was done to them. The history is legal and replays to the labels, and of the live labels
//! none dominates another. A [`Trace`] is what the buckets of both sides leave, with a plan.
#![tactic(auto)]

mod answers;
mod bucket;
mod entry;
mod id;
mod inserting;
mod limits;
mod numbering;
mod refusal;
mod room;
mod store;
mod trace;

pub use answers::{CutAnswer, Inserted, Taken};
pub use bucket::Bucket;
pub use entry::Entry;
pub use id::Id;
pub use label_list::State;
pub use limits::{BUCKETS, MAX_LABELS};
pub use numbering::bucket_of;
pub use refusal::BucketRefusal;
pub use trace::Trace;
