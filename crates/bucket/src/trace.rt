//! What a search by many threads leaves.

use crate::Bucket;
use plan_check::Published;

/// What is left when all threads have ended: the buckets of both sides, each side's in the order of their numbers, and the
/// best plan. `IsTraceOf` in `specs/Traces.antt` says of which sides and of which instance.
#[derive(Drop)]
pub struct Trace<'a> {
    /// The best plan.
    pub plan: Published<'a>,
    /// The [`BUCKETS`](crate::BUCKETS) buckets of the forward side.
    pub forward: Vec<Bucket<'a>>,
    /// Those of the backward side.
    pub backward: Vec<Bucket<'a>>,
}
