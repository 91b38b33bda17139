//! The limits of a bucket.

use strip_model::MAX_STRIPS;

/// How many buckets a side has: a label whose last directed strip is `x` stands in bucket `x % BUCKETS`.
pub const BUCKETS: u16 = 16;

/// The greatest number of labels in one bucket, whatever their states.
pub const MAX_LABELS: u32 = 2_000_000;

/// How many antichains a bucket has: one for each last directed strip that falls into it.
pub(crate) const FRONTS: usize = 2 * MAX_STRIPS / BUCKETS as usize;
