//! The names of labels.

use strip_model::End;

/// The name of a label among all buckets of both sides.
#[derive(Clone, Copy, Debug, PartialEq, Eq)]
pub struct Id {
    /// The end from which its path begins.
    pub end: End,
    /// The number of its bucket, below `BUCKETS`.
    pub bucket: u8,
    /// Its id in the bucket: how many labels were inserted there before it.
    pub index: u32,
}
