//! Why a label was not inserted.

ghost use Rattle.std.specs.Prelude.{◌≡◌};
ghost use Rattle.bucket.specs.declared.refusal.BucketRefusal.TheVariants.{Memory};

use std::alloc::{AllocError, AllocFailed};
use thiserror::Error;

/// Why a label was not inserted. The bucket stays as it was.
#[derive(Debug, Drop, Error)]
pub enum BucketRefusal {
    /// A label with this path is there already, in whatever state.
    #[error("label {id} has this path")]
    Present { id: u32 },
    /// No label has this path, and there are `MAX_LABELS` labels.
    #[error("the bucket has {labels} labels")]
    Crowded { labels: u32 },
    /// No memory was left.
    #[error("out of memory")]
    Memory,
}

impl From<AllocError> for BucketRefusal {
    ghost from_gives = { λ _ e. e ≡ Memory };

    fn from(_: AllocError) -> Self {
        BucketRefusal::Memory
    }
}

impl<T: Drop> From<AllocFailed<T>> for BucketRefusal {
    ghost from_gives = { λ _ e. e ≡ Memory };

    fn from(_: AllocFailed<T>) -> Self {
        BucketRefusal::Memory
    }
}
