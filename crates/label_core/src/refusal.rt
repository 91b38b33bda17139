//! Why a step was not made, and that want of memory is one of the causes.

ghost use Rattle.std.specs.Prelude.{◌≡◌};
ghost use Rattle.label_core.specs.declared.refusal.StepRefusal.TheVariants.{Memory};

use std::alloc::{AllocError, AllocFailed};
use thiserror::Error;

/// Why a step was not made. The core stays as it was.
#[derive(Debug, Drop, Error)]
pub enum StepRefusal {
    /// The event has no step in this state of the core.
    #[error("no step")]
    Illegal,
    /// No memory was left.
    #[error("out of memory")]
    Memory,
}

impl From<AllocError> for StepRefusal {
    ghost from_gives = { λ _ e. e ≡ Memory };

    fn from(_: AllocError) -> Self {
        StepRefusal::Memory
    }
}

impl<T: Drop> From<AllocFailed<T>> for StepRefusal {
    ghost from_gives = { λ _ e. e ≡ Memory };

    fn from(_: AllocFailed<T>) -> Self {
        StepRefusal::Memory
    }
}
