ghost use Rattle.std.specs.Prelude.{◌≡◌};
ghost use Rattle.plan_check.specs.declared.refusal.PlanRefusal.TheVariants.{Memory};

use std::alloc::{AllocError, AllocFailed};
use thiserror::Error;

/// Why a text was not read.
#[derive(Debug, Drop, Error)]
pub enum PlanRefusal {
    /// The bytes are no text of a plan. The line, counted from 1, is the first that can't stand there.
    #[error("line {line} can't stand in the text of a plan")]
    Refused { line: u32 },
    /// No memory was left.
    #[error("out of memory")]
    Memory,
}

impl From<AllocError> for PlanRefusal {
    ghost from_gives = { λ _ e. e ≡ Memory };

    fn from(_: AllocError) -> Self {
        PlanRefusal::Memory
    }
}

impl<T: Drop> From<AllocFailed<T>> for PlanRefusal {
    ghost from_gives = { λ _ e. e ≡ Memory };

    fn from(_: AllocFailed<T>) -> Self {
        PlanRefusal::Memory
    }
}
