//! Why an instance was not made.

ghost use Rattle.std.specs.Prelude.{◌≡◌};
ghost use Rattle.strip_model.specs.declared.refusal.ModelRefusal.TheVariants.{Memory};

use manoeuvre::TableRefusal;
use std::alloc::AllocError;
use thiserror::Error;

/// Why an instance was not made.
#[derive(Debug, Drop, Error)]
pub enum ModelRefusal {
    /// The manoeuvre table has the wrong shape or breaks one of its rules. The cause is never want of memory.
    #[error("the manoeuvre table: {0}")]
    Table(TableRefusal),
    /// No memory was left.
    #[error("out of memory")]
    Memory,
}

impl From<AllocError> for ModelRefusal {
    ghost from_gives = { λ _ e. e ≡ Memory };

    fn from(_: AllocError) -> Self {
        ModelRefusal::Memory
    }
}
