//! Why a list is no list of twins.

use std::alloc::AllocError;
use thiserror::Error;

/// Why a list is no list of twins. Each of the first three names the least strip that breaks a rule, and there the first
/// rule that it breaks.
#[derive(Debug, Drop, Error)]
pub enum TwinRefusal {
    /// Strip `i` is its own twin.
    #[error("strip {i} is its own twin")]
    SelfTwin { i: u16 },
    /// The twin of strip `i` is of another request.
    #[error("the twin of strip {i} is of another request")]
    OtherRequest { i: u16 },
    /// The twin of the twin of strip `i` isn't `i`.
    #[error("the twin of the twin of strip {i} is another strip, or none")]
    NotMutual { i: u16 },
    /// The list keeps the rules, and there was no memory for it.
    #[error("out of memory")]
    Memory,
}

impl From<AllocError> for TwinRefusal {
    ghost use Rattle.std.specs.Prelude.{◌≡◌};
    ghost use Rattle.stereo_twins.specs.declared.twin_refusal.TwinRefusal.TheVariants.{Memory};

    ghost from_gives = { λ _ refusal. refusal ≡ Memory };

    fn from(_: AllocError) -> TwinRefusal {
        TwinRefusal::Memory
    }
}
