ghost use Rattle.std.specs.Prelude.{◌≡◌};
ghost use Rattle.proof_log.specs.declared.unread.Unread.TheVariants.{Fault, Memory};

use seq_io::LineFault;
use std::alloc::{AllocError, AllocFailed};

// Why the reader stopped. After a fault it stands in the line that can't stand.
#[derive(Drop)]
pub(crate) enum Unread {
    // The line can't stand.
    Fault(LineFault),
    // No memory was left.
    Memory,
}

impl From<LineFault> for Unread {
    ghost from_gives = { λ fault unread. unread ≡ Fault fault };

    fn from(fault: LineFault) -> Self {
        Unread::Fault(fault)
    }
}

impl From<AllocError> for Unread {
    ghost from_gives = { λ _ unread. unread ≡ Memory };

    fn from(_: AllocError) -> Self {
        Unread::Memory
    }
}

impl<T: Drop> From<AllocFailed<T>> for Unread {
    ghost from_gives = { λ _ unread. unread ≡ Memory };

    fn from(_: AllocFailed<T>) -> Self {
        Unread::Memory
    }
}
