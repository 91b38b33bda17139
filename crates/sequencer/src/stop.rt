//! Why a call has no answer: by its words, or by its job.

ghost use Rattle.std.specs.Prelude.{◌≡◌, ◌↔◌, List, [], Option, ℕ};
ghost use Rattle.sequencer.specs.Opening.{IsStoppedFor, Lacks};
ghost use Rattle.sequencer.specs.Run.{Runs, with_workers};
ghost use Rattle.sequencer.specs.declared.stop.Stop.TheVariants.{ReadFault};
ghost use Rattle.sequencer.specs.declared.stop.Unanswered.TheVariants.{Stopped};

use crate::Status;
use std::alloc::AllocError;

/// Why a job has no answer.
#[derive(Clone, Copy)]
pub(crate) enum Stop {
    /// The source could not be read.
    ReadFault,
    /// No memory was left.
    Memory,
}

impl From<AllocError> for Stop {
    ghost use Rattle.std.specs.Prelude.{◌≡◌};
    ghost use Rattle.sequencer.specs.declared.stop.Stop.TheVariants.{Memory};

    ghost from_gives = { λ _ e. e ≡ Memory };

    fn from(_: AllocError) -> Self {
        Stop::Memory
    }
}

/// Why a call has no answer.
#[derive(Clone, Copy)]
pub(crate) enum Unanswered {
    /// The words ask for no job.
    Usage,
    /// No memory was left to read the words.
    Unread,
    /// The job that they ask for stopped.
    Stopped(Stop),
}

impl Stop {
    /// The status of a call whose job stopped so: it writes nothing.
    pub(crate) fn status(self) -> Status
        ensures runs { (counted : ℕ → ℕ) (words : List (List ℕ)) (left : Option (List ℕ)) (taken : List ℕ) → IsStoppedFor words taken
            → Runs (with_workers counted) words left taken [] result }
        ensures read_fault { (result ≡ Status.ReadFault) ↔ (self ≡ ReadFault) }
        ensures write_fault { result ≡ Status.WriteFault → ⊥ }
    {
        match self {
            Stop::ReadFault => Status::ReadFault,
            Stop::Memory => Status::Memory,
        }
    }
}

impl Unanswered {
    /// The status of a call that has no answer for this cause: it writes nothing.
    pub(crate) fn status(self) -> Status
        ensures runs { (counted : ℕ → ℕ) (words : List (List ℕ)) (left : Option (List ℕ)) (taken : List ℕ) → Lacks words taken self
            → Runs (with_workers counted) words left taken [] result }
        ensures read_fault { (result ≡ Status.ReadFault) ↔ (self ≡ Stopped ReadFault) }
        ensures write_fault { result ≡ Status.WriteFault → ⊥ }
    {
        match self {
            Unanswered::Usage => Status::Usage,
            Unanswered::Unread => Status::Memory,
            Unanswered::Stopped(stop) => stop.status(),
        }
    }
}
