// Which calls of a source or a sink in memory fail.
ghost use Rattle.std.specs.Prelude.{◌≡◌, ◌↔◌, ⊤, IsTrue, Contains};
ghost use Rattle.seq_io.specs.Count.{next_count, HasCause};

use crate::count::next_count;
use crate::failed::Failed;
use std::marker::Model;

// The calls that fail, by their numbers from 0, and what has come of it so far.
#[derive(Drop)]
pub(crate) struct FaultScript {
    fail: Vec<u32>,
    calls: u64,
    faults: u64,
}

impl Model for FaultScript {
    ghost use Rattle.seq_io.specs.FaultScript.{ScriptState};

    ghost Value = { ScriptState };

    ghost view = { λ s. record { fail = s.fail.items; calls = s.calls; faults = s.faults } };
}

impl FaultScript {
    pub(crate) fn new(fail: Vec<u32>) -> Self
        ensures { result ≡ record { fail = fail.items; calls = 0; faults = 0 } }
    {
        FaultScript {
            fail,
            calls: 0,
            faults: 0,
        }
    }

    // Counts a call, and tells whether it is one of those that fail.
    pub(crate) fn count_call(&mut self) -> bool
        ensures due { IsTrue result ↔ Contains self.old.fail self.old.calls }
        ensures counted { self.new ≡ record self.old { calls = next_count self.old.calls } }
    {
        let number = self.calls;
        self.calls = next_count(number);
        self.fail.iter().any(|due| u64::from(*due) == number)
    }

    // Counts a fault, for the caller to answer.
    pub(crate) fn count_fault(&mut self) -> Failed
        ensures counted { self.new ≡ record self.old { faults = next_count self.old.faults } }
        ensures cause { HasCause self.old.faults self.new.faults ⊤ }
    {
        self.faults = next_count(self.faults);
        Failed
    }
}
