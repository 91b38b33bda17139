// Where bytes go.
ghost use Rattle.std.specs.Prelude.{◌≡◌, ◌<◌, ◌≤◌, ℕ, List, Option, length, take, IfOk, OnErr, IsErr};
ghost use Rattle.seq_io.specs.Count.{HasCause};
ghost use Rattle.seq_io.specs.Sink.{Appends};

use crate::failed::Failed;

/// Takes bytes in pieces.
pub trait Sink {
    /// The bytes appended so far, where the sink tells them.
    ghost written: { Self → Option (List ℕ) };

    /// How often a write has failed.
    ghost faults: { Self → ℕ };

    /// Appends the first bytes of `bytes`, and answers how many: at least one, unless `bytes` is
    /// empty. `Failed` has appended nothing, and a later write may go on.
    fn write(&mut self, bytes: &[u8]) -> Result<usize, Failed>
        ensures bound { IfOk result (λ n. n ≤ length bytes.now) }
        ensures progress { IfOk result (λ n. 0 < length bytes.now → 0 < n) }
        ensures appended { IfOk result (λ n.
            Appends (written self.old) (written self.new) (take n bytes.now)) }
        ensures failed { OnErr result (written self.new ≡ written self.old) }
        ensures cause { HasCause (faults self.old) (faults self.new) (IsErr result) };
}
