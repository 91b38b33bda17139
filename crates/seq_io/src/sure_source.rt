// A source in memory whose reads can't fail.
ghost use Rattle.std.specs.Prelude.{◌≡◌, ◌++◌, length, take, drop, min, IfOk, IsErr};

use crate::failed::Failed;
use crate::source::Source;
use std::marker::Model;

/// Gives bytes from memory, as many a call as the buffer takes, and never fails: it counts no faults, so no call over it
/// tells of one.
#[derive(Drop)]
pub struct SureSource {
    bytes: Vec<u8>,
    at: usize,
}

impl Model for SureSource {
    ghost use Rattle.std.specs.Prelude.{◌≤◌, ℕ, List, length, drop};

    // The bytes still to come.
    ghost Value = { List ℕ };

    ghost view = { λ s. drop s.at s.bytes.items };

    ghost invariant = { λ s. s.at ≤ length s.bytes.items };
}

impl SureSource {
    /// A source of `bytes`. It takes no memory.
    pub fn new(bytes: Vec<u8>) -> Self
        ensures { result ≡ bytes.items }
    {
        SureSource { bytes, at: 0 }
    }
}

impl Source for SureSource {
    ghost use Rattle.std.specs.Prelude.{Some};

    ghost left = { λ s. Some s };

    ghost faults = { λ _. 0 };

    fn read(&mut self, buf: &mut [u8]) -> Result<usize, Failed>
        ensures sure { ¬ IsErr result }
        ensures count { IfOk result (λ n. n ≡ min (length buf.old) (length self.old)) }
        ensures bytes { IfOk result (λ n. buf.new ≡ take n self.old ++ drop n buf.old) }
        ensures rest { IfOk result (λ n. self.new ≡ drop n self.old) }
    {
        let rest = &self.bytes[self.at..];
        let n = rest.len().min(buf.len());
        buf[..n].copy_from_slice(&rest[..n]);
        self.at += n;
        Ok(n)
    }
}
