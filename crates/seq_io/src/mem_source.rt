// A source in memory.
ghost use Rattle.std.specs.Prelude.{◌≡◌, ◌<◌, ◌≤◌, ◌↔◌, [], ◌++◌, length, take, drop, Contains, IfOk, OnErr, IsErr};
ghost use Rattle.seq_io.specs.Count.{HasCause};
ghost use Rattle.seq_io.specs.MemSource.{read_count, after_read, after_failed_read};

use crate::failed::Failed;
use crate::fault_script::FaultScript;
use crate::source::Source;
use std::marker::Model;

/// Gives bytes from memory in pieces, and fails at the calls that it was told to.
#[derive(Drop)]
pub struct MemSource {
    bytes: Vec<u8>,
    at: usize,
    piece: u32,
    script: FaultScript,
}

impl Model for MemSource {
    ghost use Rattle.std.specs.Prelude.{◌≤◌, length, drop};
    ghost use Rattle.seq_io.specs.MemSource.{SourceState};

    ghost Value = { SourceState };

    ghost view = { λ s. record {
      left = drop s.at s.bytes.items;
      piece = s.piece;
      script = s.script;
    } };

    ghost invariant = { λ s. (s.at ≤ length s.bytes.items) × (1 ≤ s.piece) };
}

impl MemSource {
    /// A source of `bytes` that gives at most `piece` bytes a call. Calls are numbered from 0,
    /// and those in `fail` answer `Failed`.
    pub fn new(bytes: Vec<u8>, piece: u32, fail: Vec<u32>) -> Self
        requires { 1 ≤ piece }
        ensures { result ≡ record {
          left = bytes.items;
          piece = piece;
          script = record { fail = fail.items; calls = 0; faults = 0 };
        } }
    {
        MemSource {
            bytes,
            at: 0,
            piece,
            script: FaultScript::new(fail),
        }
    }
}

impl Source for MemSource {
    ghost use Rattle.std.specs.Prelude.{Some};

    ghost left = { λ s. Some s.left };

    ghost faults = { λ s. s.script.faults };

    fn read(&mut self, buf: &mut [u8]) -> Result<usize, Failed>
        ensures fails { IsErr result ↔ Contains self.old.script.fail self.old.script.calls }
        ensures count { IfOk result (λ n. n ≡ read_count self.old (length buf.old)) }
        ensures bytes { IfOk result (λ n. buf.new ≡ take n self.old.left ++ drop n buf.old) }
        ensures rest { IfOk result (λ n. self.new ≡ after_read self.old n) }
        ensures failed { OnErr result (self.new ≡ after_failed_read self.old) }

        // So it meets what a source promises: a piece is never empty, and a count never falls.
        ensures end { IfOk result (λ n. n ≡ 0 → 0 < length buf.old → self.old.left ≡ []) }
        ensures cause { HasCause self.old.script.faults self.new.script.faults (IsErr result) }
    {
        if self.script.count_call() {
            return Err(self.script.count_fault());
        }
        let rest = &self.bytes[self.at..];
        let n = rest.len().min(buf.len()).min(self.piece as usize);
        buf[..n].copy_from_slice(&rest[..n]);
        self.at += n;
        Ok(n)
    }
}
