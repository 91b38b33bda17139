// A sink in memory.
ghost use Rattle.std.specs.Prelude.{◌≡◌, ◌<◌, ◌≤◌, ◌↔◌, [], ◌++◌, length, take, Contains, IfOk, OnErr, IsErr};
ghost use Rattle.seq_io.specs.Count.{HasCause};
ghost use Rattle.seq_io.specs.MemSink.{write_count, after_write, after_failed_write, IsRefused};

use crate::failed::Failed;
use crate::fault_script::FaultScript;
use crate::sink::Sink;
use std::alloc::{AllocError, Global};
use std::marker::Model;

/// Takes bytes into memory in pieces, up to its room, and fails at the calls that it was told to.
#[derive(Drop)]
pub struct MemSink {
    bytes: Vec<u8>,
    room: usize,
    piece: u32,
    script: FaultScript,
}

impl Model for MemSink {
    ghost use Rattle.std.specs.Prelude.{◌≤◌, length, vec_capacity};
    ghost use Rattle.seq_io.specs.MemSink.{SinkState};

    ghost Value = { SinkState };

    ghost view = { λ s. record {
      written = s.bytes.items;
      room = s.room;
      piece = s.piece;
      script = s.script;
    } };

    ghost invariant = { λ s.
        (length s.bytes.items ≤ s.room) × (s.room ≤ vec_capacity s.bytes) × (1 ≤ s.piece) };
}

impl MemSink {
    /// A sink with room for `room` bytes, taken at once, that takes at most `piece` bytes a call.
    /// Calls are numbered from 0. Those in `fail` answer `Failed`, and so does a write when the
    /// room is used up.
    pub fn new(alloc: Global, room: usize, piece: u32, fail: Vec<u32>) -> Result<Self, AllocError>
        requires { 1 ≤ piece }
        ensures { IfOk result (λ sink. sink ≡ record {
          written = [];
          room = room;
          piece = piece;
          script = record { fail = fail.items; calls = 0; faults = 0 };
        }) }
    {
        Ok(MemSink {
            bytes: Vec::with_capacity(alloc, room)?,
            room,
            piece,
            script: FaultScript::new(fail),
        })
    }

    /// The bytes appended so far.
    pub fn written(&self) -> &[u8]
        ensures { result.now ≡ self.now.written }
    {
        &self.bytes
    }
}

impl Sink for MemSink {
    ghost use Rattle.std.specs.Prelude.{Some};

    ghost written = { λ s. Some s.written };

    ghost faults = { λ s. s.script.faults };

    fn write(&mut self, bytes: &[u8]) -> Result<usize, Failed>
        ensures fails { IsErr result ↔ IsRefused self.old bytes.now }
        ensures count { IfOk result (λ n. n ≡ write_count self.old (length bytes.now)) }
        ensures rest { IfOk result (λ n. self.new ≡ after_write self.old (take n bytes.now)) }
        ensures failed { OnErr result (self.new ≡ after_failed_write self.old) }

        // So it meets what a sink promises: a piece is never empty, and a count never falls.
        ensures progress { IfOk result (λ n. 0 < length bytes.now → 0 < n) }
        ensures cause { HasCause self.old.script.faults self.new.script.faults (IsErr result) }
    {
        let due = self.script.count_call();
        let free = self.room - self.bytes.len();
        if due || (free == 0 && !bytes.is_empty()) {
            return Err(self.script.count_fault());
        }
        let n = bytes.len().min(free).min(self.piece as usize);
        self.bytes.extend_from_slice(&bytes[..n]).unwrap();
        Ok(n)
    }
}
