//! Two workers that both ask the gate before either goes on.

ghost use Rattle.std.specs.Prelude.{⊤};

use super::over_memory::{ROOM, gain_line, run_on, source_of, words_in};
use pool::{Gate, Go};
use seq_io::MemSink;
use sequencer::{Status, run_gated};
use std::sync::atomic::{AtomicBool, Ordering};
use std::test::Fail;

// Holds two workers at their second step until the other one was asked once.
#[derive(Drop)]
struct Meeting {
    came: [AtomicBool; 2],
    missed: AtomicBool,
}

// For so many turns a worker is held.
const TURNS: u32 = 100_000_000;

impl Gate for Meeting {
    ghost stops = { λ gate worker step. ⊤ };

    fn at(&self, worker: u32, step: u64) -> Go {
        let own = usize::from(worker != 0);
        self.came[own].store(true, Ordering::SeqCst);
        if step != 1 {
            return Go::On;
        }
        for _ in 0..TURNS {
            if self.came[1 - own].load(Ordering::SeqCst) {
                return Go::On;
            }
        }
        self.missed.store(true, Ordering::SeqCst);
        Go::Stop
    }
}

#[test]
fn two_workers_meet(rt: HostRuntime) -> Result<(), Fail> {
    let (_, input) = run_on(rt.alloc(), "make --seed 7 --size 20", b"")?;
    let (_, alone) = run_on(rt.alloc(), "solve", &input)?;
    let gate = Meeting {
        came: [AtomicBool::new(false), AtomicBool::new(false)],
        missed: AtomicBool::new(false),
    };
    let words = words_in(rt.alloc(), "solve --workers 2")?;
    let mut source = source_of(rt.alloc(), &input, u32::MAX)?;
    let mut sink = MemSink::new(rt.alloc(), ROOM, 1000, Vec::new(rt.alloc()))?;
    let status = run_gated(&rt, rt.alloc(), &words, &mut source, &mut sink, &gate);
    assert_eq!(rt; status, Status::Done);
    assert!(rt; gate.came[0].load(Ordering::SeqCst) && gate.came[1].load(Ordering::SeqCst));
    assert!(rt; !gate.missed.load(Ordering::SeqCst));
    assert_eq!(rt; gain_line(sink.written()), gain_line(&alone));
    Ok(())
}
