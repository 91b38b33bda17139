//! Workers that are stopped, each at each of its first steps: the one thread after them finds the plan all the same.

use super::over_memory::{ROOM, gain_line, run_on, source_of, words_in};
use pool::StopAt;
use seq_io::MemSink;
use sequencer::{Status, run_gated};
use std::alloc::Global;
use std::sync::Wait;
use std::test::Fail;
use std::thread::Threads;

// The workers, and how many of their first steps are tried.
const WORKERS: u32 = 4;

const STEPS: u64 = 25;

// What the four write on an instance, where this gate stops them.
fn solve_with<R: Threads + Wait + Sync>(
    rt: &R,
    alloc: Global,
    input: &[u8],
    gate: &StopAt,
) -> Result<Vec<u8>, Fail> {
    let words = words_in(alloc, "solve --workers 4")?;
    let mut source = source_of(alloc, input, u32::MAX)?;
    let mut sink = MemSink::new(alloc, ROOM, 1000, Vec::new(alloc))?;
    match run_gated(rt, alloc, &words, &mut source, &mut sink, gate) {
        Status::Done => Ok(Vec::from_slice(alloc, sink.written())?),
        status => Err(status.into()),
    }
}

#[test]
fn a_stopped_worker_changes_no_gain(rt: HostRuntime) -> Result<(), Fail> {
    let (_, input) = run_on(rt.alloc(), "make --seed 7 --size 8", b"")?;
    let (_, alone) = run_on(rt.alloc(), "solve", &input)?;
    for worker in 0..WORKERS {
        for step in 0..STEPS {
            let output = solve_with(&rt, rt.alloc(), &input, &StopAt::new(worker, step))?;
            assert_eq!(rt;
                gain_line(&output),
                gain_line(&alone),
                "worker {worker}, step {step}"
            );
            let mut both = Vec::from_slice(rt.alloc(), &input)?;
            both.extend_from_slice(&output)?;
            let (status, _) = run_on(rt.alloc(), "check", &both)?;
            assert_eq!(rt; status, Status::Done, "worker {worker}, step {step}");
        }
    }
    Ok(())
}
