//! A source whose reads can't fail: over it no call tells that one did.

use super::over_memory::{ROOM, SOLVED, TOUCHING, words_in};
use seq_io::{MemSink, SureSource};
use sequencer::{Status, run_alone};
use std::alloc::Global;
use std::test::Fail;

// What comes of words over bytes that are surely read. That the first arm is never reached is proved.
fn run_surely(
    alloc: Global,
    words: &[String],
    source: &mut SureSource,
    sink: &mut MemSink,
) -> Status {
    match run_alone(alloc, words, source, sink) {
        Status::ReadFault => unreachable!(),
        status => status,
    }
}

#[test]
fn no_read_that_fails_is_told(rt: HostRuntime) -> Result<(), Fail> {
    let words = words_in(rt.alloc(), "solve")?;
    let mut source = SureSource::new(Vec::from_slice(rt.alloc(), TOUCHING.as_bytes())?);
    let mut sink = MemSink::new(rt.alloc(), ROOM, 1000, Vec::new(rt.alloc()))?;
    let status = run_surely(rt.alloc(), &words, &mut source, &mut sink);
    assert_eq!(rt; status, Status::Done);
    assert_eq!(rt; sink.written(), SOLVED.as_bytes());
    Ok(())
}
