//! Reads and writes of single bytes that fail in turn, and words without a job, with which nothing is read.

use super::over_memory::{MADE, ROOM, SOLVED, input_with, source_of, words_in};
use seq_io::{MemSink, MemSource};
use sequencer::{Status, run_alone};
use std::alloc::Global;
use std::test::Fail;

// Words, what follows the two strips in the input, whether it is read, and what is written.
const ROWS: [(&str, &str, bool, &str); 4] = [
    ("solve", "", true, SOLVED),
    ("check", SOLVED, true, "accepted\ngain 2000/20\n"),
    (
        "score",
        "strips 2\n0 0 0\n7 1 0\nend\n",
        true,
        "gain 2000/20\n",
    ),
    ("make --seed 7 --size 2", "", false, MADE),
];

// So many reads and writes fail in turn; each row reads and writes no more bytes.
const CALLS: u32 = 200;

// No call has this number.
const NONE: u32 = u32::MAX;

// What comes of words and an input where one read of a single byte fails, or one write.
fn run_with(
    alloc: Global,
    line: &str,
    input: &[u8],
    read: u32,
    write: u32,
) -> Result<(Status, Vec<u8>), Fail> {
    let words = words_in(alloc, line)?;
    let bytes = Vec::from_slice(alloc, input)?;
    let mut source = MemSource::new(bytes, 1, vec![in alloc; read]?);
    let mut sink = MemSink::new(alloc, ROOM, 1, vec![in alloc; write]?)?;
    let status = run_alone(alloc, &words, &mut source, &mut sink);
    Ok((status, Vec::from_slice(alloc, sink.written())?))
}

#[test]
fn each_read_that_fails_is_told(rt: HostRuntime) -> Result<(), Fail> {
    for (line, rest, reads, output) in ROWS {
        let input = input_with(rt.alloc(), rest)?;
        for number in 0..CALLS {
            let (status, written) = run_with(rt.alloc(), line, &input, number, NONE)?;
            // The last read finds the end.
            if reads && number as usize <= input.len() {
                assert_eq!(rt; status, Status::ReadFault, "{line}: read {number}");
                assert_eq!(rt; written.len(), 0, "{line}: read {number}");
            } else {
                assert_eq!(rt; status, Status::Done, "{line}: read {number}");
                assert_eq!(rt;
                    written.as_slice(),
                    output.as_bytes(),
                    "{line}: read {number}"
                );
            }
        }
    }
    Ok(())
}

#[test]
fn each_write_that_fails_is_told(rt: HostRuntime) -> Result<(), Fail> {
    for (line, rest, _, output) in ROWS {
        let input = input_with(rt.alloc(), rest)?;
        assert!(rt; output.len() < CALLS as usize);
        for number in 0..CALLS {
            let (status, written) = run_with(rt.alloc(), line, &input, NONE, number)?;
            // As many bytes are written as calls came before.
            let count = output.len().min(number as usize);
            let fails = count < output.len();
            let wanted = if fails {
                Status::WriteFault
            } else {
                Status::Done
            };
            assert_eq!(rt; status, wanted, "{line}: write {number}");
            assert_eq!(rt;
                written.as_slice(),
                &output.as_bytes()[..count],
                "{line}: write {number}"
            );
        }
    }
    Ok(())
}

#[test]
fn words_without_a_job_read_nothing(rt: HostRuntime) -> Result<(), Fail> {
    for line in ["", "solv", "solve --budget 0"] {
        let words = words_in(rt.alloc(), line)?;
        // A source that fails at its first read, so a call that reads is told from one that doesn't.
        let mut source = source_of(rt.alloc(), b"", 0)?;
        let mut sink = MemSink::new(rt.alloc(), ROOM, 1, Vec::new(rt.alloc()))?;
        let status = run_alone(rt.alloc(), &words, &mut source, &mut sink);
        assert_eq!(rt; status, Status::Usage, "{line}");
        assert_eq!(rt; sink.written().len(), 0, "{line}");
    }
    Ok(())
}
