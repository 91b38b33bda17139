//! The program over memory.

use seq_io::{MemSink, MemSource};
use sequencer::{Status, run_alone};
use std::alloc::{AllocError, Global};
use std::test::Fail;

/// Two strips of one request. The window of the second opens and closes at tick 7, just when the satellite is ready.
pub(crate) const TOUCHING: &str =
    "orbit 1\nrequests 1\nr 10\nstrips 2\ns 0 - 4 0 0 5 1 0 5\ns 0 - 6 7 7 5 1 0 5\nmanoeuvres\n\
0 0 2 2\n0 0 2 2\n2 2 0 0\n2 2 0 0\nend\n";

/// What `solve` writes on them.
pub(crate) const SOLVED: &str =
    "Optimal\ngain 2000/20\nstrips 2\n0 0 0\n7 1 0\nlabels 2\nlog\ncut 6\nF 0\nB 2\nC F 0\nC B 0\nend\n";

/// The instance of two strips that `make` makes of the seed 7.
pub(crate) const MADE: &str =
    "orbit 1\nrequests 1\nr 49\nstrips 2\ns 0 - 67 30 83 24 1 0 20\ns 0 - 58 127 170 33 1 0 20\nmanoeuvres\n\
0 0 19 24\n0 0 24 19\n19 24 0 0\n24 19 0 0\nend\n";

/// As many bytes as an answer has here.
pub(crate) const ROOM: usize = 100_000;

/// The words of a line.
pub(crate) fn words_in(alloc: Global, line: &str) -> Result<Vec<String>, AllocError> {
    let mut words = Vec::new(alloc);
    for word in line.split_whitespace() {
        words.push(String::from_str(alloc, word)?)?;
    }
    Ok(words)
}

/// The two strips that touch, and what follows them.
pub(crate) fn input_with(alloc: Global, rest: &str) -> Result<Vec<u8>, Fail> {
    let mut input = Vec::from_slice(alloc, TOUCHING.as_bytes())?;
    input.extend_from_slice(rest.as_bytes())?;
    Ok(input)
}

/// The line of an answer that tells its gain.
pub(crate) fn gain_line(output: &[u8]) -> &[u8] {
    let mut lines = output.split(|byte| *byte == b'\n');
    let _ = lines.next();
    lines.next().unwrap_or(&[])
}

/// A source of these bytes, of which one read fails, by its number.
pub(crate) fn source_of(alloc: Global, bytes: &[u8], failing: u32) -> Result<MemSource, Fail> {
    let fail = vec![in alloc; failing]?;
    Ok(MemSource::new(Vec::from_slice(alloc, bytes)?, 1000, fail))
}

/// What comes of words and an input, by one thread: the status and what is written.
pub(crate) fn run_on(alloc: Global, line: &str, input: &[u8]) -> Result<(Status, Vec<u8>), Fail> {
    let words = words_in(alloc, line)?;
    let mut source = source_of(alloc, input, u32::MAX)?;
    let mut sink = MemSink::new(alloc, ROOM, 1000, Vec::new(alloc))?;
    let status = run_alone(alloc, &words, &mut source, &mut sink);
    Ok((status, Vec::from_slice(alloc, sink.written())?))
}
