//! Readers and writers of std as sources and sinks, which fail in the midst.

use seq_io::{
    MemSink, MemSource, ReadRefusal, StdSink, StdSource, WriteFault, put_number, read_whole,
    write_whole,
};
use std::io;
use std::io::{ErrorKind, Read};
use std::test::Fail;

// Gives bytes one at a time, and fails once before the third.
#[derive(Drop)]
struct FailsOnce<'a> {
    bytes: &'a [u8],
    reads: u8,
}

impl Read for FailsOnce<'_> {
    fn read(&mut self, buf: &mut [u8]) -> io::Result<usize> {
        self.reads = self.reads.saturating_add(1);
        if self.reads == 3 {
            return Err(io::Error::from(ErrorKind::Other));
        }
        match (self.bytes, buf) {
            ([first, rest @ ..], [place, ..]) => {
                *place = *first;
                self.bytes = rest;
                Ok(1)
            }
            _ => Ok(0),
        }
    }
}

#[test]
fn bytes_are_read_and_written(rt: HostRuntime) -> Result<(), Fail> {
    let alloc = rt.alloc();
    let mut source = MemSource::new(Vec::from_slice(alloc, b"gain ")?, 2, Vec::new(alloc));
    let mut bytes = read_whole(alloc, &mut source, 5)?;
    put_number(&mut bytes, 2020)?;
    let mut sink = MemSink::new(alloc, 9, 4, Vec::new(alloc))?;
    write_whole(&mut sink, &bytes)?;
    assert_eq!(rt; sink.written(), b"gain 2020".as_slice());
    Ok(())
}

#[test]
fn std_readers_and_writers_are_adapted(rt: HostRuntime) -> Result<(), Fail> {
    let alloc = rt.alloc();
    let mut input = StdSource::new(b"orbit".as_slice());
    let bytes = read_whole(alloc, &mut input, 5)?;
    assert_eq!(rt; bytes.as_slice(), b"orbit".as_slice());
    let mut copy = Vec::new(alloc);
    let mut output = StdSink::new(&mut copy);
    write_whole(&mut output, bytes.as_slice())?;
    assert_eq!(rt; copy.as_slice(), b"orbit".as_slice());
    Ok(())
}

#[test]
fn a_reader_that_fails_in_mid_stream_goes_on(rt: HostRuntime) -> Result<(), Fail> {
    let alloc = rt.alloc();
    let mut input = StdSource::new(FailsOnce {
        bytes: b"orbit",
        reads: 0,
    });
    assert_eq!(rt;
        read_whole(alloc, &mut input, 5).err(),
        Some(ReadRefusal::ReadFault)
    );
    let rest = read_whole(alloc, &mut input, 5)?;
    assert_eq!(rt; rest.as_slice(), b"bit".as_slice());
    Ok(())
}

#[test]
fn a_writer_that_takes_nothing_fails(rt: HostRuntime) {
    let mut room = [0; 3];
    let mut output = StdSink::new(room.as_mut_slice());
    assert_eq!(rt; write_whole(&mut output, b"orbit"), Err(WriteFault));
    assert_eq!(rt; room.as_slice(), b"orb".as_slice());
}
