// Reading a source to its end.
ghost use Rattle.std.specs.Prelude.{◌≡◌, ◌≤◌, ◌+◌, ◌++◌, ℕ, List, length, IsErrOf};
ghost use Rattle.seq_io.specs.Count.{HasCause};
ghost use Rattle.seq_io.specs.Source.{Consumes};
ghost use Rattle.seq_io.specs.Reading.{IsReading};
ghost use Rattle.seq_io.specs.declared.reading.ReadRefusal.TheVariants.{Memory};

use crate::source::Source;
use std::alloc::{AllocError, Global};
use thiserror::Error;

// How many bytes are asked for at a time.
const PIECE: usize = 4096;

/// Why a source wasn't read to its end.
#[derive(Clone, Copy, Debug, PartialEq, Eq, Error)]
pub enum ReadRefusal {
    /// The source counted a fault.
    #[error("a read failed")]
    ReadFault,
    /// More bytes came than the limit.
    #[error("the input is too long")]
    TooLong,
    /// No memory was found for the bytes.
    #[error("out of memory")]
    Memory,
}

impl From<AllocError> for ReadRefusal {
    ghost from_gives = { λ _ e. e ≡ Memory };

    fn from(_: AllocError) -> Self {
        ReadRefusal::Memory
    }
}

/// All the bytes of a source, up to its end, if they are at most `limit` bytes. It never asks for
/// more than `limit + 1` bytes in all, and answers `TooLong` as soon as that many were taken.
/// `ReadFault` comes where a read failed, and `Memory` where no memory was found for the bytes;
/// then what was taken is dropped.
pub fn read_whole<S: Source>(
    alloc: Global,
    source: &mut S,
    limit: u32,
) -> Result<Vec<u8>, ReadRefusal>
    ensures whole { (taken : List ℕ) × Consumes (S.left source.old) (S.left source.new) taken
        × IsReading result (S.left source.new) taken limit }
    ensures cause { HasCause (S.faults source.old) (S.faults source.new)
        (IsErrOf result ReadRefusal.ReadFault) }
{
    let mut bytes = Vec::new(alloc);
    let mut piece = [0; PIECE];
    loop {
        let most = PIECE.min(limit as usize + 1 - bytes.len());
        let Ok(n) = source.read(&mut piece[..most]) else {
            return Err(ReadRefusal::ReadFault);
        };
        if n == 0 {
            return Ok(bytes);
        }
        if bytes.len() + n > limit as usize {
            return Err(ReadRefusal::TooLong);
        }
        bytes.extend_from_slice(&piece[..n])?;
    }
}
