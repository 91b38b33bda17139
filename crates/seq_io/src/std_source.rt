// The edge to std's readers: what a reader's stream holds is told in the words of std, and not by the trait.
ghost use Rattle.std.specs.Prelude.{◌≡◌, ◌≤◌, length, IfOk, IsErr};
ghost use Rattle.std.specs.Io.KnownBytes.{ReadConsumes};
ghost use Rattle.seq_io.specs.Count.{HasCause};

use crate::count::next_count;
use crate::failed::Failed;
use crate::source::Source;
use std::io::Read;
use std::marker::Model;

/// A source over one of std's readers. As a source it tells no bytes, whatever the reader could tell, and each error of
/// the reader is a counted fault, an interrupted read among them.
#[derive(Drop)]
pub struct StdSource<R: Read + Drop> {
    reader: R,
    faults: u64,
}

impl<R: Read + Drop> Model for StdSource<R> {
    ghost use Rattle.seq_io.specs.Adapter.{ReaderState};

    ghost Value = { ReaderState R };

    ghost view = { λ s. record { reader = s.reader; faults = s.faults } };
}

impl<R: Read + Drop> StdSource<R> {
    /// A source over `reader`, with no fault yet.
    pub fn new(reader: R) -> Self
        ensures { result ≡ record { reader = reader; faults = 0 } }
    {
        StdSource { reader, faults: 0 }
    }
}

impl<R: Read + Drop> Source for StdSource<R> {
    ghost use Rattle.std.specs.Prelude.{None};

    ghost left = { λ _. None };

    ghost faults = { λ s. s.faults };

    fn read(&mut self, buf: &mut [u8]) -> Result<usize, Failed>
        // What the reader gave, where it tells its bytes: these, or at an error none.
        ensures bytes { ReadConsumes (R.remaining self.old.reader) (R.remaining self.new.reader) result buf.new }
        ensures bound { IfOk result (λ n. n ≤ length buf.new) }
        ensures cause { HasCause self.old.faults self.new.faults (IsErr result) }
    {
        match self.reader.read(buf) {
            Ok(n) => Ok(n),
            Err(_) => {
                self.faults = next_count(self.faults);
                Err(Failed)
            }
        }
    }
}
