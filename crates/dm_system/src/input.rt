// A reader as a source, as standard input.
ghost use Rattle.std.specs.Prelude.{◌≡◌};
ghost use Rattle.std.specs.Io.{ReadsAtMost};
ghost use Rattle.std.specs.Io.KnownBytes.{ReadConsumes};

use dm_store::{Failed, Source};
use std::io;
use std::io::{ErrorKind, Read};

/// A source over a reader. It tells what is left where the reader does; standard input doesn't.
#[derive(Drop)]
pub struct ReaderSource<I> {
    reader: I,
    /// How often a call failed.
    pub faults: u64,
}

impl<I> ReaderSource<I> {
    /// A source whose calls haven't failed.
    pub fn new(reader: I) -> ReaderSource<I>
        ensures { result.faults ≡ 0 }
    {
        ReaderSource { reader, faults: 0 }
    }
}

impl<I: Read> Source for ReaderSource<I> {
    ghost left = { λ s. I.remaining s.reader };

    ghost faults = { λ s. s.faults };

    fn take(&mut self, buf: &mut [u8]) -> Result<usize, Failed> {
        match read_again(&mut self.reader, buf) {
            Ok(count) => Ok(count),
            Err(_) => {
                self.faults = self.faults.saturating_add(1);
                Err(Failed)
            }
        }
    }
}

// One read; one that is interrupted is made again.
fn read_again<I: Read>(reader: &mut I, buf: &mut [u8]) -> io::Result<usize>
    ensures bound { ReadsAtMost result buf.new }
    ensures bytes { ReadConsumes (I.remaining reader.old) (I.remaining reader.new) result buf.new }
{
    for _turn in 0..u64::MAX {
        match reader.read(buf) {
            Err(error) if error.kind() == ErrorKind::Interrupted => {}
            answer => return answer,
        }
    }
    Err(io::Error::from(ErrorKind::Interrupted))
}
