// A writer as a sink, as standard output.
ghost use Rattle.std.specs.Prelude.{◌≡◌};
ghost use Rattle.std.specs.Io.{WritesAtMost};
ghost use Rattle.std.specs.Io.KnownBytes.{WriteAppends};
ghost use Rattle.dm_system.specs.Pieces.{WritesWhole};

use dm_store::{Sink, SinkFault};
use std::io;
use std::io::{ErrorKind, Write};

/// A sink over a writer. It tells what was written where the writer does; standard output doesn't.
#[derive(Drop)]
pub struct WriterSink<W> {
    writer: W,
    /// How often a call failed.
    pub faults: u64,
}

impl<W> WriterSink<W> {
    /// A sink whose calls haven't failed.
    pub fn new(writer: W) -> WriterSink<W>
        ensures { result.faults ≡ 0 }
    {
        WriterSink { writer, faults: 0 }
    }
}

impl<W: Write> Sink for WriterSink<W> {
    ghost written = { λ s. W.contents s.writer };

    ghost faults = { λ s. s.faults };

    fn put(&mut self, bytes: &[u8]) -> Result<(), SinkFault> {
        match write_whole(&mut self.writer, bytes) {
            Ok(()) => Ok(()),
            Err(_) => {
                self.faults = self.faults.saturating_add(1);
                Err(SinkFault::Failed)
            }
        }
    }
}

// Writes the whole piece and flushes it. A write that takes nothing is a fault.
pub(crate) fn write_whole<W: Write>(writer: &mut W, piece: &[u8]) -> io::Result<()>
    ensures { WritesWhole piece.now (W.contents writer.old) (W.contents writer.new) result }
{
    let mut done = 0;
    while done < piece.len() {
        let count = write_again(writer, &piece[done..])?;
        if count == 0 {
            return Err(io::Error::from(ErrorKind::WriteZero));
        }
        done += count;
    }
    writer.flush()
}

// One write; one that is interrupted before it takes anything is made again.
fn write_again<W: Write>(writer: &mut W, bytes: &[u8]) -> io::Result<usize>
    ensures bound { WritesAtMost result bytes.now }
    ensures bytes { WriteAppends (W.contents writer.old) (W.contents writer.new) result bytes.now }
{
    for _turn in 0..u64::MAX {
        match writer.write(bytes) {
            Err(error) if error.kind() == ErrorKind::Interrupted => {}
            answer => return answer,
        }
    }
    Err(io::Error::from(ErrorKind::Interrupted))
}
