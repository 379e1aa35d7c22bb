// The outside: a store of files, a source, a sink, a clock and a source of names.
ghost use Rattle.std.specs.Prelude.{◌≡◌, ℕ, ℤ, List, Option};
ghost use Rattle.std.specs.Io.{ReadsAtMost};
ghost use Rattle.std.specs.Io.KnownBytes.{ReadConsumes};
ghost use Rattle.dm_store.specs.Causes.{Counts, ListCause, ReadCause, PutCause, TakenCause, SinkCause, FailedCause};
ghost use Rattle.dm_store.specs.Files.{Files, Lists, Reads, Puts, WhereTold, ArePathsDistinct};
ghost use Rattle.dm_store.specs.Given.{Gave, Draws};
ghost use Rattle.dm_store.specs.Streams.{Writes};

use crate::faults::{Failed, ListFault, PutFault, ReadFault, SinkFault};
use dm_types::{Bytes, TextList};
use std::alloc::Global;

/// A store of files, in which a path is written once.
///
/// A path is a text of segments parted by `/`, relative to the root of the store.
pub trait Store {
    /// The files in the order in which they were put, where the store tells them.
    ghost files: { Self → Option Files };

    /// How often a call failed. It never falls, and stands still at the end of a `u64`.
    ghost faults: { Self → ℕ };

    /// How often a put found its path taken. It never falls.
    ghost taken: { Self → ℕ };

    /// The names of the files directly below a folder, in any order. An absent folder has none.
    fn list(&mut self, alloc: Global, dir: &str) -> Result<TextList, ListFault>
        ensures names { Lists dir.now (files self.old) result }
        ensures kept { files self.new ≡ files self.old }
        ensures cause { Counts ListCause (faults self.old) (faults self.new) result }
        ensures taken { taken self.new ≡ taken self.old };

    /// The whole bytes of a file.
    fn read(&mut self, alloc: Global, path: &str) -> Result<Bytes, ReadFault>
        ensures bytes { Reads path.now (files self.old) result }
        ensures kept { files self.new ≡ files self.old }
        ensures cause { Counts ReadCause (faults self.old) (faults self.new) result }
        ensures taken { taken self.new ≡ taken self.old };

    /// Adds a file whose path is new.
    fn put_new(&mut self, path: &str, bytes: &[u8]) -> Result<(), PutFault>
        ensures puts { Puts path.now bytes.now (files self.old) (files self.new) result }
        ensures cause { Counts PutCause (faults self.old) (faults self.new) result }
        ensures taken { Counts TakenCause (taken self.old) (taken self.new) result };

    /// No path stands twice.
    ghost distinct: { (store : Self) → WhereTold (files store) ArePathsDistinct };
}

/// A source of bytes.
pub trait Source {
    /// The bytes that are left, where the source tells them.
    ghost left: { Self → Option (List ℕ) };

    /// How often a call failed. It never falls, and stands still at the end of a `u64`.
    ghost faults: { Self → ℕ };

    /// Moves bytes to the front of the buffer and gives their number, which is 0 only at the end or
    /// where the buffer is empty.
    fn take(&mut self, buf: &mut [u8]) -> Result<usize, Failed>
        ensures bound { ReadsAtMost result buf.new }
        ensures bytes { ReadConsumes (left self.old) (left self.new) result buf.new }
        ensures cause { Counts FailedCause (faults self.old) (faults self.new) result };
}

/// A sink of bytes.
pub trait Sink {
    /// The bytes that were written, where the sink tells them.
    ghost written: { Self → Option (List ℕ) };

    /// How often a call failed. It never falls, and stands still at the end of a `u64`.
    ghost faults: { Self → ℕ };

    /// Writes a whole piece; a failed call may have written a front of it.
    fn put(&mut self, bytes: &[u8]) -> Result<(), SinkFault>
        ensures writes { Writes bytes.now (written self.old) (written self.new) result }
        ensures cause { Counts SinkCause (faults self.old) (faults self.new) result };
}

/// A clock. Nothing is promised about the answers themselves.
pub trait Clock {
    /// Its answers so far, where the clock tells them.
    ghost given: { Self → Option (List ℤ) };

    /// Milliseconds since 1970-01-01 00:00 UTC.
    fn now_ms(&mut self) -> i64
        ensures given { Gave (given self.old) (given self.new) result };
}

/// A source of names of sixteen bytes. Nothing is promised about the answers themselves.
pub trait NameSource {
    /// Its answers so far, without the draws that failed, where the source tells them.
    ghost given: { Self → Option (List (List ℕ)) };

    /// How often a draw failed. It never falls, and stands still at the end of a `u64`.
    ghost faults: { Self → ℕ };

    /// The next name.
    fn draw(&mut self) -> Result<[u8; 16], Failed>
        ensures given { Draws (given self.old) (given self.new) result }
        ensures cause { Counts FailedCause (faults self.old) (faults self.new) result };
}
