// A sink in memory that never fails.
ghost use Rattle.std.specs.Prelude.{◌≡◌, [], IfOk};

use crate::faults::SinkFault;
use crate::traits::Sink;
use dm_types::Bytes;
use std::alloc::{AllocError, Global};

/// A sink that keeps what it is given. It never fails.
#[derive(Drop)]
pub struct SureSink {
    written: Bytes,
}

impl SureSink {
    ghost use Rattle.dm_store.specs.MemoryStreams.{sure_written};

    /// A sink that was given nothing.
    pub fn new(alloc: Global) -> Result<SureSink, AllocError>
        ensures { IfOk result (λ sink. sure_written sink ≡ []) }
    {
        Ok(SureSink {
            written: Bytes::new(alloc),
        })
    }

    /// The bytes that it was given.
    pub fn written(&self) -> &Bytes
        ensures { result.now ≡ sure_written self.now }
    {
        &self.written
    }
}

impl Sink for SureSink {
    ghost use Rattle.std.specs.Prelude.{Some};
    ghost use Rattle.dm_store.specs.MemoryStreams.{sure_written};

    ghost written = { λ s. Some (sure_written s) };

    ghost faults = { λ s. 0 };

    fn put(&mut self, bytes: &[u8]) -> Result<(), SinkFault> {
        self.written.extend_from_slice(bytes)?;
        Ok(())
    }
}
