// A source over bytes in memory that never fails.
ghost use Rattle.std.specs.Prelude.{◌≡◌, ◌≤◌, length, IfOk};

use crate::faults::Failed;
use crate::traits::Source;
use dm_types::Bytes;
use std::alloc::AllocError;

/// A source over bytes in memory. It never fails.
#[derive(Drop)]
pub struct SureSource {
    bytes: Bytes,
    at: usize,
    ghost within: { at ≤ length bytes },
}

impl SureSource {
    ghost use Rattle.dm_store.specs.MemoryStreams.{sure_left};

    /// A source of the bytes.
    pub fn new(bytes: Bytes) -> Result<SureSource, AllocError>
        ensures { IfOk result (λ source. sure_left source ≡ bytes) }
    {
        Ok(SureSource { bytes, at: 0 })
    }
}

impl Source for SureSource {
    ghost use Rattle.std.specs.Prelude.{Some};
    ghost use Rattle.dm_store.specs.MemoryStreams.{sure_left};

    ghost left = { λ s. Some (sure_left s) };

    ghost faults = { λ s. 0 };

    fn take(&mut self, buf: &mut [u8]) -> Result<usize, Failed> {
        let rest = &self.bytes.as_slice()[self.at..];
        let count = rest.len().min(buf.len());
        buf[..count].copy_from_slice(&rest[..count]);
        self.at += count;
        Ok(count)
    }
}
