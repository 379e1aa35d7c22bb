// A source over bytes in memory with calls that are to fail.
ghost use Rattle.std.specs.Prelude.{◌≡◌, IfOk};

use crate::faults::Failed;
use crate::plan::Plan;
use crate::sure_source::SureSource;
use crate::traits::Source;
use dm_types::{Bytes, CountList};
use std::alloc::AllocError;

/// A source over bytes in memory, with calls that are to fail.
#[derive(Drop)]
pub struct MemorySource {
    sure: SureSource,
    plan: Plan,
    faults: u64,
}

impl MemorySource {
    ghost use Rattle.dm_store.specs.MemoryStreams.{source_left, source_plan};

    /// A source of the bytes. The list has the numbers of the calls that are to fail, counted from
    /// 1.
    pub fn new(bytes: Bytes, failing: CountList) -> Result<MemorySource, AllocError>
        ensures left { IfOk result (λ source. source_left source ≡ bytes) }
        ensures plan { IfOk result (λ source. source_plan source ≡ (0, failing)) }
    {
        Ok(MemorySource {
            sure: SureSource::new(bytes)?,
            plan: Plan::new(failing),
            faults: 0,
        })
    }
}

impl Source for MemorySource {
    ghost use Rattle.std.specs.Prelude.{◌↔◌, Some, IsErr};
    ghost use Rattle.std.specs.Io.{ReadsAtMost};
    ghost use Rattle.std.specs.Io.KnownBytes.{ReadConsumes};
    ghost use Rattle.dm_store.specs.MemoryStreams.{source_left, source_faults, source_plan};
    ghost use Rattle.dm_store.specs.Plan.{IsPlanned, next_call};
    ghost use Rattle.dm_store.specs.Causes.{Counts, FailedCause};

    ghost left = { λ s. Some (source_left s) };

    ghost faults = { source_faults };

    fn take(&mut self, buf: &mut [u8]) -> Result<usize, Failed>
        ensures bound { ReadsAtMost result buf.new }
        ensures bytes { ReadConsumes (Some (source_left self.old)) (Some (source_left self.new)) result buf.new }
        ensures cause { Counts FailedCause (source_faults self.old) (source_faults self.new) result }
        ensures planned { IsErr result ↔ IsPlanned (source_plan self.old) }
        ensures plan { source_plan self.new ≡ next_call (source_plan self.old) }
    {
        if self.plan.next_fails() {
            self.faults = self.faults.saturating_add(1);
            return Err(Failed);
        }
        self.sure.take(buf)
    }
}
