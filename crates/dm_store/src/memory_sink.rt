// A sink in memory with calls that are to fail.
ghost use Rattle.std.specs.Prelude.{◌≡◌, [], IfOk};

use crate::faults::SinkFault;
use crate::plan::Plan;
use crate::sure_sink::SureSink;
use crate::traits::Sink;
use dm_types::{Bytes, CountList};
use std::alloc::{AllocError, Global};

/// A sink that keeps what it is given, with calls that are to fail. A call that fails writes
/// nothing.
#[derive(Drop)]
pub struct MemorySink {
    sure: SureSink,
    plan: Plan,
    faults: u64,
}

impl MemorySink {
    ghost use Rattle.dm_store.specs.MemoryStreams.{sink_written, sink_plan};

    /// A sink that was given nothing. The list has the numbers of the calls that are to fail,
    /// counted from 1.
    pub fn new(alloc: Global, failing: CountList) -> Result<MemorySink, AllocError>
        ensures written { IfOk result (λ sink. sink_written sink ≡ []) }
        ensures plan { IfOk result (λ sink. sink_plan sink ≡ (0, failing)) }
    {
        Ok(MemorySink {
            sure: SureSink::new(alloc)?,
            plan: Plan::new(failing),
            faults: 0,
        })
    }

    /// The bytes that it was given.
    pub fn written(&self) -> &Bytes
        ensures { result.now ≡ sink_written self.now }
    {
        self.sure.written()
    }
}

impl Sink for MemorySink {
    ghost use Rattle.std.specs.Prelude.{◌↔◌, Some, Err};
    ghost use Rattle.dm_store.specs.MemoryStreams.{sink_written, sink_faults, sink_plan};
    ghost use Rattle.dm_store.specs.Plan.{IsPlanned, next_call};
    ghost use Rattle.dm_store.specs.Streams.{Writes};
    ghost use Rattle.dm_store.specs.Causes.{Counts, SinkCause};

    ghost written = { λ s. Some (sink_written s) };

    ghost faults = { sink_faults };

    fn put(&mut self, bytes: &[u8]) -> Result<(), SinkFault>
        ensures writes { Writes bytes.now (Some (sink_written self.old)) (Some (sink_written self.new)) result }
        ensures cause { Counts SinkCause (sink_faults self.old) (sink_faults self.new) result }
        ensures planned { (result ≡ Err SinkFault.Failed) ↔ IsPlanned (sink_plan self.old) }
        ensures failed { result ≡ Err SinkFault.Failed → sink_written self.new ≡ sink_written self.old }
        ensures plan { sink_plan self.new ≡ next_call (sink_plan self.old) }
    {
        if self.plan.next_fails() {
            self.faults = self.faults.saturating_add(1);
            return Err(SinkFault::Failed);
        }
        self.sure.put(bytes)
    }
}
