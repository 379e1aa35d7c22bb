// A source of names in memory with draws that are to fail.
ghost use Rattle.std.specs.Prelude.{◌≡◌, IfOk};

use crate::faults::Failed;
use crate::plan::Plan;
use crate::sure_names::name_at;
use crate::traits::NameSource;
use dm_types::{CountList, NameList};
use std::alloc::AllocError;

/// A source that answers its names in order and then the number of the draw, with the highest byte
/// first, and has draws that are to fail. A draw that fails passes its name by. It tells its answers
/// until it had 2^64 - 1 draws.
#[derive(Drop)]
pub struct MemoryNames {
    names: NameList,
    plan: Plan,
    faults: u64,
}

impl MemoryNames {
    ghost use Rattle.dm_store.specs.MemoryAnswers.{memory_names, names_plan};

    /// A source of the names. The second list has the numbers of the draws that are to fail,
    /// counted from 1.
    pub fn new(names: NameList, failing: CountList) -> Result<MemoryNames, AllocError>
        ensures names { IfOk result (λ source. memory_names source ≡ names) }
        ensures plan { IfOk result (λ source. names_plan source ≡ (0, failing)) }
    {
        Ok(MemoryNames {
            names,
            plan: Plan::new(failing),
            faults: 0,
        })
    }
}

impl NameSource for MemoryNames {
    ghost use Rattle.std.specs.Prelude.{◌↔◌, IsErr};
    ghost use Rattle.dm_store.specs.Answers as spec;
    ghost use Rattle.dm_store.specs.MemoryAnswers.{memory_names, names_faults, names_given, names_plan};
    ghost use Rattle.dm_store.specs.Plan.{IsPlanned, next_call};
    ghost use Rattle.dm_store.specs.Causes.{Counts, FailedCause};
    ghost use Rattle.dm_store.specs.Given.{Draws};

    ghost given = { names_given };

    ghost faults = { names_faults };

    fn draw(&mut self) -> Result<[u8; 16], Failed>
        ensures given { Draws (names_given self.old) (names_given self.new) result }
        ensures cause { Counts FailedCause (names_faults self.old) (names_faults self.new) result }
        ensures name { IfOk result (λ name. name ≡ spec.name_at (memory_names self.old) (names_plan self.new).0) }
        ensures names { memory_names self.new ≡ memory_names self.old }
        ensures planned { IsErr result ↔ IsPlanned (names_plan self.old) }
        ensures plan { names_plan self.new ≡ next_call (names_plan self.old) }
    {
        if self.plan.next_fails() {
            self.faults = self.faults.saturating_add(1);
            return Err(Failed);
        }
        Ok(name_at(self.names.as_slice(), self.plan.calls))
    }
}
