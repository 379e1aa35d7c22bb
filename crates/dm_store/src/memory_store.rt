// A store in memory with calls that are to fail.
ghost use Rattle.std.specs.Prelude.{◌≡◌, IfOk};

use crate::faults::{ListFault, PutFault, ReadFault};
use crate::plan::{Plan, has};
use crate::sure_store::SureStore;
use crate::traits::Store;
use dm_types::{Bytes, CountList, PathBytes, TextList};
use std::alloc::{AllocError, Global};

/// A store that keeps its files in memory, with calls that are to fail.
///
/// A call that is to fail and has to answer `Absent` or `Exists` answers that. A put that fails
/// leaves the files as they were, or appends the whole file where that is planned.
#[derive(Drop)]
pub struct MemoryStore {
    sure: SureStore,
    plan: Plan,
    appending: CountList,
    faults: u64,
}

impl MemoryStore {
    ghost use Rattle.std.specs.Prelude.{[]};
    ghost use Rattle.dm_store.specs.MemoryFiles.{memory_files, store_plan, store_appending};

    /// A store with no files. The first list has the numbers of the calls that are to fail, counted
    /// from 1 over all calls. A failing put whose number is in the second list too appends its file.
    pub fn new(
        alloc: Global,
        failing: CountList,
        appending: CountList,
    ) -> Result<MemoryStore, AllocError>
        ensures files { IfOk result (λ store. memory_files store ≡ []) }
        ensures plan { IfOk result (λ store. store_plan store ≡ (0, failing)) }
        ensures appending { IfOk result (λ store. store_appending store ≡ (0, appending)) }
    {
        Ok(MemoryStore {
            sure: SureStore::new(alloc)?,
            plan: Plan::new(failing),
            appending,
            faults: 0,
        })
    }

    /// The files in the order in which they were put.
    pub fn files(&self) -> &PathBytes
        ensures { result.now ≡ memory_files self.now }
    {
        self.sure.files()
    }
}

impl Store for MemoryStore {
    ghost use Rattle.std.specs.Prelude.{◌↔◌, Some, Err};
    ghost use Rattle.dm_store.specs.MemoryFiles.{memory_files, store_plan, store_appending, store_faults, store_taken, PutsAsPlanned, failed_put};
    ghost use Rattle.dm_store.specs.Plan.{IsPlanned, next_call};
    ghost use Rattle.dm_store.specs.Causes.{Counts, ListCause, ReadCause, PutCause, TakenCause};
    ghost use Rattle.dm_store.specs.Files.{Lists, Reads, Puts, IsPresent};

    ghost files = { λ s. Some (memory_files s) };

    ghost faults = { store_faults };

    ghost taken = { store_taken };

    ghost distinct = { λ s. s.sure.distinct };

    fn list(&mut self, alloc: Global, dir: &str) -> Result<TextList, ListFault>
        ensures names { Lists dir.now (Some (memory_files self.old)) result }
        ensures kept { memory_files self.new ≡ memory_files self.old }
        ensures cause { Counts ListCause (store_faults self.old) (store_faults self.new) result }
        ensures taken { store_taken self.new ≡ store_taken self.old }
        ensures planned { (result ≡ Err ListFault.Failed) ↔ IsPlanned (store_plan self.old) }
        ensures plan { store_plan self.new ≡ next_call (store_plan self.old) }
        ensures appending { store_appending self.new ≡ next_call (store_appending self.old) }
    {
        if self.plan.next_fails() {
            self.faults = self.faults.saturating_add(1);
            return Err(ListFault::Failed);
        }
        self.sure.list(alloc, dir)
    }

    fn read(&mut self, alloc: Global, path: &str) -> Result<Bytes, ReadFault>
        ensures bytes { Reads path.now (Some (memory_files self.old)) result }
        ensures kept { memory_files self.new ≡ memory_files self.old }
        ensures cause { Counts ReadCause (store_faults self.old) (store_faults self.new) result }
        ensures taken { store_taken self.new ≡ store_taken self.old }
        // It fails exactly where that is planned and the path has a file.
        ensures planned { (result ≡ Err ReadFault.Failed) ↔ IsPlanned (store_plan self.old)
            × IsPresent path.now (Some (memory_files self.old)) }
        ensures plan { store_plan self.new ≡ next_call (store_plan self.old) }
        ensures appending { store_appending self.new ≡ next_call (store_appending self.old) }
    {
        if self.plan.next_fails() && self.sure.has(path) {
            self.faults = self.faults.saturating_add(1);
            return Err(ReadFault::Failed);
        }
        self.sure.read(alloc, path)
    }

    fn put_new(&mut self, path: &str, bytes: &[u8]) -> Result<(), PutFault>
        ensures puts { Puts path.now bytes.now (Some (memory_files self.old)) (Some (memory_files self.new)) result }
        ensures cause { Counts PutCause (store_faults self.old) (store_faults self.new) result }
        ensures taken { Counts TakenCause (store_taken self.old) (store_taken self.new) result }
        ensures planned { PutsAsPlanned (store_plan self.old) (store_appending self.old) result }
        ensures failed { result ≡ Err PutFault.Failed → memory_files self.new
            ≡ failed_put (store_appending self.old) path.now bytes.now (memory_files self.old) }
        ensures plan { store_plan self.new ≡ next_call (store_plan self.old) }
        ensures appending { store_appending self.new ≡ next_call (store_appending self.old) }
    {
        if !self.plan.next_fails() || self.sure.has(path) {
            return self.sure.put_new(path, bytes);
        }
        if has(&self.appending, self.plan.calls) {
            self.sure.put_new(path, bytes)?;
        }
        self.faults = self.faults.saturating_add(1);
        Err(PutFault::Failed)
    }
}
