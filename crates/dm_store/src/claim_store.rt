// A store that takes some paths for taken and lists some names besides.
ghost use Rattle.std.specs.Prelude.{◌≡◌, IfOk};

use crate::faults::{ListFault, PutFault, ReadFault};
use crate::memory_store::MemoryStore;
use crate::texts::{each_once, is_among, joined};
use crate::traits::Store;
use dm_types::{Bytes, TextList};
use std::alloc::{AllocError, Global};

/// A store before one in memory, as if a second writer were at work.
///
/// A put finds a claimed path taken, though no file has it, and a listing of any folder has the
/// added names besides. All else is as the store in memory has it. It tells no files.
#[derive(Drop)]
pub struct ClaimStore {
    inner: MemoryStore,
    claimed: TextList,
    added: TextList,
    taken: u64,
}

impl ClaimStore {
    ghost use Rattle.dm_store.specs.Claims.{claim_inner, claimed_paths, added_names, claim_taken};

    /// A store before this one. The first list has the paths that it takes for taken, the second the
    /// names that it lists besides.
    pub fn new(
        inner: MemoryStore,
        taken: TextList,
        added: TextList,
    ) -> Result<ClaimStore, AllocError>
        ensures inner { IfOk result (λ store. claim_inner store ≡ inner) }
        ensures claimed { IfOk result (λ store. claimed_paths store ≡ taken) }
        ensures added { IfOk result (λ store. added_names store ≡ added) }
        ensures count { IfOk result (λ store. claim_taken store ≡ 0) }
    {
        Ok(ClaimStore {
            inner,
            claimed: taken,
            added,
            taken: 0,
        })
    }
}

impl Store for ClaimStore {
    ghost use Rattle.std.specs.Prelude.{◌↔◌, Some, Err, true, false};
    ghost use Rattle.dm_store.specs.Claims.{claim_told, claim_inner, claimed_paths, added_names, claim_taken};
    ghost use Rattle.dm_store.specs.MemoryFiles.{memory_files, store_plan, store_appending, store_faults, PutsAsPlanned, failed_put};
    ghost use Rattle.dm_store.specs.Plan.{IsPlanned, next_call};
    ghost use Rattle.dm_store.specs.Causes.{Counts, ListCause, ReadCause, PutCause, TakenCause};
    ghost use Rattle.dm_store.specs.Files as spec;
    ghost use Rattle.dm_store.specs.Files.{Lists, ListsBoth, Reads, Puts, IsPresent};

    ghost files = { claim_told };

    ghost faults = { λ s. store_faults (claim_inner s) };

    ghost taken = { claim_taken };

    ghost distinct = { λ s. tt };

    fn list(&mut self, alloc: Global, dir: &str) -> Result<TextList, ListFault>
        ensures names { Lists dir.now (claim_told self.old) result }
        ensures kept { claim_told self.new ≡ claim_told self.old }
        ensures cause { Counts ListCause (store_faults (claim_inner self.old))
            (store_faults (claim_inner self.new)) result }
        ensures taken { claim_taken self.new ≡ claim_taken self.old }
        ensures both { ListsBoth dir.now (memory_files (claim_inner self.old)) (added_names self.old) result }
        ensures files { memory_files (claim_inner self.new) ≡ memory_files (claim_inner self.old) }
        ensures planned { (result ≡ Err ListFault.Failed) ↔ IsPlanned (store_plan (claim_inner self.old)) }
        ensures plan { store_plan (claim_inner self.new) ≡ next_call (store_plan (claim_inner self.old)) }
        ensures appending { store_appending (claim_inner self.new)
            ≡ next_call (store_appending (claim_inner self.old)) }
        ensures claimed { claimed_paths self.new ≡ claimed_paths self.old }
        ensures added { added_names self.new ≡ added_names self.old }
    {
        let names = self.inner.list(alloc, dir)?;
        let all = joined(names, self.added.as_slice())?;
        Ok(each_once(all))
    }

    fn read(&mut self, alloc: Global, path: &str) -> Result<Bytes, ReadFault>
        ensures bytes { Reads path.now (Some (memory_files (claim_inner self.old))) result }
        ensures kept { claim_told self.new ≡ claim_told self.old }
        ensures cause { Counts ReadCause (store_faults (claim_inner self.old))
            (store_faults (claim_inner self.new)) result }
        ensures taken { claim_taken self.new ≡ claim_taken self.old }
        ensures files { memory_files (claim_inner self.new) ≡ memory_files (claim_inner self.old) }
        ensures planned { (result ≡ Err ReadFault.Failed) ↔ IsPlanned (store_plan (claim_inner self.old))
            × IsPresent path.now (Some (memory_files (claim_inner self.old))) }
        ensures plan { store_plan (claim_inner self.new) ≡ next_call (store_plan (claim_inner self.old)) }
        ensures appending { store_appending (claim_inner self.new)
            ≡ next_call (store_appending (claim_inner self.old)) }
        ensures claimed { claimed_paths self.new ≡ claimed_paths self.old }
        ensures added { added_names self.new ≡ added_names self.old }
    {
        self.inner.read(alloc, path)
    }

    fn put_new(&mut self, path: &str, bytes: &[u8]) -> Result<(), PutFault>
        ensures puts { Puts path.now bytes.now (claim_told self.old) (claim_told self.new) result }
        ensures cause { Counts PutCause (store_faults (claim_inner self.old))
            (store_faults (claim_inner self.new)) result }
        ensures taken { Counts TakenCause (claim_taken self.old) (claim_taken self.new) result }
        // A claimed path is taken, and the store behind isn't asked; any other goes to it.
        ensures is_taken { spec.is_among path.now (claimed_paths self.old) ≡ true → result ≡ Err PutFault.Exists }
        ensures untouched { spec.is_among path.now (claimed_paths self.old) ≡ true → claim_inner self.new
            ≡ claim_inner self.old }
        ensures files { spec.is_among path.now (claimed_paths self.old) ≡ false
            → Puts path.now bytes.now (Some (memory_files (claim_inner self.old)))
            (Some (memory_files (claim_inner self.new))) result }
        ensures planned { PutsAsPlanned (store_plan (claim_inner self.old))
            (store_appending (claim_inner self.old)) result }
        ensures failed { result ≡ Err PutFault.Failed → memory_files (claim_inner self.new)
            ≡ failed_put (store_appending (claim_inner self.old)) path.now bytes.now
            (memory_files (claim_inner self.old)) }
        ensures plan { spec.is_among path.now (claimed_paths self.old) ≡ false → store_plan (claim_inner self.new)
            ≡ next_call (store_plan (claim_inner self.old)) }
        ensures appending { spec.is_among path.now (claimed_paths self.old) ≡ false
            → store_appending (claim_inner self.new) ≡ next_call (store_appending (claim_inner self.old)) }
        ensures claimed { claimed_paths self.new ≡ claimed_paths self.old }
        ensures added { added_names self.new ≡ added_names self.old }
    {
        let answer = if is_among(path, self.claimed.as_slice()) {
            Err(PutFault::Exists)
        } else {
            self.inner.put_new(path, bytes)
        };
        if answer == Err(PutFault::Exists) {
            self.taken = self.taken.saturating_add(1);
        }
        answer
    }
}
