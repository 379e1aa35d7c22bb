// A store in memory that never fails.
ghost use Rattle.std.specs.Prelude.{◌≡◌, ◌≢◌, ◌↔◌, None, IsTrue, IfOk};
ghost use Rattle.std.proofs.lemmas.Map.Keys.{IsDistinct-prop};
ghost use Rattle.std.specs.Str.{bytes_eq};
ghost use Rattle.std.specs.Map.{keys_of};
ghost use Rattle.dm_store.specs.Files.{ArePathsDistinct};

use crate::faults::{ListFault, PutFault, ReadFault};
use crate::finds::{find, names_below};
use crate::traits::Store;
use dm_types::{Bytes, PathBytes, Text, TextList};
use std::alloc::{AllocError, Global};

/// A store that keeps its files in memory. It never fails.
#[derive(Drop)]
pub struct SureStore {
    alloc: Global,
    files: PathBytes,
    taken: u64,
    ghost distinct: { ArePathsDistinct files } by { IsDistinct-prop bytes_eq (keys_of files) },
}

impl SureStore {
    ghost use Rattle.std.specs.Prelude.{[]};
    ghost use Rattle.dm_store.specs.Files.{lookup};
    ghost use Rattle.dm_store.specs.MemoryFiles.{sure_files};

    /// A store with no files.
    pub fn new(alloc: Global) -> Result<SureStore, AllocError>
        ensures { IfOk result (λ store. sure_files store ≡ []) }
    {
        Ok(SureStore {
            alloc,
            files: PathBytes::new(alloc),
            taken: 0,
        })
    }

    /// The files in the order in which they were put.
    pub fn files(&self) -> &PathBytes
        ensures { result.now ≡ sure_files self.now }
    {
        &self.files
    }

    // Whether a file has the path.
    pub(crate) fn has(&self, path: &str) -> bool
        ensures { IsTrue result ↔ (lookup path.now (sure_files self.now) ≢ None) }
    {
        find(self.files.as_slice(), path).is_some()
    }
}

impl Store for SureStore {
    ghost use Rattle.std.specs.Prelude.{Some};
    ghost use Rattle.dm_store.specs.MemoryFiles.{sure_files, sure_taken};

    ghost files = { λ s. Some (sure_files s) };

    ghost faults = { λ s. 0 };

    ghost taken = { sure_taken };

    ghost distinct = { λ s. s.distinct };

    fn list(&mut self, alloc: Global, dir: &str) -> Result<TextList, ListFault> {
        Ok(names_below(alloc, self.files.as_slice(), dir)?)
    }

    fn read(&mut self, _alloc: Global, path: &str) -> Result<Bytes, ReadFault> {
        match find(self.files.as_slice(), path) {
            None => Err(ReadFault::Absent),
            Some(bytes) => Ok(bytes.clone()?),
        }
    }

    fn put_new(&mut self, path: &str, bytes: &[u8]) -> Result<(), PutFault> {
        if self.has(path) {
            self.taken = self.taken.saturating_add(1);
            return Err(PutFault::Exists);
        }
        let file = (
            Text::from_str(self.alloc, path)?,
            Bytes::from_slice(self.alloc, bytes)?,
        );
        self.files.push(file)?;
        Ok(())
    }
}
