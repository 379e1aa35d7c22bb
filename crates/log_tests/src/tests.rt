// Tests of delta_actions, log_replay, table_features, table_log, table_load and commit_log.
mod actions;
mod features;
mod loaded;
mod names;
mod needed;
mod put;
mod replayed;

use dm_store::{MemoryStore, Store};
use dm_types::{CountList, PathBytes};
use std::alloc::Global;
use std::test::Fail;

// A path and the bytes there.
type File = (&'static str, &'static str);

const ZERO: &str = "t/_delta_log/00000000000000000000.json";

const ONE: &str = "t/_delta_log/00000000000000000001.json";

const THREE: &str = "t/_delta_log/00000000000000000003.json";

// A store of these files, the first put being its first call, with calls that are to fail.
fn store_of(alloc: Global, files: &[File], failing: &[u64]) -> Result<MemoryStore, Fail> {
    let failing = CountList::from_slice(alloc, failing)?;
    let mut store = MemoryStore::new(alloc, failing, CountList::new(alloc))?;
    for (path, text) in files {
        store.put_new(path, text.as_bytes())?;
    }
    Ok(store)
}

// Whether these are the files, in this order.
fn are(files: &PathBytes, wanted: &[File]) -> bool {
    if files.len() != wanted.len() {
        return false;
    }
    for place in 0..files.len() {
        let (path, bytes) = files.get(place);
        let (path_wanted, text) = wanted[place];
        if path.as_str() != path_wanted || bytes.as_slice() != text.as_bytes() {
            return false;
        }
    }
    true
}
