// Runs over objects in memory.
use dm_store::{MemoryClock, MemoryNames, MemorySink, MemorySource, MemoryStore, Store};
use dm_types::{Bytes, CountList, NameList, WholeList};
use script_run::run;
use std::alloc::Global;
use std::test::Fail;

/// The first commit file of the table `t`.
pub(crate) const ZERO: &str = "t/_delta_log/00000000000000000000.json";

/// A store that fails at these calls.
pub(crate) fn store_failing(alloc: Global, failing: &[u64]) -> Result<MemoryStore, Fail> {
    let failing = CountList::from_slice(alloc, failing)?;
    Ok(MemoryStore::new(alloc, failing, CountList::new(alloc))?)
}

/// The status of a run over the store, and what it wrote. The clock answers 5, 6 and 7, each name is of
/// sixteen zero bytes, and these draws fail.
pub(crate) fn ran<S: Store>(
    alloc: Global,
    store: &mut S,
    undrawn: &[u64],
    script: Bytes,
) -> Result<(u8, Bytes), Fail> {
    let mut source = MemorySource::new(script, CountList::new(alloc))?;
    let mut sink = MemorySink::new(alloc, CountList::new(alloc))?;
    let mut clock = MemoryClock::new(WholeList::from_slice(alloc, &[5, 6, 7])?)?;
    let undrawn = CountList::from_slice(alloc, undrawn)?;
    let zeros = NameList::from_slice(alloc, &[[0; 16], [0; 16], [0; 16]])?;
    let mut names = MemoryNames::new(zeros, undrawn)?;
    let status = run(
        alloc,
        &[],
        &mut source,
        store,
        &mut sink,
        &mut clock,
        &mut names,
    );
    Ok((status, sink.written().clone()?))
}

/// Whether a run of the script over an empty store ends and writes so.
pub(crate) fn runs_so(alloc: Global, script: &str, status: u8, text: &str) -> Result<bool, Fail> {
    let mut store = store_failing(alloc, &[])?;
    let script = Bytes::from_slice(alloc, script.as_bytes())?;
    let (found, written) = ran(alloc, &mut store, &[], script)?;
    Ok(found == status && written.as_slice() == text.as_bytes())
}
