// Whole runs of SHOW ROWS over objects in memory.
use super::deletes::{TRACKED, store_with};
use super::{Failing, NONE, ZERO};
use dm_store::{MemoryClock, MemoryNames, MemorySink, MemorySource, Store};
use dm_types::{Bytes, CountList, NameList, WholeList};
use script_run::run;
use std::alloc::Global;
use std::test::Fail;

const TEXT: &str = "id\tversion\tk\tv\n0\t0\t3\t\\N\n";

// The status of a run over a store, and what it wrote. No name can be drawn.
fn ran_over<S: Store>(
    alloc: Global,
    store: &mut S,
    sink: &mut MemorySink,
    script: &str,
) -> Result<u8, Fail> {
    let script = Bytes::from_slice(alloc, script.as_bytes())?;
    let undrawn = CountList::from_slice(alloc, &[1])?;
    Ok(run(
        alloc,
        &[],
        &mut MemorySource::new(script, CountList::new(alloc))?,
        store,
        sink,
        &mut MemoryClock::new(WholeList::new(alloc))?,
        &mut MemoryNames::new(NameList::new(alloc), undrawn)?,
    ))
}

// The same over the table, with calls of store and sink that are to fail.
fn ran(alloc: Global, failing: &Failing, script: &str) -> Result<(u8, Bytes), Fail> {
    let mut store = store_with(alloc, &[(ZERO, TRACKED)], failing.store, &[])?;
    let mut sink = MemorySink::new(alloc, CountList::from_slice(alloc, failing.sink)?)?;
    let status = ran_over(alloc, &mut store, &mut sink, script)?;
    Ok((status, sink.written().clone()?))
}

// The store's first two calls put the table; SHOW ROWS lists, reads the commit and reads the data file.
#[test]
fn ends_with_the_status_of_a_fault(rt: HostRuntime) -> Result<(), Fail> {
    for calls in [&[3], &[4], &[5]] {
        let failing = Failing {
            store: calls,
            ..NONE
        };
        let (status, text) = ran(rt.alloc(), &failing, "SHOW ROWS t;")?;
        assert_eq!(rt; status, 4);
        assert!(rt; text.is_empty());
    }
    let failing = Failing {
        store: &[6],
        ..NONE
    };
    let (status, text) = ran(rt.alloc(), &failing, "SHOW ROWS t;")?;
    assert_eq!(rt; status, 0);
    assert!(rt; text.as_slice() == TEXT.as_bytes());
    Ok(())
}

// The text of a statement is one piece.
#[test]
fn ends_where_rows_are_not_written(rt: HostRuntime) -> Result<(), Fail> {
    for (calls, written) in [(&[1], ""), (&[2], TEXT)] {
        let failing = Failing {
            sink: calls,
            ..NONE
        };
        let script = "SHOW ROWS t; SHOW ROWS t VERSION AS OF 0;";
        let (status, text) = ran(rt.alloc(), &failing, script)?;
        assert_eq!(rt; status, 5);
        assert!(rt; text.as_slice() == written.as_bytes());
    }
    Ok(())
}

#[test]
fn refuses_versions_that_are_not_there(rt: HostRuntime) -> Result<(), Fail> {
    let script = "SHOW ROWS t VERSION AS OF 0; SHOW ROWS t VERSION AS OF 1; SHOW ROWS t;";
    let (status, text) = ran(rt.alloc(), &NONE, script)?;
    let wanted = format!(in rt.alloc(); "{TEXT}refused 2: O21 1\n")?;
    assert_eq!(rt; status, 1);
    assert!(rt; text.as_slice() == wanted.as_bytes());
    Ok(())
}
