// Whole runs of DELETE over objects in memory.
use super::files::ONE_ROW;
use super::{File, ONE, TWO, ZERO};
use dm_store::{
    ClaimStore, MemoryClock, MemoryNames, MemorySink, MemorySource, MemoryStore, Store,
};
use dm_types::{Bytes, CountList, NameList, PathBytes, Text, TextList, WholeList};
use script_run::run;
use std::alloc::Global;
use std::test::Fail;

// The data file of a table, which has one row.
pub(super) const DATA: (&str, &[u8]) = ("t/a.parquet", ONE_ROW);

// A table of this file, whose row is tracked.
pub(super) const TRACKED: &str = concat!(
    "{\"protocol\":{\"minReaderVersion\":1,\"minWriterVersion\":7,\"writerFeatures\":[\"domainMetadata\",\"rowTracking\"]}}\n",
    r#"{"metaData":{"id":"i","configuration":{"delta.enableRowTracking":"true","delta.rowTracking.materializedRowIdColumnName":"i","delta.rowTracking.materializedRowCommitVersionColumnName":"c"},"schemaString":"{\"type\":\"struct\",\"fields\":[{\"name\":\"k\",\"type\":\"long\",\"nullable\":true,\"metadata\":{}},{\"name\":\"v\",\"type\":\"string\",\"nullable\":true,\"metadata\":{}}]}"}}"#,
    "\n",
    r#"{"domainMetadata":{"domain":"delta.rowTracking","configuration":"{\"rowIdHighWaterMark\":0}"}}"#,
    "\n",
    "{\"add\":{\"path\":\"a.parquet\",\"size\":170,\"baseRowId\":0,\"defaultRowCommitVersion\":0}}\n",
);

// The commit of a DELETE from it at the time 5.
const EMPTIED: &str = concat!(
    "{\"commitInfo\":{\"engineInfo\":\"deltamerge\",\"operation\":\"DELETE\",\"timestamp\":5}}\n",
    "{\"remove\":{\"baseRowId\":0,\"dataChange\":true,\"defaultRowCommitVersion\":0,\"deletionTimestamp\":5,\"extendedFileMetadata\":true,\"partitionValues\":{},\"path\":\"a.parquet\",\"size\":170}}\n",
);

// The commit of a DELETE from the empty table at the time 6.
const NOTHING: &str =
    "{\"commitInfo\":{\"engineInfo\":\"deltamerge\",\"operation\":\"DELETE\",\"timestamp\":6}}\n";

// The status of a run over the store, and what it wrote. The clock answers 5 and then 6; the list has
// the draws that are to fail.
fn ran_over<S: Store>(
    alloc: Global,
    store: &mut S,
    undrawn: &[u64],
    script: &str,
) -> Result<(u8, Bytes), Fail> {
    let script = Bytes::from_slice(alloc, script.as_bytes())?;
    let mut source = MemorySource::new(script, CountList::new(alloc))?;
    let mut sink = MemorySink::new(alloc, CountList::new(alloc))?;
    let mut clock = MemoryClock::new(WholeList::from_slice(alloc, &[5, 6])?)?;
    let undrawn = CountList::from_slice(alloc, undrawn)?;
    let mut names = MemoryNames::new(NameList::new(alloc), undrawn)?;
    let status = run(
        alloc,
        &[],
        &mut source,
        store,
        &mut sink,
        &mut clock,
        &mut names,
    );
    Ok((status, sink.written().clone()?))
}

// A store of the table's data file, which its first call puts, and of these files.
pub(super) fn store_with(
    alloc: Global,
    files: &[File],
    failing: &[u64],
    appending: &[u64],
) -> Result<MemoryStore, Fail> {
    let failing = CountList::from_slice(alloc, failing)?;
    let appending = CountList::from_slice(alloc, appending)?;
    let mut store = MemoryStore::new(alloc, failing, appending)?;
    store.put_new(DATA.0, DATA.1)?;
    for (path, text) in files {
        store.put_new(path, text.as_bytes())?;
    }
    Ok(store)
}

// Whether a file has this path and these bytes.
fn is_file(file: &(Text, Bytes), path: &str, bytes: &[u8]) -> bool {
    file.0.is(path) && file.1.as_slice() == bytes
}

// Whether these are the files, in this order, behind the table's data file.
fn are(files: &PathBytes, wanted: &[File]) -> bool {
    let Some((data, logs)) = files.as_slice().split_first() else {
        return false;
    };
    if logs.len() != wanted.len() {
        return false;
    }
    for place in 0..logs.len() {
        let (path, text) = wanted[place];
        if !is_file(&logs[place], path, text.as_bytes()) {
            return false;
        }
    }
    is_file(data, DATA.0, DATA.1)
}

// What fails in a run of two DELETEs and a SHOW FILES over the table, the status and the text that it
// must give, and how many of the two commits must stand. The store's first two calls put the data file
// and the commit of the table; each DELETE lists, reads each commit and each live file, and puts its own
// commit.
struct Fault {
    failing: &'static [u64],
    appending: &'static [u64],
    undrawn: &'static [u64],
    status: u8,
    text: &'static str,
    commits: usize,
}

const NO_FAULT: Fault = Fault {
    failing: &[],
    appending: &[],
    undrawn: &[],
    status: 0,
    text: "version 1\nversion 2\n",
    commits: 2,
};

const FAULTS: [Fault; 15] = [
    NO_FAULT,
    Fault {
        failing: &[3],
        status: 4,
        text: "",
        commits: 0,
        ..NO_FAULT
    },
    Fault {
        failing: &[4],
        status: 4,
        text: "",
        commits: 0,
        ..NO_FAULT
    },
    Fault {
        failing: &[5],
        status: 4,
        text: "",
        commits: 0,
        ..NO_FAULT
    },
    Fault {
        failing: &[6],
        status: 4,
        text: "",
        commits: 0,
        ..NO_FAULT
    },
    Fault {
        failing: &[6],
        appending: &[6],
        status: 4,
        text: "",
        commits: 1,
        ..NO_FAULT
    },
    Fault {
        failing: &[7],
        status: 4,
        text: "version 1\n",
        commits: 1,
        ..NO_FAULT
    },
    Fault {
        failing: &[8],
        status: 4,
        text: "version 1\n",
        commits: 1,
        ..NO_FAULT
    },
    Fault {
        failing: &[9],
        status: 4,
        text: "version 1\n",
        commits: 1,
        ..NO_FAULT
    },
    Fault {
        failing: &[10],
        status: 4,
        text: "version 1\n",
        commits: 1,
        ..NO_FAULT
    },
    Fault {
        failing: &[10],
        appending: &[10],
        status: 4,
        text: "version 1\n",
        commits: 2,
        ..NO_FAULT
    },
    Fault {
        failing: &[11],
        status: 4,
        text: "version 1\nversion 2\n",
        commits: 2,
        ..NO_FAULT
    },
    Fault {
        failing: &[14],
        status: 4,
        text: "version 1\nversion 2\n",
        commits: 2,
        ..NO_FAULT
    },
    Fault {
        undrawn: &[1],
        status: 8,
        text: "",
        commits: 0,
        ..NO_FAULT
    },
    Fault {
        undrawn: &[2],
        status: 8,
        text: "version 1\n",
        commits: 1,
        ..NO_FAULT
    },
];

#[test]
fn deletes_all_files(rt: HostRuntime) -> Result<(), Fail> {
    let alloc = rt.alloc();
    let all: &[File] = &[(ZERO, TRACKED), (ONE, EMPTIED), (TWO, NOTHING)];
    for fault in &FAULTS {
        let files: &[File] = &[(ZERO, TRACKED)];
        let mut store = store_with(alloc, files, fault.failing, fault.appending)?;
        let script = "DELETE FROM t; delete from t; SHOW FILES t;";
        let (status, text) = ran_over(alloc, &mut store, fault.undrawn, script)?;
        assert!(rt; status == fault.status);
        assert!(rt; text.as_slice() == fault.text.as_bytes());
        assert!(rt; are(store.files(), &all[..1 + fault.commits]));
    }
    Ok(())
}

// A second commit behind that of the table, and the line that refuses DELETE.
struct Refusal {
    commit: &'static str,
    line: &'static str,
}

const REFUSALS: [Refusal; 18] = [
    Refusal {
        commit: "{\"protocol\":{\"minReaderVersion\":4,\"minWriterVersion\":8}}",
        line: "O4 4 8",
    },
    Refusal {
        commit: "{\"protocol\":{\"minReaderVersion\":0,\"minWriterVersion\":1}}",
        line: "O4 0 1",
    },
    Refusal {
        commit: "{\"protocol\":{\"minReaderVersion\":3,\"minWriterVersion\":7,\"readerFeatures\":[\"z\",\"b\\tc\"],\"writerFeatures\":[\"a\"]}}",
        line: "O5 b\\tc",
    },
    Refusal {
        commit: "{\"add\":{\"path\":\"b\\nc\",\"deletionVector\":{}}}\n{\"protocol\":{\"minReaderVersion\":1,\"minWriterVersion\":8}}",
        line: "O10 b\\nc",
    },
    Refusal {
        commit: "{\"protocol\":{\"minReaderVersion\":1,\"minWriterVersion\":8}}",
        line: "O4 1 8",
    },
    Refusal {
        commit: "{\"protocol\":{\"minReaderVersion\":1,\"minWriterVersion\":0}}",
        line: "O4 1 0",
    },
    Refusal {
        commit: "{\"protocol\":{\"minReaderVersion\":1,\"minWriterVersion\":7,\"writerFeatures\":[\"rowTracking\",\"y\",\"x\"]}}",
        line: "O5 x",
    },
    Refusal {
        commit: r#"{"metaData":{"id":"i","configuration":{"delta.enableChangeDataFeed":"true","delta.appendOnly":"true"},"schemaString":"{\"type\":\"struct\",\"fields\":[{\"name\":\"k\",\"type\":\"long\",\"nullable\":true,\"metadata\":{}},{\"name\":\"v\",\"type\":\"string\",\"nullable\":true,\"metadata\":{}}]}"}}"#,
        line: "O22 delta.enableChangeDataFeed",
    },
    Refusal {
        commit: r#"{"metaData":{"id":"i","configuration":{"delta.enableChangeDataFeed":"false","delta.appendOnly":"true"},"schemaString":"{\"type\":\"struct\",\"fields\":[{\"name\":\"k\",\"type\":\"long\",\"nullable\":true,\"metadata\":{}},{\"name\":\"v\",\"type\":\"string\",\"nullable\":true,\"metadata\":{}}]}"}}"#,
        line: "S4",
    },
    Refusal {
        commit: r#"{"metaData":{"id":"i","configuration":{"delta.enableRowTracking":"TRUE"},"schemaString":"{\"type\":\"struct\",\"fields\":[{\"name\":\"k\",\"type\":\"long\",\"nullable\":true,\"metadata\":{}},{\"name\":\"v\",\"type\":\"string\",\"nullable\":true,\"metadata\":{}}]}"}}"#,
        line: "S5",
    },
    Refusal {
        commit: "{\"protocol\":{\"minReaderVersion\":1,\"minWriterVersion\":7,\"writerFeatures\":[\"appendOnly\"]}}",
        line: "S5",
    },
    Refusal {
        commit: "{\"add\":{}}",
        line: "O3 1 1",
    },
    // The columns and the rows decide before the checks of writing do.
    Refusal {
        commit: "{\"metaData\":{\"id\":\"i\",\"schemaString\":\"{}\"}}",
        line: "O7",
    },
    Refusal {
        commit: r#"{"metaData":{"id":"i","configuration":{"delta.enableChangeDataFeed":"true"},"schemaString":"{\"type\":\"struct\",\"fields\":[{\"name\":\"k\",\"type\":\"long\",\"nullable\":true,\"metadata\":{}},{\"name\":\"x\",\"type\":\"double\",\"nullable\":true,\"metadata\":{}}]}"}}"#,
        line: "O8 x",
    },
    Refusal {
        commit: r#"{"metaData":{"id":"i","configuration":{"delta.columnMapping.mode":"name","delta.appendOnly":"true"},"schemaString":"{\"type\":\"struct\",\"fields\":[{\"name\":\"k\",\"type\":\"long\",\"nullable\":true,\"metadata\":{}},{\"name\":\"v\",\"type\":\"string\",\"nullable\":true,\"metadata\":{}}]}"}}"#,
        line: "O9 k",
    },
    Refusal {
        commit: "{\"add\":{\"path\":\"b.parquet\"}}\n{\"protocol\":{\"minReaderVersion\":1,\"minWriterVersion\":8}}",
        line: "O12 b.parquet",
    },
    Refusal {
        commit: r#"{"metaData":{"id":"i","configuration":{"delta.appendOnly":"true"},"schemaString":"{\"type\":\"struct\",\"fields\":[{\"name\":\"k\",\"type\":\"string\",\"nullable\":true,\"metadata\":{}},{\"name\":\"v\",\"type\":\"string\",\"nullable\":true,\"metadata\":{}}]}"}}"#,
        line: "O16 a.parquet k",
    },
    Refusal {
        commit: "{\"add\":{\"path\":\"a.parquet\",\"baseRowId\":1,\"defaultRowCommitVersion\":0}}\n{\"protocol\":{\"minReaderVersion\":1,\"minWriterVersion\":7,\"writerFeatures\":[\"rowTracking\",\"x\"]}}",
        line: "O19 1",
    },
];

#[test]
fn refuses_tables_that_are_not_to_be_written(rt: HostRuntime) -> Result<(), Fail> {
    let alloc = rt.alloc();
    for refusal in &REFUSALS {
        let files: &[File] = &[(ZERO, TRACKED), (ONE, refusal.commit)];
        let mut store = store_with(alloc, files, &[], &[])?;
        // No draw is made, so none fails.
        let (status, text) = ran_over(alloc, &mut store, &[1], "DELETE FROM t;")?;
        let line = refusal.line;
        let wanted = format!(in alloc; "refused 1: {line}\n")?;
        assert!(rt; status == 1, "{line}");
        assert!(rt; text.as_slice() == wanted.as_bytes(), "{line}");
        assert!(rt; are(store.files(), files), "{line}");
    }
    let mut store = store_with(alloc, &[(ZERO, "")], &[], &[])?;
    let (status, text) = ran_over(alloc, &mut store, &[], "DELETE FROM t;")?;
    assert!(rt; status == 1);
    assert!(rt; text.as_slice() == b"refused 1: O6\n".as_slice());
    Ok(())
}

#[test]
fn a_version_may_be_taken(rt: HostRuntime) -> Result<(), Fail> {
    let alloc = rt.alloc();
    let inner = store_with(alloc, &[(ZERO, TRACKED)], &[], &[])?;
    let mut taken = TextList::new(alloc);
    taken.push(Text::from_str(alloc, ONE)?)?;
    let mut store = ClaimStore::new(inner, taken, TextList::new(alloc))?;
    let (status, text) = ran_over(alloc, &mut store, &[], "DELETE FROM t;")?;
    assert!(rt; status == 1);
    assert!(rt; text.as_slice() == b"refused 1: S17 1\n".as_slice());
    Ok(())
}
