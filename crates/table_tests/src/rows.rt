// What SHOW ROWS prints of a table in the folder `t`, or why it is refused.
use crate::files::*;
use crate::logs::*;
use dm_store::{MemoryClock, MemoryNames, MemorySink, MemorySource, MemoryStore, Store};
use dm_types::{Bytes, CountList, NameList, WholeList};
use script_run::run;
use std::alloc::Global;
use std::test::Fail;

pub(crate) const ZERO: &str = "t/_delta_log/00000000000000000000.json";

pub(crate) const ONE_MORE: &str = "t/_delta_log/00000000000000000001.json";

const THREE: &str = "t/_delta_log/00000000000000000003.json";

// The lines of a commit file.
pub(crate) type Log = (&'static str, &'static [&'static str]);

// A data file.
pub(crate) type Data = (&'static str, &'static [u8]);

// A store, a script, and what the run must write; its status is 0, or 1 where the last line is a
// refusal.
#[derive(Clone, Copy)]
pub(crate) struct Case {
    pub logs: &'static [Log],
    pub files: &'static [Data],
    pub script: &'static str,
    pub text: &'static str,
}

pub(crate) const A: &str = "t/a.parquet";

pub(crate) const B: &str = "t/b.parquet";

// Two files, in log order.
pub(crate) const BOTH: Case = Case {
    logs: &[(ZERO, &[PLAIN, ADD_B, ADD_A])],
    files: &[(A, ONE), (B, TWO)],
    script: "SHOW ROWS t;",
    text: "id\tversion\tk\tv\n\\N\t\\N\t2\tb\n\\N\t\\N\t3\t\\N\n\\N\t\\N\t\\N\ta\n",
};

// A refusal of a table of one file.
const BAD: Case = Case {
    logs: &[(ZERO, &[PLAIN, ADD_A])],
    files: &[],
    script: "SHOW ROWS t;",
    text: "refused 1: O12 a.parquet\n",
};

// Rows that are tracked: the ids of the first file are 4 and 11, that of the second is 0.
pub(crate) const IDS: Case = Case {
    logs: &[(
        ZERO,
        &[
            TRACKED,
            MARK_11,
            "{\"add\":{\"path\":\"a.parquet\",\"baseRowId\":10,\"defaultRowCommitVersion\":0}}\n",
            "{\"add\":{\"path\":\"b.parquet\",\"baseRowId\":0,\"defaultRowCommitVersion\":0}}\n",
        ],
    )],
    files: &[(A, WITH_IDS), (B, ONE)],
    script: "SHOW ROWS t;",
    text: "id\tversion\tk\tv\n0\t0\t3\t\\N\n4\t0\t7\tx\n11\t0\t8\t\\N\n",
};

const GOOD: [Case; 10] = [
    BOTH,
    IDS,
    // no file is live
    Case {
        logs: &[(ZERO, &[PLAIN])],
        text: "id\tversion\tk\tv\n",
        ..BAD
    },
    // columns by their field ids
    Case {
        logs: &[(ZERO, &[BY_ID, ADD_A])],
        files: &[(A, MAPPED)],
        text: "id\tversion\tk\tv\n\\N\t\\N\t1\tp\n\\N\t\\N\t2\tp\n",
        ..BAD
    },
    // a log of another program
    Case {
        logs: &[(
            ZERO,
            &[
                CLUSTERED,
                "{\"add\":{\"path\":\"a%2Eparquet\",\"partitionValues\":{},\"size\":5,\"modificationTime\":7,\"dataChange\":true,\"stats\":\"{\\\"numRecords\\\":1}\"}}\n",
            ],
        )],
        files: &[(A, ONE)],
        text: "id\tversion\tk\tv\n\\N\t\\N\t3\t\\N\n",
        ..BAD
    },
    // each file has a partition value of its own
    Case {
        logs: &[(
            ZERO,
            &[
                PARTED,
                "{\"add\":{\"path\":\"a.parquet\",\"partitionValues\":{\"d\":\"2024-02-29\"}}}\n",
                "{\"add\":{\"path\":\"b.parquet\",\"partitionValues\":{\"d\":null}}}\n",
            ],
        )],
        files: &[(A, ONE), (B, ONE)],
        text: "id\tversion\tk\td\tv\n\\N\t\\N\t3\t2024-02-29\t\\N\n\\N\t\\N\t3\t\\N\t\\N\n",
        ..BAD
    },
    // an older version has its own files and its own columns
    Case {
        logs: &[
            (ZERO, &[PLAIN, ADD_A]),
            (
                ONE_MORE,
                &["{\"remove\":{\"path\":\"a.parquet\"}}\n", NARROW],
            ),
        ],
        files: &[(A, ONE)],
        script: "SHOW ROWS t VERSION AS OF 0; SHOW ROWS t;",
        text: "id\tversion\tk\tv\n\\N\t\\N\t3\t\\N\nid\tversion\tk\n",
    },
    // DELETE leaves no row, and the version before it as it was
    Case {
        script: "DELETE FROM t; SHOW ROWS t; SHOW ROWS t VERSION AS OF 0;",
        text: "version 1\nid\tversion\tk\tv\nid\tversion\tk\tv\n0\t0\t3\t\\N\n4\t0\t7\tx\n11\t0\t8\t\\N\n",
        ..IDS
    },
    // ids that nobody asks for
    Case {
        logs: &[(
            ZERO,
            &[
                PLAIN,
                "{\"add\":{\"path\":\"a.parquet\",\"baseRowId\":0,\"defaultRowCommitVersion\":0}}\n",
            ],
        )],
        files: &[(A, ONE)],
        text: "id\tversion\tk\tv\n\\N\t\\N\t3\t\\N\n",
        ..BAD
    },
    // names and texts are escaped, and a column that no file has is null
    Case {
        logs: &[(ZERO, &[ODD_NAME, ADD_A])],
        files: &[(A, ESCAPED)],
        text: "id\tversion\tv\ta\\tb\n\\N\t\\N\t\t\\N\n\\N\t\\N\t\\\\N\t\\N\n\\N\t\\N\ta\\tb\\\\c\\nd\\re\t\\N\n",
        ..BAD
    },
];

// What is wrong with a table, by the checks in their order.
const REFUSED: [Case; 16] = [
    BAD,
    Case {
        logs: &[(ZERO, &[NO_SCHEMA, ADD_A])],
        text: "refused 1: O7\n",
        ..BAD
    },
    Case {
        logs: &[(ZERO, &[DOUBLE, ADD_A])],
        text: "refused 1: O8 x\n",
        ..BAD
    },
    Case {
        logs: &[(ZERO, &[UNMARKED, ADD_A])],
        text: "refused 1: O9 k\n",
        ..BAD
    },
    Case {
        logs: &[(ZERO, &[NO_MODE, ADD_A])],
        text: "refused 1: O9 k\n",
        ..BAD
    },
    Case {
        logs: &[(
            ZERO,
            &[
                PLAIN,
                "{\"add\":{\"path\":\"a.parquet\",\"deletionVector\":{}}}\n",
            ],
        )],
        text: "refused 1: O10 a.parquet\n",
        ..BAD
    },
    Case {
        logs: &[(ZERO, &[PLAIN, "{\"add\":{\"path\":\"../a.parquet\"}}\n"])],
        text: "refused 1: O11 ../a.parquet\n",
        ..BAD
    },
    // equal only when it is decoded
    Case {
        logs: &[(
            ZERO,
            &[PLAIN, ADD_A, "{\"add\":{\"path\":\"a%2Eparquet\"}}\n"],
        )],
        files: &[(A, ONE)],
        text: "refused 1: O11 a%2Eparquet\n",
        ..BAD
    },
    Case {
        files: &[(A, b"PAR1PAR1")],
        text: "refused 1: O13 a.parquet\n",
        ..BAD
    },
    Case {
        files: &[(A, CUT)],
        text: "refused 1: O13 a.parquet\n",
        ..BAD
    },
    Case {
        files: &[(A, SNAPPY)],
        text: "refused 1: O14 a.parquet\n",
        ..BAD
    },
    Case {
        files: &[(A, DELTA)],
        text: "refused 1: O15 a.parquet\n",
        ..BAD
    },
    Case {
        files: &[(A, INTS)],
        text: "refused 1: O16 a.parquet k\n",
        ..BAD
    },
    Case {
        files: &[(A, NO_TEXT)],
        text: "refused 1: O17 a.parquet v\n",
        ..BAD
    },
    Case {
        logs: &[(ZERO, &[NEVER_NULL, ADD_B])],
        files: &[(B, TWO)],
        text: "refused 1: O17 b.parquet k\n",
        ..BAD
    },
    Case {
        logs: &[(
            ZERO,
            &[
                PARTED,
                "{\"add\":{\"path\":\"a.parquet\",\"partitionValues\":{\"d\":\"2024-02-30\"}}}\n",
            ],
        )],
        files: &[(A, ONE)],
        text: "refused 1: O18 a.parquet d\n",
        ..BAD
    },
];

const MORE_REFUSED: [Case; 15] = [
    Case {
        logs: &[(ZERO, &[NARROW, ADD_A])],
        files: &[(A, MANY)],
        text: "refused 1: O20 cells\n",
        ..BAD
    },
    // the cells of all files count together
    Case {
        logs: &[(ZERO, &[NARROW, ADD_B, ADD_A])],
        files: &[(A, FULL), (B, ONE)],
        text: "refused 1: O20 cells\n",
        ..BAD
    },
    Case {
        logs: &[(ZERO, &[NARROW, ADD_A])],
        files: &[(A, FULL)],
        text: "refused 1: O13 a.parquet\n",
        ..BAD
    },
    // 54 letters in each of 10,000,000 rows
    Case {
        logs: &[(
            ZERO,
            &[
                TEXT_PARTED,
                "{\"add\":{\"path\":\"a.parquet\",\"partitionValues\":{\"p\":\"abcdefghijklmnopqrstuvwxyzabcdefghijklmnopqrstuvwxyzab\"}}}\n",
            ],
        )],
        files: &[(A, HALF)],
        text: "refused 1: O20 text\n",
        ..BAD
    },
    // ids below 0, past the greatest number, and above the mark
    Case {
        logs: &[(
            ZERO,
            &[
                TRACKED,
                MARK_11,
                "{\"add\":{\"path\":\"a.parquet\",\"baseRowId\":-5,\"defaultRowCommitVersion\":0}}\n",
            ],
        )],
        files: &[(A, ONE)],
        text: "refused 1: O19 -5\n",
        ..BAD
    },
    Case {
        logs: &[(
            ZERO,
            &[
                TRACKED,
                MARK_11,
                "{\"add\":{\"path\":\"a.parquet\",\"baseRowId\":9223372036854775807,\"defaultRowCommitVersion\":0}}\n",
            ],
        )],
        files: &[(A, TWO)],
        text: "refused 1: O19 -1\n",
        ..BAD
    },
    Case {
        logs: &[(
            ZERO,
            &[
                TRACKED,
                MARK_5,
                "{\"add\":{\"path\":\"a.parquet\",\"baseRowId\":5,\"defaultRowCommitVersion\":0}}\n",
            ],
        )],
        files: &[(A, TWO)],
        text: "refused 1: O19 6\n",
        ..BAD
    },
    // a file without ids
    Case {
        logs: &[(ZERO, &[TRACKED, MARK_11, ADD_A])],
        files: &[(A, ONE)],
        text: "refused 1: O19 -1\n",
        ..BAD
    },
    // two rows of one id
    Case {
        logs: &[(
            ZERO,
            &[
                TRACKED,
                MARK_5,
                "{\"add\":{\"path\":\"a.parquet\",\"baseRowId\":0,\"defaultRowCommitVersion\":0}}\n",
                "{\"add\":{\"path\":\"b.parquet\",\"baseRowId\":0,\"defaultRowCommitVersion\":0}}\n",
            ],
        )],
        files: &[(A, ONE), (B, ONE)],
        text: "refused 1: O19 0\n",
        ..BAD
    },
    // a mark that fell
    Case {
        logs: &[(ZERO, &[TRACKED, MARK_11]), (ONE_MORE, &[MARK_5])],
        text: "refused 1: O19 5\n",
        ..BAD
    },
    // a commit version behind the table's
    Case {
        logs: &[(
            ZERO,
            &[
                TRACKED,
                MARK_11,
                "{\"add\":{\"path\":\"a.parquet\",\"baseRowId\":3,\"defaultRowCommitVersion\":1}}\n",
            ],
        )],
        files: &[(A, ONE)],
        text: "refused 1: O19 3\n",
        ..BAD
    },
    Case {
        script: "SHOW ROWS t VERSION AS OF 1;",
        text: "refused 1: O21 1\n",
        ..BOTH
    },
    // the first file that is refused decides, whatever is refused of it
    Case {
        logs: &[(ZERO, &[PLAIN, ADD_B, ADD_A])],
        files: &[(B, NO_TEXT)],
        text: "refused 1: O17 b.parquet v\n",
        ..BAD
    },
    // a file before the ids of rows
    Case {
        logs: &[(
            ZERO,
            &[
                TRACKED,
                MARK_11,
                "{\"add\":{\"path\":\"b.parquet\"}}\n",
                "{\"add\":{\"path\":\"a.parquet\",\"baseRowId\":0,\"defaultRowCommitVersion\":0}}\n",
            ],
        )],
        files: &[(B, ONE)],
        text: "refused 1: O12 a.parquet\n",
        ..BAD
    },
    // rows are looked at before a table is written
    Case {
        logs: &[(ZERO, &[CLUSTERED, ADD_A])],
        files: &[(A, SNAPPY)],
        script: "DELETE FROM t;",
        text: "refused 1: O14 a.parquet\n",
    },
];

// What is wrong with a log, by the checks in their order; each has faults of later checks too.
const LOGS: [Case; 9] = [
    Case {
        logs: &[("u/_delta_log/00000000000000000000.json", &[PLAIN])],
        script: "SHOW ROWS t VERSION AS OF 9;",
        text: "refused 1: O1\n",
        ..BAD
    },
    Case {
        logs: &[(ZERO, &["{"]), (THREE, &[])],
        script: "SHOW ROWS t VERSION AS OF 9;",
        text: "refused 1: O2 1\n",
        ..BAD
    },
    Case {
        logs: &[(ZERO, &["{"])],
        script: "SHOW ROWS t VERSION AS OF 9;",
        text: "refused 1: O21 9\n",
        ..BAD
    },
    Case {
        logs: &[(ZERO, &[READER_4, "{"])],
        text: "refused 1: O3 0 2\n",
        ..BAD
    },
    Case {
        logs: &[(ZERO, &[READER_4, ADD_A])],
        text: "refused 1: O6\n",
        ..BAD
    },
    Case {
        logs: &[(ZERO, &[NO_SCHEMA, READER_4, ADD_A])],
        text: "refused 1: O4 4 7\n",
        ..BAD
    },
    Case {
        logs: &[(ZERO, &[NO_SCHEMA, FEATURES, ADD_A])],
        text: "refused 1: O5 a\n",
        ..BAD
    },
    Case {
        logs: &[(ZERO, &[DOUBLE_NO_MODE, ADD_A])],
        text: "refused 1: O8 x\n",
        ..BAD
    },
    Case {
        logs: &[(ZERO, &[NO_MODE, ADD_A])],
        text: "refused 1: O9 k\n",
        ..BAD
    },
];

fn put_log(alloc: Global, store: &mut MemoryStore, log: &Log) -> Result<(), Fail> {
    let mut text = Bytes::new(alloc);
    for lines in log.1 {
        text.extend_from_slice(lines.as_bytes())?;
    }
    store.put_new(log.0, text.as_slice())?;
    Ok(())
}

fn store_of(alloc: Global, case: &Case) -> Result<MemoryStore, Fail> {
    let mut store = MemoryStore::new(alloc, CountList::new(alloc), CountList::new(alloc))?;
    for log in case.logs {
        put_log(alloc, &mut store, log)?;
    }
    for (path, bytes) in case.files {
        store.put_new(path, bytes)?;
    }
    Ok(store)
}

// The status of a run over a store, and what it wrote.
pub(crate) fn run_over<S: Store>(
    alloc: Global,
    store: &mut S,
    script: &str,
) -> Result<(u8, Bytes), Fail> {
    let script = Bytes::from_slice(alloc, script.as_bytes())?;
    let mut source = MemorySource::new(script, CountList::new(alloc))?;
    let mut sink = MemorySink::new(alloc, CountList::new(alloc))?;
    let mut clock = MemoryClock::new(WholeList::from_slice(alloc, &[5])?)?;
    let mut names = MemoryNames::new(NameList::new(alloc), CountList::new(alloc))?;
    let status = run(
        alloc,
        &[],
        &mut source,
        store,
        &mut sink,
        &mut clock,
        &mut names,
    );
    Ok((status, sink.written().clone()?))
}

// Whether the run of each case ends and writes as it must.
pub(crate) fn run_so(alloc: Global, cases: &[Case], status: u8) -> Result<bool, Fail> {
    for case in cases {
        let mut store = store_of(alloc, case)?;
        let (found, written) = run_over(alloc, &mut store, case.script)?;
        if found != status || written.as_slice() != case.text.as_bytes() {
            return Ok(false);
        }
    }
    Ok(true)
}

#[test]
fn rows_are_shown(rt: HostRuntime) -> Result<(), Fail> {
    assert!(rt; run_so(rt.alloc(), &GOOD, 0)?);
    Ok(())
}

#[test]
fn logs_are_refused(rt: HostRuntime) -> Result<(), Fail> {
    assert!(rt; run_so(rt.alloc(), &LOGS, 1)?);
    Ok(())
}

#[test]
fn tables_are_refused(rt: HostRuntime) -> Result<(), Fail> {
    assert!(rt; run_so(rt.alloc(), &REFUSED, 1)?);
    Ok(())
}

#[test]
fn the_first_check_decides(rt: HostRuntime) -> Result<(), Fail> {
    assert!(rt; run_so(rt.alloc(), &MORE_REFUSED, 1)?);
    Ok(())
}
