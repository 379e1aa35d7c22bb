// Whole runs over objects in memory.
mod deletes;
mod files;
mod folders;
mod rows;
mod turns;

use dm_store::{MemoryClock, MemoryNames, MemorySink, MemorySource, MemoryStore, Store};
use dm_types::{Bytes, CountList, NameList, WholeList};
use script_run::run;
use std::alloc::{AllocError, Global};
use std::process::Abort;
use std::test::Fail;

// The calls of source, store and sink that are to fail.
#[derive(Clone, Copy)]
struct Failing {
    source: &'static [u64],
    store: &'static [u64],
    sink: &'static [u64],
}

const NONE: Failing = Failing {
    source: &[],
    store: &[],
    sink: &[],
};

// A path and the bytes there.
type File = (&'static str, &'static str);

const ZERO: &str = "t/_delta_log/00000000000000000000.json";

const ONE: &str = "t/_delta_log/00000000000000000001.json";

const TWO: &str = "t/_delta_log/00000000000000000002.json";

const THREE: &str = "t/_delta_log/00000000000000000003.json";

fn store_of(alloc: Global, files: &[File], failing: &[u64]) -> Result<MemoryStore, Fail> {
    let mut store = MemoryStore::new(
        alloc,
        CountList::from_slice(alloc, failing)?,
        CountList::new(alloc),
    )?;
    for (path, text) in files {
        store.put_new(path, text.as_bytes())?;
    }
    Ok(store)
}

// The status of a run, and what it wrote.
fn ran(
    alloc: Global,
    files: &[File],
    failing: &Failing,
    words: &[String],
    script: Bytes,
) -> Result<(u8, Bytes), Fail> {
    let mut source = MemorySource::new(script, CountList::from_slice(alloc, failing.source)?)?;
    let mut store = store_of(alloc, files, failing.store)?;
    let mut sink = MemorySink::new(alloc, CountList::from_slice(alloc, failing.sink)?)?;
    let mut clock = MemoryClock::new(WholeList::new(alloc))?;
    let mut names = MemoryNames::new(NameList::new(alloc), CountList::new(alloc))?;
    let status = run(
        alloc,
        words,
        &mut source,
        &mut store,
        &mut sink,
        &mut clock,
        &mut names,
    );
    Ok((status, sink.written().clone()?))
}

// Files, the script that is run over them, and the status and text that it must give.
struct Case {
    files: &'static [File],
    script: &'static str,
    status: u8,
    text: &'static str,
}

fn check(rt: &(impl Abort + AllocGlobal), case: &Case) -> Result<(), Fail> {
    let script = Bytes::from_slice(rt.alloc(), case.script.as_bytes())?;
    let (status, text) = ran(rt.alloc(), case.files, &NONE, &[], script)?;
    assert!(rt; status == case.status);
    assert!(rt; text.as_slice() == case.text.as_bytes());
    Ok(())
}

// Replay, gaps and bad lines; the order of removes and adds; what is printed.
const LOGS: [Case; 15] = [
    Case {
        files: &[
            (
                ZERO,
                "{\"add\":{\"path\":\"b.parquet\"}}\n{\"add\":{\"path\":\"a.parquet\"}}\n",
            ),
            (ONE, "{\"remove\":{\"path\":\"b.parquet\"}}\n"),
        ],
        script: "SHOW FILES t;",
        status: 0,
        text: "a.parquet\n",
    },
    Case {
        files: &[(ZERO, ""), (ONE, ""), (THREE, "")],
        script: "SHOW FILES t;",
        status: 1,
        text: "refused 1: O2 2\n",
    },
    Case {
        files: &[(ZERO, ""), (ONE, "{\"txn\":{}}\n{\n")],
        script: "SHOW FILES t;",
        status: 1,
        text: "refused 1: O3 1 2\n",
    },
    // Lines are counted with the blank ones; the first bad line of the first bad version is named.
    Case {
        files: &[(ZERO, ""), (ONE, "\n \t\r\n\n{\n{"), (TWO, "{")],
        script: "SHOW FILES t;",
        status: 1,
        text: "refused 1: O3 1 4\n",
    },
    Case {
        files: &[],
        script: "SHOW FILES t;",
        status: 1,
        text: "refused 1: O1\n",
    },
    // Commits 0 to 12 with a checkpoint beside them, which isn't read.
    Case {
        files: &[
            (
                "t/_delta_log/00000000000000000000.json",
                "{\"add\":{\"path\":\"0.parquet\"}}",
            ),
            (
                "t/_delta_log/00000000000000000001.json",
                "{\"add\":{\"path\":\"1.parquet\"}}",
            ),
            (
                "t/_delta_log/00000000000000000002.json",
                "{\"add\":{\"path\":\"2.parquet\"}}",
            ),
            (
                "t/_delta_log/00000000000000000003.json",
                "{\"add\":{\"path\":\"3.parquet\"}}",
            ),
            (
                "t/_delta_log/00000000000000000004.json",
                "{\"add\":{\"path\":\"4.parquet\"}}",
            ),
            (
                "t/_delta_log/00000000000000000005.json",
                "{\"add\":{\"path\":\"5.parquet\"}}",
            ),
            (
                "t/_delta_log/00000000000000000006.json",
                "{\"add\":{\"path\":\"6.parquet\"}}",
            ),
            (
                "t/_delta_log/00000000000000000007.json",
                "{\"add\":{\"path\":\"7.parquet\"}}",
            ),
            (
                "t/_delta_log/00000000000000000008.json",
                "{\"add\":{\"path\":\"8.parquet\"}}",
            ),
            (
                "t/_delta_log/00000000000000000009.json",
                "{\"add\":{\"path\":\"9.parquet\"}}",
            ),
            (
                "t/_delta_log/00000000000000000010.json",
                "{\"add\":{\"path\":\"10.parquet\"}}",
            ),
            (
                "t/_delta_log/00000000000000000011.json",
                "{\"add\":{\"path\":\"11.parquet\"}}",
            ),
            (
                "t/_delta_log/00000000000000000012.json",
                "{\"add\":{\"path\":\"12.parquet\"}}",
            ),
            (
                "t/_delta_log/00000000000000000010.checkpoint.parquet",
                "PAR1",
            ),
            (
                "t/_delta_log/_last_checkpoint",
                "{\"version\":10,\"size\":11}",
            ),
        ],
        script: "SHOW FILES t;",
        status: 0,
        text: "0.parquet\n1.parquet\n10.parquet\n11.parquet\n12.parquet\n2.parquet\n3.parquet\n4.parquet\n5.parquet\n6.parquet\n7.parquet\n8.parquet\n9.parquet\n",
    },
    // A gap decides before a bad line does.
    Case {
        files: &[(ZERO, "{"), (TWO, "")],
        script: "SHOW FILES t;",
        status: 1,
        text: "refused 1: O2 1\n",
    },
    // The removes of a version count before its adds, whatever the order of the lines.
    Case {
        files: &[
            (
                ZERO,
                "{\"add\":{\"path\":\"kept\"}}\n{\"add\":{\"path\":\"gone\"}}",
            ),
            (
                ONE,
                "{\"add\":{\"path\":\"kept\"}}\n{\"remove\":{\"path\":\"kept\"}}\n{\"remove\":{\"path\":\"gone\"}}",
            ),
        ],
        script: "SHOW FILES t;",
        status: 0,
        text: "kept\n",
    },
    // Byte order, each path once, and fields escaped.
    Case {
        files: &[
            (
                ZERO,
                "{\"add\":{\"path\":\"b\"}}\n{\"add\":{\"path\":\"a\\tb\\\\c\\nd\\re\"}}\n{\"add\":{\"path\":\"B\"}}",
            ),
            (
                ONE,
                "{\"add\":{\"path\":\"b\"}}\n{\"add\":{\"path\":\"\u{e9}\"}}\n{\"add\":{\"path\":\"ab\"}}",
            ),
        ],
        script: "SHOW FILES t;",
        status: 0,
        text: "B\na\\tb\\\\c\\nd\\re\nab\nb\n\u{e9}\n",
    },
    // Names that are no commit files of the table are passed by.
    Case {
        files: &[
            (ZERO, "{\"add\":{\"path\":\"a\"}}"),
            (
                "t/_delta_log/00000000000000000000.checkpoint.parquet",
                "PAR1",
            ),
            ("t/_delta_log/_last_checkpoint", "{\"version\":12}"),
            ("t/_delta_log/0000000000000000007.json", "{"),
            ("t/_delta_log/000000000000000000007.json", "{"),
            ("t/_delta_log/0000000000000000000x.json", "{"),
            ("t/_delta_log/+0000000000000000007.json", "{"),
            ("t/_delta_log/09223372036854775808.json", "{"),
            ("t/_delta_log/99999999999999999999.json", "{"),
            ("t/_delta_log/00000000000000000007.JSON", "{"),
            ("t/_delta_log/old/00000000000000000007.json", "{"),
            ("u/_delta_log/00000000000000000007.json", "{"),
            ("t/part-0.parquet", "PAR1"),
        ],
        script: "SHOW FILES t;",
        status: 0,
        text: "a\n",
    },
    // The greatest number of a commit file is 2^63 - 1.
    Case {
        files: &[(ZERO, ""), ("t/_delta_log/09223372036854775807.json", "")],
        script: "SHOW FILES t;",
        status: 1,
        text: "refused 1: O2 1\n",
    },
    // The first version is missing.
    Case {
        files: &[(ONE, "")],
        script: "SHOW FILES t;",
        status: 1,
        text: "refused 1: O2 0\n",
    },
    // Statement after statement; the first refusal ends the run, by the number of its statement.
    Case {
        files: &[
            (ZERO, "{\"add\":{\"path\":\"a\"}}"),
            (
                "u/_delta_log/00000000000000000000.json",
                "{\"add\":{\"path\":\"b\"}}",
            ),
        ],
        script: "SHOW FILES t; SHOW FILES u;\nSHOW FILES t;",
        status: 0,
        text: "a\nb\na\n",
    },
    Case {
        files: &[(ZERO, "{\"add\":{\"path\":\"a\"}}")],
        script: "SHOW FILES t;SHOW FILES t;SHOW FILES u;SHOW FILES t;SHOW FILES v;",
        status: 1,
        text: "a\na\nrefused 3: O1\n",
    },
    // No live file is left.
    Case {
        files: &[
            (ZERO, "{\"add\":{\"path\":\"a\"}}"),
            (ONE, "{\"remove\":{\"path\":\"a\"}}"),
        ],
        script: "SHOW FILES t;",
        status: 0,
        text: "",
    },
];

#[test]
fn shows_the_live_files(rt: HostRuntime) -> Result<(), Fail> {
    for case in &LOGS {
        check(&rt, case)?;
    }
    Ok(())
}

// Scripts over an empty store: a script of the grammar is refused for want of a table, and another
// one at the first token that can't stand, or at its end.
const SCRIPTS: [(&str, &str); 44] = [
    ("SHOW FILES t;", "refused 1: O1\n"),
    ("show files t ;", "refused 1: O1\n"),
    (
        "\r\n\tShOw--\u{e9};\nFILES -- t;\n--;\n 1-a.B_9\n;--end",
        "refused 1: O1\n",
    ),
    ("SHOW FILES FILES;", "refused 1: O1\n"),
    ("SHOW FILES-t;", "refused 1: O1\n"),
    ("SHOW FILES--c\nt--c\n;", "refused 1: O1\n"),
    ("SHOW ROWS t;", "refused 1: O1\n"),
    ("show rows rows version as of 0;", "refused 1: O1\n"),
    (
        "SHOW ROWS t VERSION AS OF 9223372036854775807;",
        "refused 1: O1\n",
    ),
    ("DELETE FROM t;", "refused 1: O1\n"),
    ("delete From from;SHOW FILES t;", "refused 1: O1\n"),
    ("", ""),
    (" --SHOW FILES t;", ""),
    ("SHOW FILES t;SHOW FILES u;", "refused 1: O1\n"),
    ("SHOW FILES t;--\n SHOW FILES u;--", "refused 1: O1\n"),
    ("SHOW FILES t", "refused 0: P1 12\n"),
    ("SHOW FILES t;;", "refused 0: P1 13\n"),
    ("SHOW FILES t; SHOW FILES", "refused 0: P1 24\n"),
    (
        "SHOW FILES t; SHOW FILES u SHOW FILES t;",
        "refused 0: P1 27\n",
    ),
    (";", "refused 0: P1 0\n"),
    ("SHOW FILES t --;", "refused 0: P1 16\n"),
    ("SHOWFILES t;", "refused 0: P1 0\n"),
    ("SHOW FILESt;", "refused 0: P1 5\n"),
    ("SHOW FILES_ t;", "refused 0: P1 5\n"),
    ("SHOW FILES ;", "refused 0: P1 11\n"),
    ("SHOW FILES .t;", "refused 0: P1 11\n"),
    ("SHOW FILES `t`;", "refused 0: P1 11\n"),
    ("SHOW FILES t u;", "refused 0: P1 13\n"),
    ("SHOW FILES t/u;", "refused 0: P1 12\n"),
    ("SHOW FILES \u{e9};", "refused 0: P1 11\n"),
    ("SHOW\u{b}FILES t;", "refused 0: P1 4\n"),
    ("SHOW IDENTITIES t;", "refused 0: P1 5\n"),
    ("SHOW ROWS;", "refused 0: P1 9\n"),
    ("SHOW ROWS t VERSION 0;", "refused 0: P1 20\n"),
    ("SHOW ROWS t VERSION AS OF -1;", "refused 0: P1 26\n"),
    (
        "SHOW ROWS t VERSION AS OF 9223372036854775808;",
        "refused 0: P1 26\n",
    ),
    ("SHOW FILES t VERSION AS OF 0;", "refused 0: P1 13\n"),
    ("DELETE t;", "refused 0: P1 7\n"),
    ("DELETE FROM", "refused 0: P1 11\n"),
    ("DELETE FROM t FROM u;", "refused 0: P1 14\n"),
    ("DELETE FROM t WHERE TRUE;", "refused 0: P1 14\n"),
    ("SHOW FILES t; DELETE", "refused 0: P1 20\n"),
    (
        "SHOW FILES 1234567890123456789012345678901234567890123456789012345678901234567890123456789012345678901234567890;",
        "refused 1: O1\n",
    ),
    (
        "SHOW FILES 12345678901234567890123456789012345678901234567890123456789012345678901234567890123456789012345678901;",
        "refused 0: P1 11\n",
    ),
];

#[test]
fn reads_scripts(rt: HostRuntime) -> Result<(), Fail> {
    for (script, text) in &SCRIPTS {
        let script = Bytes::from_slice(rt.alloc(), script.as_bytes())?;
        let (_, written) = ran(rt.alloc(), &[], &NONE, &[], script)?;
        assert!(rt; written.as_slice() == text.as_bytes());
    }
    // A comment that isn't UTF-8; the longest script, and one byte more.
    let bad = Bytes::from_slice(rt.alloc(), b"SHOW FILES t;--\xff")?;
    assert!(rt;
        ran(rt.alloc(), &[], &NONE, &[], bad)?.1.as_slice() == "refused 0: P1 13\n".as_bytes()
    );
    for (length, ended, text) in [(1_048_576, 0, ""), (1_048_577, 3, "refused 0: P2\n")] {
        let spaces = Bytes::from_vec(vec![in rt.alloc(); b' '; length]?);
        let (status, written) = ran(rt.alloc(), &[], &NONE, &[], spaces)?;
        assert!(rt; status == ended);
        assert!(rt; written.as_slice() == text.as_bytes());
    }
    Ok(())
}

// The call that fails, and the status and text of the run.
struct Fault {
    failing: Failing,
    status: u8,
    text: &'static str,
}

// Each call of the run fails in turn. The first call of the store is the put before the run; then
// each statement lists and reads. The source gives the script at its first call, and its end at the
// second. A call that isn't made fails nothing.
const FAULTS: [Fault; 10] = [
    Fault {
        failing: Failing {
            source: &[1],
            ..NONE
        },
        status: 6,
        text: "",
    },
    Fault {
        failing: Failing {
            source: &[2],
            ..NONE
        },
        status: 6,
        text: "",
    },
    Fault {
        failing: Failing {
            source: &[3],
            ..NONE
        },
        status: 0,
        text: "a\na\n",
    },
    Fault {
        failing: Failing {
            store: &[2],
            ..NONE
        },
        status: 4,
        text: "",
    },
    Fault {
        failing: Failing {
            store: &[3],
            ..NONE
        },
        status: 4,
        text: "",
    },
    Fault {
        failing: Failing {
            store: &[4],
            ..NONE
        },
        status: 4,
        text: "a\n",
    },
    Fault {
        failing: Failing {
            store: &[5],
            ..NONE
        },
        status: 4,
        text: "a\n",
    },
    Fault {
        failing: Failing {
            store: &[6],
            sink: &[3],
            ..NONE
        },
        status: 0,
        text: "a\na\n",
    },
    Fault {
        failing: Failing { sink: &[1], ..NONE },
        status: 5,
        text: "",
    },
    Fault {
        failing: Failing { sink: &[2], ..NONE },
        status: 5,
        text: "a\n",
    },
];

#[test]
fn ends_with_the_status_of_a_fault(rt: HostRuntime) -> Result<(), Fail> {
    let files: &[File] = &[(ZERO, "{\"add\":{\"path\":\"a\"}}")];
    for fault in &FAULTS {
        let script = Bytes::from_slice(rt.alloc(), b"SHOW FILES t;SHOW FILES t;")?;
        let (status, written) = ran(rt.alloc(), files, &fault.failing, &[], script)?;
        assert!(rt; status == fault.status);
        assert!(rt; written.as_slice() == fault.text.as_bytes());
    }
    Ok(())
}

// A line that ends the run is written by the sink's first call.
#[test]
fn ends_where_a_line_is_not_written(rt: HostRuntime) -> Result<(), Fail> {
    let failing = Failing { sink: &[1], ..NONE };
    for script in [b"SHOW".as_slice(), b"SHOW FILES t;"] {
        let script = Bytes::from_slice(rt.alloc(), script)?;
        let (status, written) = ran(rt.alloc(), &[], &failing, &[], script)?;
        assert!(rt; status == 5);
        assert!(rt; written.is_empty());
    }
    Ok(())
}

#[test]
fn refuses_words(rt: HostRuntime) -> Result<(), Fail> {
    let words = vec![in rt.alloc(); String::from_str(rt.alloc(), "--rot")?]?;
    let (status, written) = ran(
        rt.alloc(),
        &[],
        &NONE,
        words.as_slice(),
        Bytes::new(rt.alloc()),
    )?;
    assert!(rt; status == 2);
    assert!(rt; written.as_slice() == "usage: deltamerge [--root DIR] [--workload N]\n".as_bytes());
    Ok(())
}
