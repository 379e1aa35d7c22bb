// Tables that are loaded, at a version and at the newest, and the refusals on the way.
use super::{File, ONE, THREE, ZERO, store_of};
use dm_store::{ClaimStore, Store};
use dm_types::{Refused, Stop, TableRefusal, Text, TextList};
use log_replay::Commits;
use std::alloc::Global;
use std::process::Abort;
use std::test::Fail;
use table_load::{Head, load_head, load_log};

const OPENED: &str = concat!(
    "{\"protocol\":{\"minReaderVersion\":1,\"minWriterVersion\":2}}\n",
    r#"{"metaData":{"id":"i","schemaString":"{\"type\":\"struct\",\"fields\":[{\"name\":\"k\",\"type\":\"long\",\"nullable\":true,\"metadata\":{}}]}"}}"#,
    "\n",
    "{\"add\":{\"path\":\"a.parquet\"}}\n",
);

const MOVED: &str = concat!(
    "{\"add\":{\"path\":\"b.parquet\"}}\n",
    "{\"remove\":{\"path\":\"a.parquet\"}}\n",
);

const NO_SCHEMA: &str = concat!(
    "{\"protocol\":{\"minReaderVersion\":1,\"minWriterVersion\":2}}\n",
    "{\"metaData\":{\"id\":\"i\",\"schemaString\":\"{}\"}}\n",
);

const NEWER: &str = "{\"protocol\":{\"minReaderVersion\":4,\"minWriterVersion\":7}}\n";

const TWO_VERSIONS: [File; 2] = [(ZERO, OPENED), (ONE, MOVED)];

// The printed code of a refusal and its numbers.
type Code = (&'static str, u64, u64);

fn code_of(stop: &Stop) -> Code {
    let Stop::Refused(Refused::Table(refusal)) = stop else {
        return ("", 0, 0);
    };
    match refusal {
        TableRefusal::NoTable => ("O1", 0, 0),
        TableRefusal::LogGap { version } => ("O2", *version, 0),
        TableRefusal::BadAction { version, line } => ("O3", *version, *line),
        TableRefusal::ProtocolUnsupported { reader, writer } => {
            ("O4", *reader as u64, *writer as u64)
        }
        TableRefusal::NoMetadata => ("O6", 0, 0),
        TableRefusal::BadSchema => ("O7", 0, 0),
        TableRefusal::NoSuchVersion { version } => ("O21", *version, 0),
        _ => ("", 0, 0),
    }
}

// What is read: how many actions each commit has, and the path that is live; or the refusal.
#[derive(Clone, Copy)]
enum Found {
    Table(&'static [usize], &'static str),
    Refused(Code),
}

// Files, the version that is asked for, and what is read.
struct Case {
    files: &'static [File],
    version: Option<u64>,
    found: Found,
}

// What `load_log` and `load_head` both find.
const LOGS: [Case; 7] = [
    Case {
        files: &TWO_VERSIONS,
        version: None,
        found: Found::Table(&[3, 2], "b.parquet"),
    },
    Case {
        files: &TWO_VERSIONS,
        version: Some(1),
        found: Found::Table(&[3, 2], "b.parquet"),
    },
    Case {
        files: &TWO_VERSIONS,
        version: Some(0),
        found: Found::Table(&[3], "a.parquet"),
    },
    Case {
        files: &TWO_VERSIONS,
        version: Some(2),
        found: Found::Refused(("O21", 2, 0)),
    },
    Case {
        files: &[("u/_delta_log/00000000000000000000.json", OPENED)],
        version: Some(0),
        found: Found::Refused(("O1", 0, 0)),
    },
    Case {
        files: &[(ZERO, OPENED), (THREE, "")],
        version: Some(0),
        found: Found::Refused(("O2", 1, 0)),
    },
    Case {
        files: &[(ZERO, OPENED), (ONE, "{\"txn\":{}}\n{\n")],
        version: None,
        found: Found::Refused(("O3", 1, 2)),
    },
];

// What `load_head` refuses alone.
const HEADS: [Case; 5] = [
    Case {
        files: &[(ZERO, MOVED)],
        version: None,
        found: Found::Refused(("O6", 0, 0)),
    },
    Case {
        files: &[(ZERO, OPENED), (ONE, NEWER)],
        version: Some(1),
        found: Found::Refused(("O4", 4, 7)),
    },
    Case {
        files: &[(ZERO, OPENED), (ONE, NEWER)],
        version: Some(0),
        found: Found::Table(&[3], "a.parquet"),
    },
    // The protocol decides before the columns do.
    Case {
        files: &[(ZERO, NO_SCHEMA), (ONE, NEWER)],
        version: None,
        found: Found::Refused(("O4", 4, 7)),
    },
    Case {
        files: &[(ZERO, NO_SCHEMA), (ONE, NEWER)],
        version: Some(0),
        found: Found::Refused(("O7", 0, 0)),
    },
];

fn has_counts(commits: &Commits, counts: &[usize]) -> bool {
    if commits.len() != counts.len() {
        return false;
    }
    for place in 0..commits.len() {
        let commit = commits.get(place);
        if commit.version != place as u64 || commit.actions.len() != counts[place] {
            return false;
        }
    }
    true
}

fn is_log(answer: &Result<Commits, Stop>, found: Found) -> bool {
    match (answer, found) {
        (Ok(commits), Found::Table(counts, _)) => has_counts(commits, counts),
        (Err(stop), Found::Refused(code)) => code_of(stop) == code,
        _ => false,
    }
}

fn is_head(answer: &Result<Head, Stop>, found: Found) -> bool {
    match (answer, found) {
        (Ok(head), Found::Table(counts, path)) => {
            let table = &head.snapshot;
            table.version.checked_add(1) == Some(counts.len() as u64)
                && table.live.len() == 1
                && table.live.as_slice().iter().all(|add| add.path.is(path))
        }
        (Err(stop), Found::Refused(code)) => code_of(stop) == code,
        _ => false,
    }
}

#[test]
fn logs_are_loaded(rt: HostRuntime) -> Result<(), Fail> {
    let alloc = rt.alloc();
    let table = Text::from_str(alloc, "t")?;
    for case in &LOGS {
        let mut store = store_of(alloc, case.files, &[])?;
        assert!(rt;
            is_log(
                &load_log(alloc, &mut store, &table, case.version),
                case.found
            )
        );
    }
    Ok(())
}

#[test]
fn states_are_loaded(rt: HostRuntime) -> Result<(), Fail> {
    let alloc = rt.alloc();
    let table = Text::from_str(alloc, "t")?;
    for cases in [LOGS.as_slice(), HEADS.as_slice()] {
        for case in cases {
            let mut store = store_of(alloc, case.files, &[])?;
            assert!(rt;
                is_head(
                    &load_head(alloc, &mut store, &table, case.version),
                    case.found
                )
            );
        }
    }
    Ok(())
}

// The third call lists the log folder, and the fourth and the fifth read commit files.
#[test]
fn failing_calls_of_a_store_stop_loading(rt: HostRuntime) -> Result<(), Fail> {
    let alloc = rt.alloc();
    let table = Text::from_str(alloc, "t")?;
    for call in [3, 4, 5] {
        let mut store = store_of(alloc, &TWO_VERSIONS, &[call])?;
        assert!(rt; matches!(load_log(alloc, &mut store, &table, None), Err(Stop::Store)));
    }
    Ok(())
}

// Another writer's commit is listed, and gone when it is read: its version is missing.
#[test]
fn a_listed_commit_that_is_absent_is_missing(rt: HostRuntime) -> Result<(), Fail> {
    let alloc = rt.alloc();
    let table = Text::from_str(alloc, "t")?;
    let mut listed = TextList::new(alloc);
    listed.push(Text::from_str(alloc, "00000000000000000001.json")?)?;
    let inner = store_of(alloc, &[(ZERO, OPENED)], &[])?;
    let mut store = ClaimStore::new(inner, TextList::new(alloc), listed)?;
    let answer = load_log(alloc, &mut store, &table, None);
    assert!(rt; is_log(&answer, Found::Refused(("O2", 1, 0))));
    assert!(rt;
        is_log(
            &load_log(alloc, &mut store, &table, Some(0)),
            Found::Table(&[3], "")
        )
    );
    Ok(())
}
