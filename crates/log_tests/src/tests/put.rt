// New versions that are put, with data files and change files.
ghost use Rattle.std.specs.Prelude.{◌≡◌, IfOk};
ghost use Rattle.commit_log.specs.Block.{AreApart};

use super::{File, ZERO, are, store_of};
use commit_log::{CommitFault, NewFiles, commit};
use delta_actions::read_commit;
use dm_types::{Bytes, PathBytes, PutRefusal, Refused, Stop, Text};
use std::alloc::{AllocError, Global};
use std::process::Abort;
use std::test::Fail;

const ACTIONS: &str = concat!(
    "{\"add\":{\"path\":\"a.parquet\"}}\n",
    "{\"cdc\":{\"path\":\"_change_data/c.parquet\"}}\n",
);

const WRITTEN: &str = concat!(
    "{\"add\":{\"dataChange\":true,\"modificationTime\":0,\"path\":\"a.parquet\",\"size\":0}}\n",
    "{\"cdc\":{\"dataChange\":false,\"path\":\"_change_data/c.parquet\"}}\n",
);

const DATA: File = ("t/a.parquet", "1");

const CHANGES: File = ("t/_change_data/c.parquet", "2");

fn file_of(alloc: Global, path: &str, text: &str) -> Result<(Text, Bytes), AllocError>
    ensures { IfOk result (λ file. file ≡ (path.now, text.now)) }
{
    Ok((
        Text::from_str(alloc, path)?,
        Bytes::from_slice(alloc, text.as_bytes())?,
    ))
}

// Version 0 of a table, with a data file and a change file.
fn version_0(alloc: Global) -> Result<NewFiles, Fail>
    ensures { IfOk result AreApart }
{
    let mut files = PathBytes::new(alloc);
    files.push(file_of(alloc, "a.parquet", "1")?)?;
    files.push(file_of(alloc, "_change_data/c.parquet", "2")?)?;
    Ok(NewFiles {
        version: 0,
        table: Text::from_str(alloc, "t")?,
        files,
        actions: read_commit(alloc, ACTIONS.as_bytes())?,
    })
}

#[derive(Clone, Copy)]
enum Answer {
    Version(u64),
    NameTaken(&'static str),
    VersionTaken(u64),
    Failed,
}

fn is_answer(found: &Result<u64, CommitFault>, wanted: Answer) -> bool {
    match (found, wanted) {
        (Ok(version), Answer::Version(number)) => *version == number,
        (Err(CommitFault::NameTaken { path }), Answer::NameTaken(text)) => path.is(text),
        (Err(CommitFault::VersionTaken { version }), Answer::VersionTaken(number)) => {
            *version == number
        }
        (Err(CommitFault::Failed), Answer::Failed) => true,
        _ => false,
    }
}

// The files before, the call that is to fail, the answer, and the files behind it.
struct Case {
    files: &'static [File],
    failing: &'static [u64],
    answer: Answer,
    left: &'static [File],
}

const CASES: [Case; 7] = [
    Case {
        files: &[],
        failing: &[],
        answer: Answer::Version(0),
        left: &[DATA, CHANGES, (ZERO, WRITTEN)],
    },
    Case {
        files: &[("t/a.parquet", "old")],
        failing: &[],
        answer: Answer::NameTaken("t/a.parquet"),
        left: &[("t/a.parquet", "old")],
    },
    Case {
        files: &[("t/_change_data/c.parquet", "old")],
        failing: &[],
        answer: Answer::NameTaken("t/_change_data/c.parquet"),
        left: &[("t/_change_data/c.parquet", "old"), DATA],
    },
    Case {
        files: &[(ZERO, "old")],
        failing: &[],
        answer: Answer::VersionTaken(0),
        left: &[(ZERO, "old"), DATA, CHANGES],
    },
    Case {
        files: &[],
        failing: &[1],
        answer: Answer::Failed,
        left: &[],
    },
    Case {
        files: &[],
        failing: &[2],
        answer: Answer::Failed,
        left: &[DATA],
    },
    Case {
        files: &[],
        failing: &[3],
        answer: Answer::Failed,
        left: &[DATA, CHANGES],
    },
];

#[test]
fn versions_are_put(rt: HostRuntime) -> Result<(), Fail> {
    let alloc = rt.alloc();
    for case in &CASES {
        let fresh = version_0(alloc)?;
        let mut store = store_of(alloc, case.files, case.failing)?;
        assert!(rt; is_answer(&commit(alloc, &mut store, &fresh), case.answer));
        assert!(rt; are(store.files(), case.left));
    }
    Ok(())
}

#[test]
fn taken_paths_stop_a_statement(rt: HostRuntime) -> Result<(), Fail> {
    let path = Text::from_str(rt.alloc(), "t/a.parquet")?;
    let same = Text::from_str(rt.alloc(), "t/a.parquet")?;
    let named = Stop::from(CommitFault::NameTaken { path });
    assert!(rt; named == Stop::Refused(Refused::Put(PutRefusal::NameTaken { path: same })));
    let numbered = Stop::from(CommitFault::VersionTaken { version: 7 });
    assert!(rt; numbered == Stop::Refused(Refused::Put(PutRefusal::VersionTaken { version: 7 })));
    assert!(rt; Stop::from(CommitFault::Failed) == Stop::Store);
    Ok(())
}
