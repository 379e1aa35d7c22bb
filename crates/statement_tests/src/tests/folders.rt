// Runs over a real folder.
ghost use Rattle.std.specs.Prelude.{None};

use super::deletes::{DATA, TRACKED};
use dm_store::{
    Clock, ListFault, MemoryClock, MemoryNames, MemorySink, MemorySource, PutFault, ReadFault,
    Store,
};
use dm_system::Folder;
use dm_types::{Bytes, CountList, NameList, Text, TextList, WholeList};
use script_run::run;
use std::alloc::{AllocError, Global};
use std::test::Fail;
use std::{env, fs, process};

// The files of a runtime below a folder of the test's own. It tells none of them.
#[derive(Drop)]
struct Below {
    folder: Folder<HostRuntime>,
    alloc: Global,
    root: Text,
}

impl Below {
    fn path(&self, path: &str) -> Result<Text, AllocError> {
        let mut whole = Text::from_str(self.alloc, self.root.as_str())?;
        whole.push_str("/")?;
        whole.push_str(path)?;
        Ok(whole)
    }
}

impl Store for Below {
    ghost files = { λ s. None };

    ghost faults = { λ s. s.folder.faults };

    ghost taken = { λ s. s.folder.taken };

    ghost distinct = { λ s. tt };

    fn list(&mut self, alloc: Global, dir: &str) -> Result<TextList, ListFault> {
        let dir = self.path(dir)?;
        self.folder.list(alloc, dir.as_str())
    }

    fn read(&mut self, alloc: Global, path: &str) -> Result<Bytes, ReadFault> {
        let path = self.path(path)?;
        self.folder.read(alloc, path.as_str())
    }

    fn put_new(&mut self, path: &str, bytes: &[u8]) -> Result<(), PutFault> {
        let path = self.path(path)?;
        self.folder.put_new(path.as_str(), bytes)
    }
}

// A folder that no other test has, by its name.
fn folder_of(rt: HostRuntime, name: &str) -> Result<Below, Fail> {
    let alloc = rt.alloc();
    let above = env::temp_dir(&rt)?;
    let above = above.as_str();
    let process = process::id(rt.process());
    let root = format!(in alloc; "{above}/deltamerge-{name}-{process}")?;
    Ok(Below {
        folder: Folder::new(rt),
        alloc,
        root: Text::from_str(alloc, root.as_str())?,
    })
}

// The status of a run over the files, and what it wrote.
fn ran<C: Clock>(
    files: &mut Below,
    clock: &mut C,
    script: &str,
) -> Result<(u8, Bytes), AllocError> {
    let alloc = files.alloc;
    let script = Bytes::from_slice(alloc, script.as_bytes())?;
    let mut source = MemorySource::new(script, CountList::new(alloc))?;
    let mut sink = MemorySink::new(alloc, CountList::new(alloc))?;
    let mut names = MemoryNames::new(NameList::new(alloc), CountList::new(alloc))?;
    let status = run(alloc, &[], &mut source, files, &mut sink, clock, &mut names);
    Ok((status, sink.written().clone()?))
}

// A file that lies there before a run, the script, and what the run must write.
struct Case {
    path: &'static str,
    bytes: &'static str,
    script: &'static str,
    text: &'static str,
}

const ZERO: &str = "t/_delta_log/00000000000000000000.json";

const CASES: [Case; 3] = [
    Case {
        path: "t",
        bytes: "no folder",
        script: "SHOW FILES t;",
        text: "refused 1: O1\n",
    },
    Case {
        path: "t/_delta_log",
        bytes: "no folder",
        script: "SHOW FILES t;",
        text: "refused 1: O1\n",
    },
    // A folder among commit files is none.
    Case {
        path: "t/_delta_log/00000000000000000000.json/a",
        bytes: "",
        script: "SHOW FILES t;",
        text: "refused 1: O1\n",
    },
];

#[test]
fn finds_tables_in_a_folder(rt: HostRuntime) -> Result<(), Fail> {
    let alloc = rt.alloc();
    for case in &CASES {
        let mut files = folder_of(rt, "tables")?;
        files.put_new(case.path, case.bytes.as_bytes())?;
        let mut clock = MemoryClock::new(WholeList::new(alloc))?;
        let (_, text) = ran(&mut files, &mut clock, case.script)?;
        fs::remove_dir_all(&rt, files.root.as_str())?;
        assert!(rt; text.as_slice() == case.text.as_bytes());
    }
    Ok(())
}

// Puts the table of one row.
fn put_table(files: &mut Below) -> Result<(), PutFault> {
    files.put_new(DATA.0, DATA.1)?;
    files.put_new(ZERO, TRACKED.as_bytes())
}

#[test]
fn shows_and_deletes_the_rows_of_a_folder(rt: HostRuntime) -> Result<(), Fail> {
    let mut files = folder_of(rt, "rows")?;
    put_table(&mut files)?;
    let mut clock = MemoryClock::new(WholeList::new(rt.alloc()))?;
    let script =
        "SHOW FILES t; SHOW ROWS t; DELETE FROM t; SHOW FILES t; DELETE FROM t; SHOW ROWS t VERSION AS OF 0;";
    let (status, text) = ran(&mut files, &mut clock, script)?;
    fs::remove_dir_all(&rt, files.root.as_str())?;
    assert_eq!(rt; status, 0);
    let row = "id\tversion\tk\tv\n0\t0\t3\t\\N\n";
    let wanted = format!(in rt.alloc(); "a.parquet\n{row}version 1\nversion 2\n{row}")?;
    assert!(rt; text.as_slice() == wanted.as_bytes());
    Ok(())
}

// Another program, which deletes all rows of the table whenever the time is asked for: that is
// between the checks of this program and its puts.
#[derive(Drop)]
struct OtherProgram {
    files: Below,
    // The last status of the other program.
    status: u8,
}

impl Clock for OtherProgram {
    ghost given = { λ c. None };

    fn now_ms(&mut self) -> i64 {
        self.status = match delete_all(&mut self.files) {
            Ok(status) => status,
            Err(_) => u8::MAX,
        };
        5
    }
}

fn delete_all(files: &mut Below) -> Result<u8, AllocError> {
    let mut clock = MemoryClock::new(WholeList::new(files.alloc))?;
    let (status, _) = ran(files, &mut clock, "DELETE FROM t;")?;
    Ok(status)
}

#[test]
fn one_of_two_programs_commits(rt: HostRuntime) -> Result<(), Fail> {
    let alloc = rt.alloc();
    let mut files = folder_of(rt, "programs")?;
    put_table(&mut files)?;
    let mut other = OtherProgram {
        files: folder_of(rt, "programs")?,
        status: u8::MAX,
    };
    let (status, text) = ran(&mut files, &mut other, "DELETE FROM t;")?;
    let log = files.list(alloc, "t/_delta_log")?.len();
    fs::remove_dir_all(&rt, files.root.as_str())?;
    assert_eq!(rt; status, 1);
    assert!(rt; text.as_slice() == b"refused 1: S17 1\n".as_slice());
    assert_eq!(rt; other.status, 0);
    assert_eq!(rt; log, 2);
    Ok(())
}
