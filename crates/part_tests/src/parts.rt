// The file of an action, as `load_part` reads it.
use crate::files::{CHANGES, ONE_ROW, TWO_ROWS};
use column_vectors::AnyColumn;
use data_file::{PartRows, Room};
use dm_store::{MemoryStore, Store};
use dm_types::{CountList, PartitionValues, Refused, Stop, TableRefusal, Text, Value};
use std::alloc::{AllocError, Global};
use std::test::Fail;
use table_load::{Head, PartView, load_head, load_part};

// A table of `k` and `v`.
const LOG: &str = concat!(
    r#"{"protocol":{"minReaderVersion":1,"minWriterVersion":2}}"#,
    "\n",
    r#"{"metaData":{"id":"i","schemaString":"{\"type\":\"struct\",\"fields\":[{\"name\":\"k\",\"type\":\"long\",\"nullable\":true,\"metadata\":{}},{\"name\":\"v\",\"type\":\"string\",\"nullable\":true,\"metadata\":{}}]}"}}"#,
    "\n",
);

const FILES: [(&str, &[u8]); 3] = [
    ("t/one row", ONE_ROW),
    ("t/two", TWO_ROWS),
    ("t/_change_data/c", CHANGES),
];

fn store_of(alloc: Global) -> Result<MemoryStore, Fail> {
    let mut store = MemoryStore::new(alloc, CountList::new(alloc), CountList::new(alloc))?;
    store.put_new("t/_delta_log/00000000000000000000.json", LOG.as_bytes())?;
    for (path, bytes) in FILES {
        store.put_new(path, bytes)?;
    }
    Ok(store)
}

// The file of an action, read with the columns of the table's newest version.
fn part_of(
    alloc: Global,
    store: &mut MemoryStore,
    path: &Text,
    deletion_vector: bool,
    change: bool,
) -> Result<PartRows, Stop> {
    let table = Text::from_str(alloc, "t")?;
    let values = PartitionValues::new(alloc);
    let view = PartView {
        path,
        values: &values,
        deletion_vector,
        change,
    };
    let head = load_head(alloc, store, &table, None)?;
    load_part(alloc, store, &table, &head, &view, &Room::whole())
}

// How many rows a file has, and how many cells it leaves.
type Size = (usize, u64);

fn size_of(part: Result<PartRows, Stop>) -> Option<Size> {
    let part = part.ok()?;
    Some((part.batch.rows, part.left.cells))
}

fn kinds_of(part: Result<PartRows, Stop>) -> Option<AnyColumn> {
    match part {
        Ok(PartRows { kinds, .. }) => kinds,
        Err(_) => None,
    }
}

fn code_of(part: Result<PartRows, Stop>) -> &'static str {
    match part.err() {
        Some(stop) => code(&stop),
        None => "",
    }
}

// The code of a refusal.
fn code(stop: &Stop) -> &'static str {
    match stop {
        Stop::Refused(Refused::Table(TableRefusal::DeletionVector { .. })) => "O10",
        Stop::Refused(Refused::Table(TableRefusal::BadPath { .. })) => "O11",
        Stop::Refused(Refused::Table(TableRefusal::MissingFile { .. })) => "O12",
        _ => "",
    }
}

fn is_text(value: &Value, wanted: &str) -> bool {
    match value {
        Value::Text(text) => text.as_str() == wanted,
        _ => false,
    }
}

// Whether a column has these texts.
fn has_texts(column: &AnyColumn, wanted: &[&str]) -> Result<bool, AllocError> {
    for row in 0..column.len() {
        if row >= wanted.len() || !is_text(&column.get(row)?, wanted[row]) {
            return Ok(false);
        }
    }
    Ok(column.len() == wanted.len())
}

// Whether there are kinds of changes, and these.
fn are_kinds(kinds: &Option<AnyColumn>, wanted: &[&str]) -> Result<bool, AllocError> {
    match kinds {
        Some(kinds) => has_texts(kinds, wanted),
        None => Ok(false),
    }
}

// A path as it is logged, whether the action has a deletion vector, and whether it is a change file's.
type Told = (&'static str, bool, bool);

const SIZES: [(Told, Option<Size>); 5] = [
    (("one%20row", false, false), Some((1, 19_999_998))),
    (("two", false, false), Some((2, 19_999_996))),
    (("_change_data/c", false, false), Some((2, 19_999_996))),
    (("_change_data/c", false, true), Some((2, 19_999_996))),
    // a change file has the kinds of its changes
    (("two", false, true), None),
];

#[test]
fn files_are_read_by_their_actions(rt: HostRuntime) -> Result<(), Fail> {
    let alloc = rt.alloc();
    let mut store = store_of(alloc)?;
    for ((path, vector, change), wanted) in SIZES {
        let path = Text::from_str(alloc, path)?;
        let part = part_of(alloc, &mut store, &path, vector, change);
        assert!(rt; size_of(part) == wanted);
    }
    Ok(())
}

#[test]
fn changes_have_their_kinds(rt: HostRuntime) -> Result<(), Fail> {
    let alloc = rt.alloc();
    let mut store = store_of(alloc)?;
    let path = Text::from_str(alloc, "_change_data/c")?;
    let part = part_of(alloc, &mut store, &path, false, true);
    let kinds = kinds_of(part);
    assert!(rt; are_kinds(&kinds, &["delete", "insert"])?);
    Ok(())
}

// A path as it is logged, whether the action has a deletion vector, and the code.
const REFUSED: [(&str, bool, &str); 3] = [
    ("../absent", true, "O10"),
    ("../absent", false, "O11"),
    ("absent", false, "O12"),
];

#[test]
fn the_first_check_of_a_file_decides(rt: HostRuntime) -> Result<(), Fail> {
    let alloc = rt.alloc();
    let mut store = store_of(alloc)?;
    for (path, vector, code) in REFUSED {
        let path = Text::from_str(alloc, path)?;
        let part = part_of(alloc, &mut store, &path, vector, false);
        assert!(rt; code_of(part) == code);
    }
    Ok(())
}
