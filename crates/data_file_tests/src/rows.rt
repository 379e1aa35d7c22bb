// The rows of a file, and its first fault.
ghost use Rattle.std.specs.Prelude.{All, IfOk};
ghost use Rattle.dm_types.specs.Ranges.{IsWellFormed};

use crate::files::{MANY, MOST, SNAPPY, TWICE, WHOLE};
use column_mapping::Mode;
use column_vectors::AnyColumn;
use data_file::{Columns, MAX_CELLS, MAX_TEXT, PartRows, Room, read_rows};
use delta_schema::{ColumnDef, TableSchema};
use dm_types::{DataType, PartitionValues, Text, TextPairs, Value};
use std::alloc::{AllocError, Global};
use std::test::Fail;

// A type of a column.
#[derive(Clone, Copy)]
enum Kind {
    Long,
    Str,
    Date,
}

// A file made by hand.
#[derive(Clone, Copy)]
enum File {
    Whole,
    Twice,
    Snappy,
    Many,
    Most,
}

// A column: its name and its type; whether it is nullable, whether the table is partitioned by it; its
// id and its physical name.
type Column = (
    &'static str,
    Kind,
    (bool, bool),
    Option<i32>,
    Option<&'static str>,
);

// A column that takes nulls, and that a file holds.
const STORED: (bool, bool) = (true, false);

// A column that takes no nulls, and that a file holds.
const FULL: (bool, bool) = (false, false);

// A partition column that takes nulls.
const PARTED: (bool, bool) = (true, true);

// What is read of which file, and what comes of it: the values of each column, and the room that is
// left, or the fault.
#[derive(Drop)]
struct Case {
    columns: &'static [Column],
    mode: Mode,
    values: &'static [(&'static str, Option<&'static str>)],
    // The names of the materialized columns.
    tracked: (Option<&'static str>, Option<&'static str>),
    change: bool,
    file: File,
    cells: u64,
    text: u64,
    wanted: &'static str,
}

const K: Column = ("k", Kind::Long, STORED, None, None);

const T: Column = ("t", Kind::Str, STORED, None, None);

const P: Column = ("p", Kind::Str, PARTED, None, None);

const DAY: Column = ("d", Kind::Date, PARTED, None, None);

const NEVER_NULL: Column = ("n", Kind::Str, (false, true), None, None);

// Two columns of the whole file, in a room that they fill.
const PLAIN: Case = Case {
    columns: &[K, T],
    mode: Mode::Plain,
    values: &[],
    tracked: (None, None),
    change: false,
    file: File::Whole,
    cells: 6,
    text: 4,
    wanted: "1 - 3 | a bcd - | left 0 0",
};

const CASES: [Case; 33] = [
    PLAIN,
    Case {
        cells: 5,
        wanted: "TooLarge { counted: Cells }",
        ..PLAIN
    },
    Case {
        text: 3,
        wanted: "TooLarge { counted: TextBytes }",
        ..PLAIN
    },
    Case {
        columns: &[T, K],
        text: 9,
        wanted: "a bcd - | 1 - 3 | left 0 5",
        ..PLAIN
    },
    // A column that no element carries.
    Case {
        columns: &[K, ("m", Kind::Str, STORED, None, None)],
        wanted: "1 - 3 | - - - | left 0 4",
        ..PLAIN
    },
    Case {
        columns: &[K, ("m", Kind::Str, FULL, None, None)],
        wanted: "Mismatch { column: Table(1) }",
        ..PLAIN
    },
    // A null that a column doesn't take, and a column of another type.
    Case {
        columns: &[("k", Kind::Long, FULL, None, None), T],
        wanted: "Range { column: Table(0) }",
        ..PLAIN
    },
    Case {
        columns: &[K, ("t", Kind::Long, STORED, None, None)],
        wanted: "Mismatch { column: Table(1) }",
        ..PLAIN
    },
    // Modes name and id.
    Case {
        columns: &[
            ("k", Kind::Str, STORED, Some(1), Some("t")),
            ("t", Kind::Long, STORED, Some(2), Some("k")),
        ],
        mode: Mode::ByName,
        wanted: "a bcd - | 1 - 3 | left 0 0",
        ..PLAIN
    },
    Case {
        columns: &[
            ("x", Kind::Str, STORED, Some(2), Some("p")),
            ("y", Kind::Long, PARTED, Some(7), Some("t")),
        ],
        mode: Mode::ById,
        values: &[("y", Some("5")), ("t", Some("-12"))],
        text: 13,
        wanted: "a bcd - | -12 -12 -12 | left 0 0",
        ..PLAIN
    },
    // Partition values: a text, which counts once for each row; a null, an empty text and none.
    Case {
        columns: &[P, K],
        values: &[("q", Some("no")), ("p", Some("xy"))],
        text: 6,
        wanted: "xy xy xy | 1 - 3 | left 0 0",
        ..PLAIN
    },
    Case {
        columns: &[P, K],
        values: &[("p", Some("xy"))],
        text: 5,
        wanted: "TooLarge { counted: TextBytes }",
        ..PLAIN
    },
    Case {
        columns: &[P, K],
        values: &[("p", None)],
        text: 0,
        wanted: "- - - | 1 - 3 | left 0 0",
        ..PLAIN
    },
    Case {
        columns: &[P, K],
        values: &[("p", Some(""))],
        wanted: "- - - | 1 - 3 | left 0 4",
        ..PLAIN
    },
    Case {
        columns: &[P, K],
        wanted: "- - - | 1 - 3 | left 0 4",
        ..PLAIN
    },
    Case {
        columns: &[DAY, K],
        values: &[("d", Some("1970-01-02"))],
        text: 30,
        wanted: "Day(1) Day(1) Day(1) | 1 - 3 | left 0 0",
        ..PLAIN
    },
    // Partition values that aren't read.
    Case {
        columns: &[K, NEVER_NULL],
        values: &[("n", Some(""))],
        wanted: "Partition { column: 1 }",
        ..PLAIN
    },
    Case {
        columns: &[K, DAY, NEVER_NULL],
        values: &[("d", Some("1970-02-30"))],
        cells: 9,
        wanted: "Partition { column: 1 }",
        ..PLAIN
    },
    // A partition column isn't looked for among the elements.
    Case {
        columns: &[K, ("t", Kind::Str, PARTED, None, None)],
        file: File::Twice,
        wanted: "1 - 3 | - - - | left 0 4",
        ..PLAIN
    },
    // The order of faults: cells, partition values, their text, columns.
    Case {
        columns: &[("m", Kind::Str, FULL, None, None), DAY, NEVER_NULL],
        values: &[("d", Some("x"))],
        cells: 8,
        wanted: "TooLarge { counted: Cells }",
        ..PLAIN
    },
    Case {
        columns: &[("m", Kind::Str, FULL, None, None), P, NEVER_NULL],
        values: &[("p", Some("long"))],
        cells: 9,
        wanted: "Partition { column: 2 }",
        ..PLAIN
    },
    Case {
        columns: &[("m", Kind::Str, FULL, None, None), P],
        values: &[("p", Some("long"))],
        wanted: "TooLarge { counted: TextBytes }",
        ..PLAIN
    },
    // Materialized columns, by name in each mode.
    Case {
        columns: &[("x", Kind::Long, STORED, Some(1), Some("y"))],
        mode: Mode::ById,
        tracked: (Some("r"), Some("v")),
        wanted: "1 - 3 | - 7 - | - - - | left 3 4",
        ..PLAIN
    },
    Case {
        columns: &[K],
        tracked: (Some("t"), None),
        wanted: "Mismatch { column: Ids }",
        ..PLAIN
    },
    Case {
        columns: &[K],
        tracked: (None, Some("t")),
        wanted: "Mismatch { column: Versions }",
        ..PLAIN
    },
    // Kinds of changes.
    Case {
        columns: &[K],
        change: true,
        text: 27,
        wanted: "1 - 3 | insert delete update_preimage | left 3 0",
        ..PLAIN
    },
    Case {
        columns: &[K],
        change: true,
        text: 26,
        wanted: "TooLarge { counted: TextBytes }",
        ..PLAIN
    },
    Case {
        columns: &[K],
        change: true,
        file: File::Twice,
        text: 20,
        wanted: "Range { column: ChangeType }",
        ..PLAIN
    },
    Case {
        columns: &[K],
        change: true,
        file: File::Snappy,
        wanted: "Mismatch { column: ChangeType }",
        ..PLAIN
    },
    // Elements that carry a column twice, and a compressed chunk.
    Case {
        file: File::Twice,
        wanted: "Mismatch { column: Table(1) }",
        ..PLAIN
    },
    Case {
        file: File::Snappy,
        wanted: "Compressed",
        ..PLAIN
    },
    // Great numbers of rows.
    Case {
        columns: &[K],
        file: File::Many,
        cells: MAX_CELLS,
        text: MAX_TEXT,
        wanted: "TooLarge { counted: Cells }",
        ..PLAIN
    },
    Case {
        file: File::Most,
        cells: MAX_CELLS,
        text: MAX_TEXT,
        wanted: "TooLarge { counted: Cells }",
        ..PLAIN
    },
];

fn bytes_of(file: File) -> &'static [u8] {
    match file {
        File::Whole => WHOLE,
        File::Twice => TWICE,
        File::Snappy => SNAPPY,
        File::Many => MANY,
        File::Most => MOST,
    }
}

fn kind_of(kind: Kind) -> DataType
    ensures { IsWellFormed result }
{
    match kind {
        Kind::Long => DataType::Long,
        Kind::Str => DataType::Str,
        Kind::Date => DataType::Date,
    }
}

fn text_of(alloc: Global, text: Option<&str>) -> Result<Option<Text>, AllocError> {
    match text {
        Some(text) => Ok(Some(Text::from_str(alloc, text)?)),
        None => Ok(None),
    }
}

fn column_of(alloc: Global, column: &Column) -> Result<ColumnDef, AllocError>
    ensures { IfOk result (λ column. IsWellFormed column.kind) }
{
    let (name, kind, (nullable, partition), id, physical) = *column;
    Ok(ColumnDef {
        name: Text::from_str(alloc, name)?,
        kind: kind_of(kind),
        nullable,
        partition,
        id,
        physical: text_of(alloc, physical)?,
        generation: None,
        identity: None,
        invariant: false,
        other: TextPairs::new(alloc),
    })
}

fn schema_of(alloc: Global, columns: &[Column]) -> Result<TableSchema, AllocError>
    ensures { IfOk result (All (λ column. IsWellFormed column.kind)) }
{
    let mut schema = TableSchema::new(alloc);
    for column in columns {
        let one = column_of(alloc, column)?;
        schema.push(one)?;
    }
    Ok(schema)
}

fn values_of(
    alloc: Global,
    values: &[(&'static str, Option<&'static str>)],
) -> Result<PartitionValues, AllocError> {
    let mut list = PartitionValues::new(alloc);
    for (name, value) in values {
        list.push((Text::from_str(alloc, *name)?, text_of(alloc, *value)?))?;
    }
    Ok(list)
}

// Adds the values of a column.
fn show(alloc: Global, column: &AnyColumn, text: &mut String) -> Result<(), AllocError> {
    for row in 0..column.len() {
        let value = match column.get(row)? {
            Value::Null => format!(in alloc; "- ")?,
            Value::Int(number) => format!(in alloc; "{number} ")?,
            Value::Text(inner) => format!(in alloc; "{} ", inner.as_str())?,
            value => format!(in alloc; "{value:?} ")?,
        };
        text.push_str(&value)?;
    }
    text.push_str("| ")
}

fn shown(alloc: Global, part: &PartRows) -> Result<String, AllocError> {
    let mut text = String::new(alloc);
    for column in part.batch.columns.as_slice() {
        show(alloc, column, &mut text)?;
    }
    if let Some(column) = &part.ids {
        show(alloc, column, &mut text)?;
    }
    if let Some(column) = &part.versions {
        show(alloc, column, &mut text)?;
    }
    if let Some(column) = &part.kinds {
        show(alloc, column, &mut text)?;
    }
    let left = format!(in alloc; "left {} {}", part.left.cells, part.left.text)?;
    text.push_str(&left)?;
    Ok(text)
}

// What comes of a case.
fn told(alloc: Global, case: &Case) -> Result<String, AllocError> {
    let schema = schema_of(alloc, case.columns)?;
    let values = values_of(alloc, case.values)?;
    let ids = text_of(alloc, case.tracked.0)?;
    let versions = text_of(alloc, case.tracked.1)?;
    let (ids_name, versions_name) = (ids.as_ref(), versions.as_ref());
    let columns = Columns {
        schema: &schema,
        mode: case.mode,
        ids: ids_name,
        versions: versions_name,
        change: case.change,
    };
    let room = Room {
        cells: case.cells,
        text: case.text,
    };
    match read_rows(alloc, &columns, &values, bytes_of(case.file), &room) {
        Ok(part) => shown(alloc, &part),
        Err(fault) => format!(in alloc; "{fault:?}"),
    }
}

#[test]
fn rows_of_files(rt: HostRuntime) -> Result<(), Fail> {
    let alloc = rt.alloc();
    for case in &CASES {
        let told = told(alloc, case)?;
        assert_eq!(rt; told.as_str(), case.wanted);
    }
    Ok(())
}

#[test]
fn cut_files_are_refused(rt: HostRuntime) -> Result<(), Fail> {
    let alloc = rt.alloc();
    let room = Room::whole();
    let schema = TableSchema::new(alloc);
    let values = PartitionValues::new(alloc);
    let columns = Columns {
        schema: &schema,
        mode: Mode::Plain,
        ids: None,
        versions: None,
        change: false,
    };
    for end in 0..WHOLE.len() {
        let told = match read_rows(alloc, &columns, &values, &WHOLE[..end], &room) {
            Ok(part) => shown(alloc, &part)?,
            Err(fault) => format!(in alloc; "{fault:?}")?,
        };
        assert_eq!(rt; told.as_str(), "BadParquet");
    }
    Ok(())
}
