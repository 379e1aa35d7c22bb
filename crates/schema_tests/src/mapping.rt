// The mapping of columns, and where they are in data files.
use column_mapping::{Mode, PlaceChoice, check_mapping, find_named, resolve};
use delta_schema::{ColumnDef, TableSchema};
use dm_types::{DataType, Items, Text, TextPairs};
use parquet_meta::{Annotation, LeafList, LeafSchema, Logical, SharedBytes, numbers};
use std::alloc::{AllocError, Global};
use std::test::Fail;

// A column: its name, whether it is nullable, whether the table is partitioned by it, its id and its
// physical name.
type Column = (&'static str, bool, bool, Option<i32>, Option<&'static str>);

// A leaf: the name of its top-level element, whether it is that element, and the element's field id.
type Leaf = (&'static [u8], bool, Option<i32>);

fn text_of(alloc: Global, text: Option<&str>) -> Result<Option<Text>, AllocError> {
    match text {
        Some(text) => Ok(Some(Text::from_str(alloc, text)?)),
        None => Ok(None),
    }
}

fn column_of(
    alloc: Global,
    name: &str,
    is: (bool, bool),
    id: Option<i32>,
    physical: Option<&str>,
) -> Result<ColumnDef, AllocError> {
    let (nullable, partition) = is;
    Ok(ColumnDef {
        name: Text::from_str(alloc, name)?,
        kind: DataType::Long,
        nullable,
        partition,
        id,
        physical: text_of(alloc, physical)?,
        generation: None,
        identity: None,
        invariant: false,
        other: TextPairs::new(alloc),
    })
}

fn schema_of(alloc: Global, columns: &[Column]) -> Result<TableSchema, AllocError> {
    let mut schema = TableSchema::new(alloc);
    for (name, nullable, partition, id, physical) in columns {
        schema.push(column_of(alloc, *name, (*nullable, *partition), *id, *physical)?)?;
    }
    Ok(schema)
}

fn leaf_of(
    alloc: Global,
    name: &[u8],
    top: bool,
    field_id: Option<i32>,
) -> Result<LeafSchema, AllocError> {
    Ok(LeafSchema {
        name: SharedBytes::new(alloc, Items::from_slice(alloc, name)?)?,
        top,
        physical: numbers::INT64,
        length: 0,
        optional: true,
        repeated: false,
        annotation: Annotation {
            converted: None,
            scale: None,
            precision: None,
            logical: Logical::Absent,
        },
        field_id,
    })
}

fn leaves_of(alloc: Global, leaves: &[Leaf]) -> Result<LeafList, AllocError> {
    let mut list = LeafList::new(alloc);
    for (name, top, field_id) in leaves {
        list.push(leaf_of(alloc, *name, *top, *field_id)?)?;
    }
    Ok(list)
}

// Columns, and the first of them that breaks the mapping in modes name and id.
type Marks = (&'static [Column], Option<usize>);

const MARKS: [Marks; 11] = [
    (&[], None),
    (
        &[
            ("k", true, false, Some(2), Some("col-y")),
            ("v", true, false, Some(1), Some("col-x")),
        ],
        None,
    ),
    // A name may be another column's physical name, and physical names may differ by case alone.
    (
        &[
            ("x", true, false, Some(1), Some("y")),
            ("y", true, false, Some(2), Some("x")),
            ("z", true, false, Some(3), Some("X")),
        ],
        None,
    ),
    (
        &[
            ("k", true, false, Some(1), Some("a")),
            ("v", true, false, None, Some("b")),
        ],
        Some(1),
    ),
    (&[("k", true, false, Some(1), None)], Some(0)),
    (
        &[
            ("k", true, true, None, None),
            ("v", true, false, Some(1), Some("b")),
        ],
        Some(0),
    ),
    (
        &[
            ("k", true, false, Some(1), Some("a")),
            ("v", true, false, Some(2), Some("b")),
            ("w", true, false, Some(1), Some("c")),
        ],
        Some(2),
    ),
    (
        &[
            ("k", true, false, Some(1), Some("a")),
            ("v", true, false, Some(2), Some("b")),
            ("w", true, false, Some(3), Some("a")),
        ],
        Some(2),
    ),
    // The first of several.
    (
        &[
            ("k", true, false, Some(1), Some("a")),
            ("v", true, false, Some(2), Some("a")),
            ("w", true, false, None, None),
            ("x", true, false, Some(1), Some("a")),
        ],
        Some(1),
    ),
    (
        &[
            ("k", true, false, Some(-2_147_483_648), Some("a")),
            ("v", true, false, Some(2_147_483_647), Some("b")),
            ("w", true, false, Some(-2_147_483_648), Some("c")),
        ],
        Some(2),
    ),
    // An empty physical name is one.
    (
        &[
            ("k", true, false, Some(1), Some("")),
            ("v", true, false, Some(2), Some("")),
        ],
        Some(1),
    ),
];

#[test]
fn names_the_first_column_that_breaks_the_mapping(rt: HostRuntime) -> Result<(), Fail> {
    for (columns, first) in MARKS {
        let schema = schema_of(rt.alloc(), columns)?;
        assert!(rt; check_mapping(&schema, Mode::Plain) == None);
        assert!(rt; check_mapping(&schema, Mode::ByName) == first);
        assert!(rt; check_mapping(&schema, Mode::ById) == first);
    }
    Ok(())
}

// A table's columns and a file's leaves, and where each column is in modes none, name and id.
struct Case {
    columns: &'static [Column],
    leaves: &'static [Leaf],
    plain: &'static [PlaceChoice],
    by_name: &'static [PlaceChoice],
    by_id: &'static [PlaceChoice],
}

const CASES: [Case; 9] = [
    // Ids out of order, and names that are no column's.
    Case {
        columns: &[
            ("k", true, false, Some(2), Some("col-y")),
            ("v", true, false, Some(1), Some("col-x")),
        ],
        leaves: &[(b"col-x", true, Some(1)), (b"col-y", true, Some(2))],
        plain: &[PlaceChoice::Missing, PlaceChoice::Missing],
        by_name: &[PlaceChoice::At(1), PlaceChoice::At(0)],
        by_id: &[PlaceChoice::At(1), PlaceChoice::At(0)],
    },
    // Each mode finds another leaf.
    Case {
        columns: &[("k", false, false, Some(7), Some("p"))],
        leaves: &[
            (b"k", true, Some(1)),
            (b"p", true, None),
            (b"x", true, Some(7)),
        ],
        plain: &[PlaceChoice::At(0)],
        by_name: &[PlaceChoice::At(1)],
        by_id: &[PlaceChoice::At(2)],
    },
    // None carries it.
    Case {
        columns: &[
            ("k", true, false, Some(7), Some("p")),
            ("v", false, false, Some(8), Some("q")),
        ],
        leaves: &[(b"K", true, Some(-7)), (b"\xff", true, None)],
        plain: &[PlaceChoice::Missing, PlaceChoice::Wrong],
        by_name: &[PlaceChoice::Missing, PlaceChoice::Wrong],
        by_id: &[PlaceChoice::Missing, PlaceChoice::Wrong],
    },
    // There is no leaf.
    Case {
        columns: &[
            ("k", true, true, Some(1), Some("p")),
            ("v", true, false, Some(2), Some("q")),
        ],
        leaves: &[],
        plain: &[PlaceChoice::Partition, PlaceChoice::Missing],
        by_name: &[PlaceChoice::Partition, PlaceChoice::Missing],
        by_id: &[PlaceChoice::Partition, PlaceChoice::Missing],
    },
    // Two carry it.
    Case {
        columns: &[
            ("a", true, false, Some(1), Some("p")),
            ("b", true, false, Some(2), Some("q")),
        ],
        leaves: &[
            (b"a", true, Some(2)),
            (b"q", true, None),
            (b"a", true, Some(1)),
            (b"b", true, Some(2)),
            (b"q", true, None),
        ],
        plain: &[PlaceChoice::Wrong, PlaceChoice::At(3)],
        by_name: &[PlaceChoice::Missing, PlaceChoice::Wrong],
        by_id: &[PlaceChoice::At(2), PlaceChoice::Wrong],
    },
    // A group carries it, of one leaf or of two. Those behind it are counted by leaves.
    Case {
        columns: &[
            ("a", true, false, Some(1), Some("a")),
            ("b", true, false, Some(2), Some("b")),
            ("c", true, false, Some(3), Some("c")),
        ],
        leaves: &[
            (b"a", false, Some(1)),
            (b"b", false, Some(2)),
            (b"b", false, Some(2)),
            (b"c", true, Some(3)),
        ],
        plain: &[PlaceChoice::Wrong, PlaceChoice::Wrong, PlaceChoice::At(3)],
        by_name: &[PlaceChoice::Wrong, PlaceChoice::Wrong, PlaceChoice::At(3)],
        by_id: &[PlaceChoice::Wrong, PlaceChoice::Wrong, PlaceChoice::At(3)],
    },
    // A group and a leaf carry it, and three leaves do.
    Case {
        columns: &[
            ("a", true, false, Some(1), Some("a")),
            ("b", true, false, Some(2), Some("b")),
        ],
        leaves: &[
            (b"a", false, Some(1)),
            (b"a", true, Some(1)),
            (b"b", true, Some(2)),
            (b"b", true, Some(2)),
            (b"b", true, Some(2)),
        ],
        plain: &[PlaceChoice::Wrong, PlaceChoice::Wrong],
        by_name: &[PlaceChoice::Wrong, PlaceChoice::Wrong],
        by_id: &[PlaceChoice::Wrong, PlaceChoice::Wrong],
    },
    // Elements with a partition column's name or id aren't looked at.
    Case {
        columns: &[
            ("a", false, true, Some(1), Some("a")),
            ("b", true, false, Some(2), Some("b")),
        ],
        leaves: &[
            (b"a", true, Some(1)),
            (b"a", false, Some(1)),
            (b"b", true, Some(2)),
        ],
        plain: &[PlaceChoice::Partition, PlaceChoice::At(2)],
        by_name: &[PlaceChoice::Partition, PlaceChoice::At(2)],
        by_id: &[PlaceChoice::Partition, PlaceChoice::At(2)],
    },
    // What isn't there is carried by nothing: no id by an element without one.
    Case {
        columns: &[
            ("a", true, false, None, None),
            ("b", false, false, None, None),
        ],
        leaves: &[(b"", true, None), (b"a", true, None), (b"b", true, None)],
        plain: &[PlaceChoice::At(1), PlaceChoice::At(2)],
        by_name: &[PlaceChoice::Missing, PlaceChoice::Wrong],
        by_id: &[PlaceChoice::Missing, PlaceChoice::Wrong],
    },
];

#[test]
fn finds_the_leaf_of_each_column(rt: HostRuntime) -> Result<(), Fail> {
    for case in &CASES {
        let schema = schema_of(rt.alloc(), case.columns)?;
        let leaves = leaves_of(rt.alloc(), case.leaves)?;
        let plain = resolve(rt.alloc(), &schema, Mode::Plain, &leaves)?;
        assert!(rt; plain.as_slice() == case.plain);
        let by_name = resolve(rt.alloc(), &schema, Mode::ByName, &leaves)?;
        assert!(rt; by_name.as_slice() == case.by_name);
        let by_id = resolve(rt.alloc(), &schema, Mode::ById, &leaves)?;
        assert!(rt; by_id.as_slice() == case.by_id);
    }
    Ok(())
}

// Leaves and a name, and where a column is that is found by it.
type Named = (&'static [Leaf], &'static str, PlaceChoice);

const NAMED: [Named; 6] = [
    (&[], "id", PlaceChoice::Missing),
    (
        &[(b"a", true, None), (b"id", true, Some(1))],
        "id",
        PlaceChoice::At(1),
    ),
    (
        &[(b"ID", true, None), (b"i", true, None)],
        "id",
        PlaceChoice::Missing,
    ),
    (
        &[(b"id", true, None), (b"a", true, None), (b"id", true, None)],
        "id",
        PlaceChoice::Wrong,
    ),
    (&[(b"id", false, None)], "id", PlaceChoice::Wrong),
    (&[(b"", true, None)], "", PlaceChoice::At(0)),
];

#[test]
fn finds_a_column_by_its_name_alone(rt: HostRuntime) -> Result<(), Fail> {
    for (leaves, name, place) in NAMED {
        let leaves = leaves_of(rt.alloc(), leaves)?;
        let name = Text::from_str(rt.alloc(), name)?;
        assert!(rt; find_named(&name, &leaves) == place);
    }
    Ok(())
}

const MANY_COLUMNS: usize = 500;

const MANY_LEAVES: usize = 10_000;

// How many leaves lie from one column's to the next one's.
const STRIDE: usize = 20;

// The leaf at a place carries its number as its name and as its field id.
fn many_leaves(alloc: Global) -> Result<LeafList, AllocError> {
    let mut leaves = LeafList::new(alloc);
    for number in 0..MANY_LEAVES {
        let name = format!(in alloc; "{number}")?;
        leaves.push(leaf_of(alloc, name.as_bytes(), true, Some(number as i32))?)?;
    }
    Ok(leaves)
}

// A column that is found by this name in modes none and name, and by this id.
fn numbered(alloc: Global, name: &str, id: i32) -> Result<ColumnDef, AllocError> {
    column_of(alloc, name, (true, false), Some(id), Some(name))
}

// The last column is carried by the first leaf.
fn many_columns(alloc: Global) -> Result<TableSchema, AllocError> {
    let mut schema = TableSchema::new(alloc);
    for column in 0..MANY_COLUMNS {
        let number = STRIDE * (MANY_COLUMNS - 1 - column);
        let name = format!(in alloc; "{number}")?;
        schema.push(numbered(alloc, name.as_str(), number as i32)?)?;
    }
    Ok(schema)
}

#[test]
fn finds_five_hundred_columns_among_ten_thousand_leaves(rt: HostRuntime) -> Result<(), Fail> {
    let schema = many_columns(rt.alloc())?;
    let leaves = many_leaves(rt.alloc())?;
    for mode in [Mode::Plain, Mode::ByName, Mode::ById] {
        assert!(rt; check_mapping(&schema, mode) == None);
        let choices = resolve(rt.alloc(), &schema, mode, &leaves)?;
        assert!(rt; choices.len() == MANY_COLUMNS);
        for (column, choice) in choices.as_slice().iter().enumerate() {
            assert!(rt;
                *choice == PlaceChoice::At(STRIDE * (MANY_COLUMNS - 1).saturating_sub(column))
            );
        }
    }
    Ok(())
}

#[test]
fn finds_the_last_of_five_hundred_columns_broken(rt: HostRuntime) -> Result<(), Fail> {
    let mut schema = many_columns(rt.alloc())?;
    schema.push(numbered(rt.alloc(), "0", -1)?)?;
    assert!(rt; check_mapping(&schema, Mode::ByName) == Some(MANY_COLUMNS));
    assert!(rt; check_mapping(&schema, Mode::Plain) == None);
    Ok(())
}
