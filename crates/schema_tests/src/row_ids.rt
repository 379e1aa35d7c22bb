// Tests of row_tracking.
ghost use Rattle.std.specs.Prelude.{◌≡◌, length, IfOk};
ghost use Rattle.dm_types.specs.Lanes.{IsNullOrOf};
ghost use Rattle.dm_types.specs.declared.value.DataType.TheVariants.{Long};

use column_vectors::AnyColumn;
use delta_actions::AddAction;
use dm_types::{DataType, Text, Value};
use row_tracking::{IdFault, RowId, RowIds, check_ids, ids_of, places_by_id};
use std::alloc::{AllocError, Global};
use std::process::Abort;
use std::test::Fail;

// A file with these members.
fn file(alloc: Global, base: Option<i64>, version: Option<i64>) -> Result<AddAction, AllocError> {
    Ok(AddAction {
        path: Text::from_str(alloc, "a.parquet")?,
        partition_values: None,
        size: 0,
        modification_time: 0,
        data_change: true,
        stats: None,
        deletion_vector: false,
        base_row_id: base,
        default_row_commit_version: version,
    })
}

// A column of these numbers and nulls.
fn column(alloc: Global, numbers: &[Option<i64>]) -> Result<AnyColumn, AllocError>
    ensures kind { IfOk result (λ column. column.kind ≡ Long) }
    ensures len { IfOk result (λ column. length column.values ≡ length numbers.now) }
{
    let mut column = AnyColumn::new(alloc, DataType::Long);
    for number in numbers {
        column.push(value(*number))?;
    }
    Ok(column)
}

// A number or null.
fn value(number: Option<i64>) -> Value
    ensures { IsNullOrOf Long result }
{
    match number {
        Some(number) => Value::Int(number),
        None => Value::Null,
    }
}

// What a file says, what its materialized columns hold, and the ids and versions of its rows; None
// where it gives none.
struct FileCase {
    base: Option<i64>,
    version: Option<i64>,
    ids: &'static [Option<i64>],
    versions: &'static [Option<i64>],
    wanted: Option<&'static [(i64, i64)]>,
}

const FILES: [FileCase; 7] = [
    FileCase {
        base: Some(10),
        version: Some(3),
        ids: &[None, Some(7), None, Some(12)],
        versions: &[Some(5), None, None, Some(0)],
        wanted: Some(&[(10, 5), (7, 3), (12, 3), (12, 0)]),
    },
    // The base passes 2^63 - 1 at the third row; the fourth has an id of its own.
    FileCase {
        base: Some(9_223_372_036_854_775_806),
        version: Some(1),
        ids: &[None, None, None, Some(4), None],
        versions: &[None, None, None, None, Some(2)],
        wanted: Some(&[
            (9_223_372_036_854_775_806, 1),
            (9_223_372_036_854_775_807, 1),
            (-1, 1),
            (4, 1),
            (-1, 2),
        ]),
    },
    FileCase {
        base: Some(-2),
        version: Some(-1),
        ids: &[None, None, None],
        versions: &[None, None, None],
        wanted: Some(&[(-2, -1), (-1, -1), (0, -1)]),
    },
    FileCase {
        base: Some(0),
        version: Some(0),
        ids: &[],
        versions: &[],
        wanted: Some(&[]),
    },
    // Both members are needed, of a file without rows too.
    FileCase {
        base: None,
        version: Some(0),
        ids: &[],
        versions: &[],
        wanted: None,
    },
    FileCase {
        base: Some(0),
        version: None,
        ids: &[Some(1)],
        versions: &[Some(1)],
        wanted: None,
    },
    FileCase {
        base: None,
        version: None,
        ids: &[Some(1)],
        versions: &[Some(1)],
        wanted: None,
    },
];

// Whether the rows have these ids and versions.
fn are(rows: &RowIds, wanted: &[(i64, i64)]) -> bool {
    if rows.len() != wanted.len() {
        return false;
    }
    for place in 0..rows.len() {
        let (id, version) = wanted[place];
        let row = rows.get(place);
        if row.id != Some(id) || row.version != Some(version) {
            return false;
        }
    }
    true
}

// Whether the file of the case gives what is wanted.
fn gives(rt: &(impl Abort + AllocGlobal), case: &FileCase) -> Result<bool, Fail> {
    assert!(rt; case.ids.len() == case.versions.len());
    let file = file(rt.alloc(), case.base, case.version)?;
    let ids = column(rt.alloc(), case.ids)?;
    let versions = column(rt.alloc(), case.versions)?;
    match ids_of(rt.alloc(), &file, &ids, &versions) {
        Ok(rows) => Ok(case.wanted.is_some_and(|wanted| are(&rows, wanted))),
        Err(IdFault::NoBase) => Ok(case.wanted.is_none()),
        Err(IdFault::Memory) => Ok(false),
    }
}

#[test]
fn a_file_gives_ids(rt: HostRuntime) -> Result<(), Fail> {
    for case in &FILES {
        assert!(rt; gives(&rt, case)?);
    }
    Ok(())
}

// Ids and versions of rows, the mark and the version of their table, and the least id that fails.
struct TableCase {
    rows: &'static [(i64, i64)],
    mark: i64,
    version: u64,
    least: Option<i64>,
}

const TABLES: [TableCase; 12] = [
    TableCase {
        rows: &[],
        mark: -1,
        version: 0,
        least: None,
    },
    TableCase {
        rows: &[(2, 0), (0, 3), (1, 1)],
        mark: 2,
        version: 3,
        least: None,
    },
    // Above the mark.
    TableCase {
        rows: &[(5, 0)],
        mark: 1,
        version: 0,
        least: Some(5),
    },
    TableCase {
        rows: &[(0, 0)],
        mark: -1,
        version: 0,
        least: Some(0),
    },
    // Below 0, as where a base passes 2^63 - 1.
    TableCase {
        rows: &[(9_223_372_036_854_775_807, 0), (-1, 0)],
        mark: 9_223_372_036_854_775_807,
        version: 0,
        least: Some(-1),
    },
    // Held twice, side by side and apart.
    TableCase {
        rows: &[(4, 0), (4, 0)],
        mark: 9,
        version: 0,
        least: Some(4),
    },
    TableCase {
        rows: &[(8, 0), (3, 0), (8, 0), (1, 0), (3, 0), (3, 0)],
        mark: 9,
        version: 0,
        least: Some(3),
    },
    // A version above the table's, and one below 0.
    TableCase {
        rows: &[(0, 4), (1, 5)],
        mark: 9,
        version: 4,
        least: Some(1),
    },
    TableCase {
        rows: &[(6, -1)],
        mark: 9,
        version: 4,
        least: Some(6),
    },
    // The least of three: by its version, held twice, and above the mark.
    TableCase {
        rows: &[(11, 0), (2, 9), (7, 0), (7, 0)],
        mark: 9,
        version: 4,
        least: Some(2),
    },
    TableCase {
        rows: &[(11, 0), (8, 9), (7, 0), (7, 0)],
        mark: 9,
        version: 4,
        least: Some(7),
    },
    // A version may be as great as that of the table, which may pass 2^63 - 1.
    TableCase {
        rows: &[(0, 9_223_372_036_854_775_807)],
        mark: 0,
        version: 18_446_744_073_709_551_615,
        least: None,
    },
];

// Rows with these ids and versions.
fn rows_of(alloc: Global, pairs: &[(i64, i64)]) -> Result<RowIds, AllocError> {
    let mut rows = RowIds::new(alloc);
    for (id, version) in pairs {
        rows.push(RowId {
            id: Some(*id),
            version: Some(*version),
        })?;
    }
    Ok(rows)
}

#[test]
fn the_least_id_fails(rt: HostRuntime) -> Result<(), Fail> {
    for case in &TABLES {
        let rows = rows_of(rt.alloc(), case.rows)?;
        assert!(rt; check_ids(rt.alloc(), &rows, case.mark, case.version)? == case.least);
    }
    Ok(())
}

#[test]
fn a_row_without_an_id_fails_nothing(rt: HostRuntime) -> Result<(), Fail> {
    let bare = RowId {
        id: None,
        version: None,
    };
    let rows = RowIds::from_slice(rt.alloc(), &[bare, bare])?;
    assert!(rt; check_ids(rt.alloc(), &rows, -1, 0)? == None);
    Ok(())
}

const MILLION: i64 = 1_000_000;

// How the ids of many rows stand.
#[derive(Clone, Copy)]
enum Order {
    Ascending,
    Descending,
    Equal,
}

fn id_at(order: Order, place: i64) -> i64 {
    match order {
        Order::Ascending => place,
        Order::Descending => (MILLION - 1).wrapping_sub(place),
        Order::Equal => 7,
    }
}

// A million rows.
fn many(alloc: Global, order: Order) -> Result<RowIds, AllocError> {
    let mut rows = RowIds::new(alloc);
    for place in 0..MILLION {
        rows.push(RowId {
            id: Some(id_at(order, place)),
            version: Some(0),
        })?;
    }
    Ok(rows)
}

#[test]
fn a_million_ids_are_checked(rt: HostRuntime) -> Result<(), Fail> {
    for (order, least) in [
        (Order::Ascending, None),
        (Order::Descending, None),
        (Order::Equal, Some(7)),
    ] {
        let rows = many(rt.alloc(), order)?;
        assert!(rt; check_ids(rt.alloc(), &rows, MILLION - 1, 0)? == least);
    }
    Ok(())
}

// Rows with these ids, and their places in the order of the ids.
struct OrderCase {
    ids: &'static [Option<i64>],
    places: &'static [usize],
}

static ORDERS: [OrderCase; 7] = [
    OrderCase {
        ids: &[],
        places: &[],
    },
    OrderCase {
        ids: &[Some(2), Some(0), Some(1)],
        places: &[1, 2, 0],
    },
    OrderCase {
        ids: &[Some(4), Some(3), Some(2), Some(1), Some(0)],
        places: &[4, 3, 2, 1, 0],
    },
    // Rows with the same id stay as they stand.
    OrderCase {
        ids: &[Some(7), Some(5), Some(7), Some(5)],
        places: &[1, 3, 0, 2],
    },
    // So do rows without one, before all others.
    OrderCase {
        ids: &[None, None, None],
        places: &[0, 1, 2],
    },
    OrderCase {
        ids: &[Some(0), None, Some(-1), None],
        places: &[1, 3, 2, 0],
    },
    OrderCase {
        ids: &[
            Some(9_223_372_036_854_775_807),
            Some(-9_223_372_036_854_775_808),
            Some(0),
        ],
        places: &[1, 2, 0],
    },
];

// Rows with these ids.
fn rows_with(alloc: Global, ids: &[Option<i64>]) -> Result<RowIds, AllocError> {
    let mut rows = RowIds::new(alloc);
    for id in ids {
        rows.push(RowId {
            id: *id,
            version: None,
        })?;
    }
    Ok(rows)
}

#[test]
fn rows_are_put_in_the_order_of_their_ids(rt: HostRuntime) -> Result<(), Fail> {
    for case in &ORDERS {
        let rows = rows_with(rt.alloc(), case.ids)?;
        let places = places_by_id(rt.alloc(), &rows)?;
        assert!(rt; places.as_slice() == case.places);
    }
    Ok(())
}

#[test]
fn a_million_rows_are_put_in_order(rt: HostRuntime) -> Result<(), Fail> {
    for (order, first) in [
        (Order::Ascending, 0),
        (Order::Descending, 999_999),
        (Order::Equal, 0),
    ] {
        let rows = many(rt.alloc(), order)?;
        let places = places_by_id(rt.alloc(), &rows)?;
        assert!(rt; places.as_slice().first() == Some(&first));
    }
    Ok(())
}
