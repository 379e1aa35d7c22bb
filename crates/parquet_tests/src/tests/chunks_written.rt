// Chunks that are written, and the bytes of a small one.
ghost use Rattle.parquet_pages.specs.Writing.{IsWritableColumn};

use super::columns::{are_same, column_of};
use super::wanted::Wanted;
use column_vectors::AnyColumn;
use dm_types::{Bytes, DataType, Items};
use parquet_meta::SharedBytes;
use parquet_pages::{leaf_for, read_chunk, write_chunk};
use std::alloc::Global;
use std::test::Fail;

// Whether a column that is written is read as it was.
fn comes_back(alloc: Global, column: &AnyColumn, nullable: bool) -> Result<bool, Fail>
    requires { IsWritableColumn column.now }
{
    let mut file: Bytes = Items::from_slice(alloc, b"PAR1")?;
    let chunk = write_chunk(alloc, column, &mut file)?;
    let name = SharedBytes::new(alloc, Items::new(alloc))?;
    let leaf = leaf_for(name, None, column.kind());
    let read = read_chunk(
        alloc,
        file.as_slice(),
        &chunk,
        &leaf,
        column.kind(),
        nullable,
        column.len(),
        1000,
    )?;
    Ok(are_same(column, &read)?)
}

// Whether a column of these values is read as it was.
fn come_back(
    alloc: Global,
    kind: DataType,
    values: &[Wanted],
    nullable: bool,
) -> Result<bool, Fail> {
    let column = column_of(alloc, kind, values)?.ok_or("no such column")?;
    comes_back(alloc, &column, nullable)
}

/// Types, and two values of each.
const VALUES: [(DataType, Wanted, Wanted); 12] = [
    (DataType::Boolean, Wanted::Flag(true), Wanted::Flag(false)),
    (DataType::Byte, Wanted::Whole(-128), Wanted::Whole(127)),
    (DataType::Short, Wanted::Whole(-32768), Wanted::Whole(32767)),
    (
        DataType::Integer,
        Wanted::Whole(-2147483648),
        Wanted::Whole(7),
    ),
    (DataType::Long, Wanted::Whole(-1), Wanted::Whole(4294967296)),
    (
        DataType::Decimal {
            precision: 9,
            scale: 2,
        },
        Wanted::Unscaled(-999_999_999),
        Wanted::Unscaled(150),
    ),
    (
        DataType::Decimal {
            precision: 18,
            scale: 0,
        },
        Wanted::Unscaled(-1),
        Wanted::Unscaled(999_999_999_999),
    ),
    (
        DataType::Decimal {
            precision: 38,
            scale: 5,
        },
        Wanted::Unscaled(-123_456),
        Wanted::Unscaled(987_654),
    ),
    (DataType::Str, Wanted::Text("a"), Wanted::Text("")),
    (DataType::Binary, Wanted::Raw(b""), Wanted::Raw(b"\xff\x00")),
    (
        DataType::Date,
        Wanted::Day(-719_162),
        Wanted::Day(2_932_896),
    ),
    (DataType::Timestamp, Wanted::Micros(-1), Wanted::Micros(1)),
];

#[test]
fn values_of_each_type_are_read_back(rt: HostRuntime) -> Result<(), Fail> {
    let alloc = rt.alloc();
    for (kind, first, last) in VALUES {
        let with_null = [first, Wanted::Null, last];
        assert!(rt; come_back(alloc, kind, &with_null, true)?, "{kind:?}");
        assert!(rt; come_back(alloc, kind, &[first, last], false)?, "{kind:?}");
        assert!(rt; come_back(alloc, kind, &[], false)?, "{kind:?}");
    }
    Ok(())
}

/// The page of the text `a` and null: its header, its levels, and its values.
const PAGE: &[u8] =
    b"PAR1\x15\x00\x15\x16\x15\x16\x2c\x15\x04\x15\x00\x15\x06\x15\x06\x00\x00\x02\x00\x00\x00\x03\x01\x01\x00\x00\x00a";

#[test]
fn a_small_page_has_the_bytes_of_the_standard(rt: HostRuntime) -> Result<(), Fail> {
    let alloc = rt.alloc();
    let values = [Wanted::Text("a"), Wanted::Null];
    let column = column_of(alloc, DataType::Str, &values)?.ok_or("no such column")?;
    let mut file: Bytes = Items::from_slice(alloc, b"PAR1")?;
    let chunk = write_chunk(alloc, &column, &mut file)?;
    assert_eq!(rt; file.as_slice(), PAGE);
    assert_eq!(rt; chunk.page_at, 4);
    assert_eq!(rt; chunk.packed, 28);
    assert_eq!(rt; chunk.values, 2);
    Ok(())
}
