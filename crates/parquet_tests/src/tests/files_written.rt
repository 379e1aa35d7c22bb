// Files that are written, held against files made by hand.
ghost use Rattle.std.specs.Prelude.{◌≤◌, length, All, IfOk, IfSome};
ghost use Rattle.parquet_file.specs.Writing.{IsWritableFile, IsWritableFileColumn};

use super::columns::column_of;
use super::files::shown;
use super::wanted::Wanted;
use dm_types::{DataType, Items, Text};
use parquet_file::{FileColumn, FileColumns, open_file, write_file};
use std::alloc::{AllocError, Global};
use std::test::Fail;

/// The pages of a file with a column of each type, each with a value and a null.
const PAGES: &[u8] =
    b"\x15\x00\x15\x0e\x15\x0e,\x15\x04\x15\x00\x15\x06\x15\x06\x00\x00\x02\x00\x00\x00\x03\x01\x01\x15\x00\x15\x14\x15\x14,\x15\x04\x15\x00\x15\x06\x15\x06\x00\x00\x02\x00\x00\x00\x03\x01\x80\xff\xff\xff\x15\x00\x15\x14\x15\x14,\x15\x04\x15\x00\x15\x06\x15\x06\x00\x00\x02\x00\x00\x00\x03\x01\xff\x7f\x00\x00\x15\x00\x15\x14\x15\x14,\x15\x04\x15\x00\x15\x06\x15\x06\x00\x00\x02\x00\x00\x00\x03\x01\x00\x00\x00\x80\x15\x00\x15\x1c\x15\x1c,\x15\x04\x15\x00\x15\x06\x15\x06\x00\x00\x02\x00\x00\x00\x03\x01\xff\xff\xff\xff\xff\xff\xff\x7f\x15\x00\x15\x14\x15\x14,\x15\x04\x15\x00\x15\x06\x15\x06\x00\x00\x02\x00\x00\x00\x03\x01\x016e\xc4\x15\x00\x15\x1c\x15\x1c,\x15\x04\x15\x00\x15\x06\x15\x06\x00\x00\x02\x00\x00\x00\x03\x01\xff\xffc\xa7\xb3\xb6\xe0\x0d\x15\x00\x15\x1e\x15\x1e,\x15\x04\x15\x00\x15\x06\x15\x06\x00\x00\x02\x00\x00\x00\x03\x01\x00\x8a\xc7#\x04\x89\xe7\xff\xff\x15\x00\x15,\x15,,\x15\x04\x15\x00\x15\x06\x15\x06\x00\x00\x02\x00\x00\x00\x03\x01\xb4\xc4\xb3W\xa5y;\x85\xf6u\xdd\xc0\x00\x00\x00\x01\x15\x00\x15\x1a\x15\x1a,\x15\x04\x15\x00\x15\x06\x15\x06\x00\x00\x02\x00\x00\x00\x03\x01\x03\x00\x00\x00a\xc3\xa9\x15\x00\x15\x18\x15\x18,\x15\x04\x15\x00\x15\x06\x15\x06\x00\x00\x02\x00\x00\x00\x03\x01\x02\x00\x00\x00\x00\xff\x15\x00\x15\x14\x15\x14,\x15\x04\x15\x00\x15\x06\x15\x06\x00\x00\x02\x00\x00\x00\x03\x01\xa0\xc0,\x00\x15\x00\x15\x1c\x15\x1c,\x15\x04\x15\x00\x15\x06\x15\x06\x00\x00\x02\x00\x00\x00\x03\x01\x00@\xd4\x00\x01@#\xff";

/// Its footer.
const FOOTER: &[u8] =
    b"\x15\x02\x19\xecH\x06schema\x15\x1a\x00\x15\x00%\x02\x18\x07boolean\x00\x15\x02%\x02\x18\x04byte%\x1e5\x04\x00\x15\x02%\x02\x18\x05short% 5\x06\x00\x15\x02%\x02\x18\x07integerU\x08\x00\x15\x04%\x02\x18\x04longU\x0a\x00\x15\x02%\x02\x18\x05nines%\x0a\x15\x04\x15\x12\x15\x0c\x00\x15\x04%\x02\x18\x08eighteen%\x0a\x15$\x15$\x15\x0e\x00\x15\x0e\x15\x12\x15\x02\x18\x08nineteen%\x0a\x15\x00\x15&\x15\x10\x00\x15\x0e\x15 \x15\x02\x18\x04most%\x0a\x15L\x15L\x15\x12\x00\x15\x0c%\x02\x18\x06string%\x005\x14\x00\x15\x0c%\x02\x18\x06binaryU\x16\x00\x15\x02%\x02\x18\x04date%\x0c5\x18\x00\x15\x04%\x02\x18\x09timestamp%\x145\x1a\x00\x16\x04\x19\x1c\x19\xdc&\x00\x1c\x15\x00\x19%\x00\x06\x19\x18\x07boolean\x15\x00\x16\x04\x160\x160&\x08\x00\x00&\x00\x1c\x15\x02\x19%\x00\x06\x19\x18\x04byte\x15\x00\x16\x04\x166\x166&8\x00\x00&\x00\x1c\x15\x02\x19%\x00\x06\x19\x18\x05short\x15\x00\x16\x04\x166\x166&n\x00\x00&\x00\x1c\x15\x02\x19%\x00\x06\x19\x18\x07integer\x15\x00\x16\x04\x166\x166&\xa4\x01\x00\x00&\x00\x1c\x15\x04\x19%\x00\x06\x19\x18\x04long\x15\x00\x16\x04\x16>\x16>&\xda\x01\x00\x00&\x00\x1c\x15\x02\x19%\x00\x06\x19\x18\x05nines\x15\x00\x16\x04\x166\x166&\x98\x02\x00\x00&\x00\x1c\x15\x04\x19%\x00\x06\x19\x18\x08eighteen\x15\x00\x16\x04\x16>\x16>&\xce\x02\x00\x00&\x00\x1c\x15\x0e\x19%\x00\x06\x19\x18\x08nineteen\x15\x00\x16\x04\x16@\x16@&\x8c\x03\x00\x00&\x00\x1c\x15\x0e\x19%\x00\x06\x19\x18\x04most\x15\x00\x16\x04\x16N\x16N&\xcc\x03\x00\x00&\x00\x1c\x15\x0c\x19%\x00\x06\x19\x18\x06string\x15\x00\x16\x04\x16<\x16<&\x9a\x04\x00\x00&\x00\x1c\x15\x0c\x19%\x00\x06\x19\x18\x06binary\x15\x00\x16\x04\x16:\x16:&\xd6\x04\x00\x00&\x00\x1c\x15\x02\x19%\x00\x06\x19\x18\x04date\x15\x00\x16\x04\x166\x166&\x90\x05\x00\x00&\x00\x1c\x15\x04\x19%\x00\x06\x19\x18\x09timestamp\x15\x00\x16\x04\x16>\x16>&\xc6\x05\x00\x00\x16\xfc\x05\x16\x04\x00(\x0adeltamerge\x00";

/// A file without columns.
const EMPTY: &[u8] =
    b"PAR1\x15\x02\x19\x1cH\x06schema\x15\x00\x00\x16\x00\x19\x1c\x19\x0c\x16\x00\x16\x00\x00(\x0adeltamerge\x00'\x00\x00\x00PAR1";

/// A column's name, its field id, its type, and its value before a null.
type Told = (&'static str, Option<i32>, DataType, Wanted);

/// A column of each type, and of each physical type of decimals.
static COLUMNS: [Told; 13] = [
    ("boolean", None, DataType::Boolean, Wanted::Flag(true)),
    ("byte", Some(2), DataType::Byte, Wanted::Whole(-128)),
    ("short", Some(3), DataType::Short, Wanted::Whole(32_767)),
    (
        "integer",
        Some(4),
        DataType::Integer,
        Wanted::Whole(-2_147_483_648),
    ),
    ("long", Some(5), DataType::Long, Wanted::Whole(i64::MAX)),
    (
        "nines",
        Some(6),
        DataType::Decimal {
            precision: 9,
            scale: 2,
        },
        Wanted::Unscaled(-999_999_999),
    ),
    (
        "eighteen",
        Some(7),
        DataType::Decimal {
            precision: 18,
            scale: 18,
        },
        Wanted::Unscaled(999_999_999_999_999_999),
    ),
    (
        "nineteen",
        Some(8),
        DataType::Decimal {
            precision: 19,
            scale: 0,
        },
        Wanted::Unscaled(9_999_999_999_999_999_999),
    ),
    (
        "most",
        Some(9),
        DataType::Decimal {
            precision: 38,
            scale: 38,
        },
        Wanted::Unscaled(-99_999_999_999_999_999_999_999_999_999_999_999_999),
    ),
    ("string", Some(10), DataType::Str, Wanted::Text("a\u{e9}")),
    ("binary", Some(11), DataType::Binary, Wanted::Raw(&[0, 255])),
    ("date", Some(12), DataType::Date, Wanted::Day(2_932_896)),
    (
        "timestamp",
        Some(13),
        DataType::Timestamp,
        Wanted::Micros(-62_135_596_800_000_000),
    ),
];

// A column of a value and a null; None where it can't be one.
fn column_told(alloc: Global, told: &Told) -> Result<Option<FileColumn>, AllocError>
    ensures { IfOk result (λ found. IfSome found (IsWritableFileColumn 2)) }
{
    let (name, field_id, kind, value) = *told;
    if name.len() > 100 {
        return Ok(None);
    }
    let Some(column) = column_of(alloc, kind, &[value, Wanted::Null])? else {
        return Ok(None);
    };
    let name = Text::from_str(alloc, name)?;
    Ok(Some(FileColumn {
        name,
        field_id,
        kind,
        column,
    }))
}

// Columns of two rows each.
fn columns_told(alloc: Global, table: &[Told]) -> Result<Option<FileColumns>, AllocError>
    requires { length table.now ≤ 502 }
    ensures { IfOk result (λ found. IfSome found IsWritableFile) }
{
    let mut columns = FileColumns::new(alloc);
    for told in table {
        let Some(column) = column_told(alloc, told)? else {
            return Ok(None);
        };
        columns.push(column)?;
    }
    Ok(Some(columns))
}

// The columns of each type.
fn columns_of_each_type(alloc: Global) -> Result<FileColumns, Fail>
    ensures { IfOk result IsWritableFile }
{
    match columns_told(alloc, &COLUMNS)? {
        Some(columns) => Ok(columns),
        None => Err(Fail::from("no such columns")),
    }
}

/// The bytes of a file made by hand, of pages and a footer.
fn by_hand(alloc: Global) -> Result<Vec<u8>, AllocError> {
    let mut bytes = Vec::from_slice(alloc, b"PAR1")?;
    bytes.extend_from_slice(PAGES)?;
    bytes.extend_from_slice(FOOTER)?;
    bytes.extend_from_slice(&(FOOTER.len() as u32).to_le_bytes())?;
    bytes.extend_from_slice(b"PAR1")?;
    Ok(bytes)
}

#[test]
fn each_type_is_written_and_read_back(rt: HostRuntime) -> Result<(), Fail> {
    let alloc = rt.alloc();
    let columns = columns_of_each_type(alloc)?;
    let bytes = write_file(alloc, &columns)?;
    let wanted = by_hand(alloc)?;
    assert_eq!(rt; bytes.as_slice(), wanted.as_slice());
    let file = open_file(alloc, bytes.as_slice())?;
    assert_eq!(rt; file.rows(), 2);
    assert_eq!(rt; file.leaf_count(), 13);
    for (i, column) in columns.as_slice().iter().enumerate() {
        let read = file.column(alloc, i, &column.kind, true, 3)?;
        let read = shown(alloc, &read)?;
        let written = shown(alloc, &column.column)?;
        assert_eq!(rt; read.as_str(), written.as_str());
    }
    Ok(())
}

#[test]
fn no_columns_are_written(rt: HostRuntime) -> Result<(), Fail> {
    let alloc = rt.alloc();
    let bytes = write_file(alloc, &Items::new(alloc))?;
    assert_eq!(rt; bytes.as_slice(), EMPTY);
    let file = open_file(alloc, bytes.as_slice())?;
    assert_eq!(rt; file.rows(), 0);
    assert_eq!(rt; file.leaf_count(), 0);
    Ok(())
}
