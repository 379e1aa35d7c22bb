// Files that are read, made by hand.
ghost use Rattle.dm_types.specs.Ranges.{IsWellFormed};

use column_vectors::AnyColumn;
use dm_types::DataType;
use parquet_file::open_file;
use parquet_pages::FileFault;
use std::alloc::{AllocError, Global};
use std::test::Fail;

/// The pages of two row groups: of 3 rows, `n` in two pages and `t` behind a dictionary of the texts
/// `` and `a`; and of 2 rows, `n` in one page and `t` in two.
const PAGES: &[u8] =
    b"\x15\x00\x15\x14\x15\x14,\x15\x04\x15\x00\x15\x06\x15\x06\x00\x00\x02\x00\x00\x00\x03\x01\x01\x00\x00\x00\x15\x00\x15\x14\x15\x14,\x15\x02\x15\x00\x15\x06\x15\x06\x00\x00\x02\x00\x00\x00\x03\x01\xfe\xff\xff\xff\x15\x04\x15\x12\x15\x12L\x15\x04\x15\x00\x00\x00\x00\x00\x00\x00\x01\x00\x00\x00a\x15\x00\x15\x12\x15\x12,\x15\x06\x15\x10\x15\x06\x15\x06\x00\x00\x02\x00\x00\x00\x03\x03\x01\x03\x01\x15\x00\x15\x14\x15\x14,\x15\x04\x15\x00\x15\x06\x15\x06\x00\x00\x02\x00\x00\x00\x03\x01\xff\xff\xff\x7f\x15\x00\x15\x0c\x15\x0c,\x15\x02\x15\x00\x15\x06\x15\x06\x00\x00\x02\x00\x00\x00\x03\x00\x15\x00\x15\x18\x15\x18,\x15\x02\x15\x00\x15\x06\x15\x06\x00\x00\x02\x00\x00\x00\x03\x01\x02\x00\x00\x00bc";

/// Their footer, with the leaves `n`, INT32, and `t`, BYTE_ARRAY and UTF8, both OPTIONAL.
const FOOTER: &[u8] =
    b"\x15\x02\x19<H\x06schema\x15\x04\x00\x15\x02%\x02\x18\x01nU\x02\x00\x15\x0c%\x02\x18\x01t%\x005\x04\x00\x16\x0a\x19,\x19,&\x00\x1c\x15\x02\x19%\x00\x06\x19\x18\x01n\x15\x00\x16\x06\x16l\x16l&\x08\x00\x00&\x00\x1c\x15\x0c\x195\x00\x06\x10\x19\x18\x01t\x15\x00\x16\x06\x16`\x16`&\xa0\x01&t\x00\x00\x16\xcc\x01\x16\x06\x00\x19,&\x00\x1c\x15\x02\x19%\x00\x06\x19\x18\x01n\x15\x00\x16\x04\x166\x166&\xd4\x01\x00\x00&\x00\x1c\x15\x0c\x19%\x00\x06\x19\x18\x01t\x15\x00\x16\x04\x16h\x16h&\x8a\x02\x00\x00\x16\x9e\x01\x16\x04\x00\x00";

/// A page of the numbers 7 and null, at place 4.
const PAGE: &[u8] =
    b"\x15\x00\x15\x14\x15\x14,\x15\x04\x15\x00\x15\x06\x15\x06\x00\x00\x02\x00\x00\x00\x03\x01\x07\x00\x00\x00";

/// Its footer, of one leaf `a`.
const PAGE_FOOTER: &[u8] =
    b"\x15\x02\x19,H\x06schema\x15\x02\x00\x15\x02%\x02\x18\x01a\x00\x16\x04\x19\x1c\x19\x1c&\x00\x1c\x15\x02\x19%\x00\x06\x19\x18\x01a\x15\x00\x16\x04\x166\x166&\x08\x00\x00\x166\x16\x04\x00\x00";

/// The same footer, of a chunk in SNAPPY.
const SNAPPY_FOOTER: &[u8] =
    b"\x15\x02\x19,H\x06schema\x15\x02\x00\x15\x02%\x02\x18\x01a\x00\x16\x04\x19\x1c\x19\x1c&\x00\x1c\x15\x02\x19%\x00\x06\x19\x18\x01a\x15\x02\x16\x04\x166\x166&\x08\x00\x00\x166\x16\x04\x00\x00";

/// The same page in the encoding 5, DELTA_BINARY_PACKED.
const DELTA_PAGE: &[u8] =
    b"\x15\x00\x15\x14\x15\x14,\x15\x04\x15\x0a\x15\x06\x15\x06\x00\x00\x02\x00\x00\x00\x03\x01\x07\x00\x00\x00";

/// Footers that aren't good.
const BAD_FOOTERS: [&[u8]; 3] = [
    // More rows than the row group has.
    b"\x15\x02\x19,H\x06schema\x15\x02\x00\x15\x02%\x02\x18\x01a\x00\x16\x06\x19\x1c\x19\x1c&\x00\x1c\x15\x02\x19%\x00\x06\x19\x18\x01a\x15\x00\x16\x04\x166\x166&\x08\x00\x00\x166\x16\x04\x00\x00",
    // Fewer than no rows.
    b"\x15\x02\x19,H\x06schema\x15\x02\x00\x15\x02%\x02\x18\x01a\x00\x16\x03\x19\x1c\x19\x1c&\x00\x1c\x15\x02\x19%\x00\x06\x19\x18\x01a\x15\x00\x16\x04\x166\x166&\x08\x00\x00\x166\x16\x03\x00\x00",
    // A great number of children.
    b"\x15\x02\x19,H\x06schema\x15\xfe\xff\xff\xff\x0f\x00\x15\x02%\x02\x18\x01a\x00\x16\x04\x19\x1c\x19\x1c&\x00\x1c\x15\x02\x19%\x00\x06\x19\x18\x01a\x15\x00\x16\x04\x166\x166&\x08\x00\x00\x166\x16\x04\x00\x00",
];

/// Footers of a chunk that isn't one of the page's file.
const BAD_CHUNKS: [&[u8]; 9] = [
    // It begins with the footer.
    b"\x15\x02\x19,H\x06schema\x15\x02\x00\x15\x02%\x02\x18\x01a\x00\x16\x04\x19\x1c\x19\x1c&\x00\x1c\x15\x02\x19%\x00\x06\x19\x18\x01a\x15\x00\x16\x04\x166\x166&>\x00\x00\x166\x16\x04\x00\x00",
    // It ends in the footer.
    b"\x15\x02\x19,H\x06schema\x15\x02\x00\x15\x02%\x02\x18\x01a\x00\x16\x04\x19\x1c\x19\x1c&\x00\x1c\x15\x02\x19%\x00\x06\x19\x18\x01a\x15\x00\x16\x04\x168\x168&\x08\x00\x00\x166\x16\x04\x00\x00",
    // It begins in the first magic bytes.
    b"\x15\x02\x19,H\x06schema\x15\x02\x00\x15\x02%\x02\x18\x01a\x00\x16\x04\x19\x1c\x19\x1c&\x00\x1c\x15\x02\x19%\x00\x06\x19\x18\x01a\x15\x00\x16\x04\x166\x166&\x06\x00\x00\x166\x16\x04\x00\x00",
    // Its place is below 0.
    b"\x15\x02\x19,H\x06schema\x15\x02\x00\x15\x02%\x02\x18\x01a\x00\x16\x04\x19\x1c\x19\x1c&\x00\x1c\x15\x02\x19%\x00\x06\x19\x18\x01a\x15\x00\x16\x04\x166\x166&\x07\x00\x00\x166\x16\x04\x00\x00",
    // Its place is the greatest.
    b"\x15\x02\x19,H\x06schema\x15\x02\x00\x15\x02%\x02\x18\x01a\x00\x16\x04\x19\x1c\x19\x1c&\x00\x1c\x15\x02\x19%\x00\x06\x19\x18\x01a\x15\x00\x16\x04\x166\x166&\xfe\xff\xff\xff\xff\xff\xff\xff\xff\x01\x00\x00\x166\x16\x04\x00\x00",
    // Its size is below 0.
    b"\x15\x02\x19,H\x06schema\x15\x02\x00\x15\x02%\x02\x18\x01a\x00\x16\x04\x19\x1c\x19\x1c&\x00\x1c\x15\x02\x19%\x00\x06\x19\x18\x01a\x15\x00\x16\x04\x16\x01\x16\x01&\x08\x00\x00\x166\x16\x04\x00\x00",
    // Its size is the greatest.
    b"\x15\x02\x19,H\x06schema\x15\x02\x00\x15\x02%\x02\x18\x01a\x00\x16\x04\x19\x1c\x19\x1c&\x00\x1c\x15\x02\x19%\x00\x06\x19\x18\x01a\x15\x00\x16\x04\x16\xfe\xff\xff\xff\xff\xff\xff\xff\xff\x01\x16\xfe\xff\xff\xff\xff\xff\xff\xff\xff\x01&\x08\x00\x00\x166\x16\x04\x00\x00",
    // It has more values than there are rows.
    b"\x15\x02\x19,H\x06schema\x15\x02\x00\x15\x02%\x02\x18\x01a\x00\x16\x04\x19\x1c\x19\x1c&\x00\x1c\x15\x02\x19%\x00\x06\x19\x18\x01a\x15\x00\x16\x06\x166\x166&\x08\x00\x00\x166\x16\x04\x00\x00",
    // Its dictionary begins in the first magic bytes.
    b"\x15\x02\x19,H\x06schema\x15\x02\x00\x15\x02%\x02\x18\x01a\x00\x16\x04\x19\x1c\x19\x1c&\x00\x1c\x15\x02\x19%\x00\x06\x19\x18\x01a\x15\x00\x16\x04\x166\x166&\x08&\x02\x00\x00\x166\x16\x04\x00\x00",
];

/// Bytes between others at the beginning and at the end: pages, a footer, and a length that is told
/// of it.
fn between(
    alloc: Global,
    head: &[u8],
    pages: &[u8],
    footer: &[u8],
    told: u32,
    tail: &[u8],
) -> Result<Vec<u8>, AllocError> {
    let mut bytes = Vec::from_slice(alloc, head)?;
    bytes.extend_from_slice(pages)?;
    bytes.extend_from_slice(footer)?;
    bytes.extend_from_slice(&told.to_le_bytes())?;
    bytes.extend_from_slice(tail)?;
    Ok(bytes)
}

/// A file of pages and a footer.
fn file_of(alloc: Global, pages: &[u8], footer: &[u8]) -> Result<Vec<u8>, AllocError> {
    let told = u32::try_from(footer.len()).unwrap_or(0);
    between(alloc, b"PAR1", pages, footer, told, b"PAR1")
}

/// The column of a leaf, with nulls.
fn column_of(
    alloc: Global,
    bytes: &[u8],
    i: usize,
    kind: &DataType,
    text_left: u64,
) -> Result<AnyColumn, FileFault>
    requires { IsWellFormed kind.now }
{
    let file = open_file(alloc, bytes)?;
    if i >= file.leaf_count() {
        return Err(FileFault::Mismatch);
    }
    file.column(alloc, i, kind, true, text_left)
}

/// The values of a column, each with a space behind it.
pub(crate) fn shown(alloc: Global, column: &AnyColumn) -> Result<String, AllocError> {
    let mut text = String::new(alloc);
    for row in 0..column.len() {
        let value = column.get(row)?;
        let value = format!(in alloc; "{value:?} ")?;
        text.push_str(&value)?;
    }
    Ok(text)
}

/// Whether the bytes are no good file.
fn is_bad(alloc: Global, bytes: &[u8]) -> bool {
    matches!(open_file(alloc, bytes), Err(FileFault::BadParquet))
}

/// Whether the values of a column are shown so.
fn shows(
    alloc: Global,
    bytes: &[u8],
    i: usize,
    kind: &DataType,
    wanted: &str,
) -> Result<bool, FileFault>
    requires { IsWellFormed kind.now }
{
    let column = column_of(alloc, bytes, i, kind, 3)?;
    let shown = shown(alloc, &column)?;
    Ok(shown.as_str() == wanted)
}

/// Whether a column is refused with the fault.
fn is_refused(
    alloc: Global,
    bytes: &[u8],
    i: usize,
    kind: &DataType,
    text_left: u64,
    fault: FileFault,
) -> bool
    requires { IsWellFormed kind.now }
{
    match column_of(alloc, bytes, i, kind, text_left) {
        Ok(_) => false,
        Err(found) => found == fault,
    }
}

#[test]
fn leaves_are_told(rt: HostRuntime) -> Result<(), Fail> {
    let alloc = rt.alloc();
    let bytes = file_of(alloc, PAGES, FOOTER)?;
    let file = open_file(alloc, &bytes)?;
    assert_eq!(rt; file.rows(), 5);
    assert_eq!(rt; file.leaf_count(), 2);
    assert_eq!(rt; file.leaf(1).name.as_slice(), b"t".as_slice());
    assert_eq!(rt; file.leaf(1).field_id, Some(2));
    Ok(())
}

#[test]
fn row_groups_are_read(rt: HostRuntime) -> Result<(), Fail> {
    let alloc = rt.alloc();
    let bytes = file_of(alloc, PAGES, FOOTER)?;
    let numbers = "Int(1) Null Int(-2) Int(2147483647) Null ";
    assert!(rt; shows(alloc, &bytes, 0, &DataType::Integer, numbers)?);
    let texts =
        "Text(Text { inner: \"a\" }) Text(Text { inner: \"\" }) Null Null Text(Text { inner: \"bc\" }) ";
    assert!(rt; shows(alloc, &bytes, 1, &DataType::Str, texts)?);
    Ok(())
}

#[test]
fn columns_are_refused(rt: HostRuntime) -> Result<(), Fail> {
    let alloc = rt.alloc();
    let bytes = file_of(alloc, PAGES, FOOTER)?;
    assert!(rt; is_refused(alloc, &bytes, 1, &DataType::Str, 2, FileFault::TextLimit));
    assert!(rt; is_refused(alloc, &bytes, 1, &DataType::Long, 3, FileFault::Mismatch));
    assert!(rt; is_refused(alloc, &bytes, 0, &DataType::Byte, 0, FileFault::Range));
    Ok(())
}

#[test]
fn cut_files_are_refused(rt: HostRuntime) -> Result<(), Fail> {
    let alloc = rt.alloc();
    let bytes = file_of(alloc, PAGE, PAGE_FOOTER)?;
    assert!(rt; open_file(alloc, &bytes).is_ok());
    for end in 0..bytes.len() {
        assert!(rt; is_bad(alloc, &bytes[..end]), "{end}");
    }
    Ok(())
}

#[test]
fn bad_files_are_refused(rt: HostRuntime) -> Result<(), Fail> {
    let alloc = rt.alloc();
    // The footer has 60 bytes, and 27 of pages and 4 of magic bytes stand before it.
    for told in [0, 1, 59, 61, 87, 88, 91, 92, u32::MAX] {
        let bytes = between(alloc, b"PAR1", PAGE, PAGE_FOOTER, told, b"PAR1")?;
        assert!(rt; is_bad(alloc, &bytes), "{told}");
    }
    for footer in BAD_FOOTERS {
        let bytes = file_of(alloc, PAGE, footer)?;
        assert!(rt; is_bad(alloc, &bytes), "{footer:?}");
    }
    for (head, tail) in [
        ("PARE", "PAR1"),
        ("PAR1", "PARE"),
        ("QAR1", "PAR1"),
        ("", "PAR1"),
    ] {
        let bytes = between(
            alloc,
            head.as_bytes(),
            PAGE,
            PAGE_FOOTER,
            60,
            tail.as_bytes(),
        )?;
        assert!(rt; is_bad(alloc, &bytes), "{head} {tail}");
    }
    Ok(())
}

#[test]
fn bad_chunks_are_refused(rt: HostRuntime) -> Result<(), Fail> {
    let alloc = rt.alloc();
    let bytes = file_of(alloc, PAGE, PAGE_FOOTER)?;
    assert!(rt; shows(alloc, &bytes, 0, &DataType::Integer, "Int(7) Null ")?);
    for footer in BAD_CHUNKS {
        let bytes = file_of(alloc, PAGE, footer)?;
        let refused = is_refused(
            alloc,
            &bytes,
            0,
            &DataType::Integer,
            0,
            FileFault::BadParquet,
        );
        assert!(rt; refused, "{footer:?}");
    }
    Ok(())
}

#[test]
fn other_codecs_and_encodings_are_refused(rt: HostRuntime) -> Result<(), Fail> {
    let alloc = rt.alloc();
    let kind = DataType::Integer;
    let snappy = file_of(alloc, PAGE, SNAPPY_FOOTER)?;
    assert!(rt; is_refused(alloc, &snappy, 0, &kind, 0, FileFault::Compressed));
    let delta = file_of(alloc, DELTA_PAGE, PAGE_FOOTER)?;
    assert!(rt; is_refused(alloc, &delta, 0, &kind, 0, FileFault::Encoding));
    Ok(())
}
