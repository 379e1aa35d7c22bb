// Chunks of several pages, long ones, and the limit of their text.
use super::chunks::{DICTIONARY, PLAIN, Page, REQUIRED, Setting, TEXTS, file_of, gives, read};
use super::wanted::Wanted;
use column_vectors::AnyColumn;
use dm_types::{Bytes, DataType, Items, Value};
use parquet_pages::FileFault;
use std::alloc::{AllocError, Global};
use std::test::Fail;

/// A file that begins with a data page of the levels 1 and 0, and the text `a`.
const STANDARD_FILE: &[u8] = &[
    b'P', b'A', b'R', b'1', 0x15, 0x00, 0x15, 0x16, 0x15, 0x16, 0x2c, 0x15, 0x04, 0x15, 0x00, 0x15,
    0x06, 0x15, 0x06, 0x00, 0x00, 0x02, 0x00, 0x00, 0x00, 0x03, 0x01, 0x01, 0x00, 0x00, 0x00, b'a',
];

/// That page.
const STANDARD: Page<'static> = Page {
    values: 2,
    body: b"\x02\0\0\0\x03\x01\x01\0\0\0a",
    ..PLAIN
};

#[test]
fn the_page_of_the_standard_is_read(rt: HostRuntime) -> Result<(), Fail> {
    let alloc = rt.alloc();
    let setting = Setting { rows: 2, ..TEXTS };
    assert!(rt; file_of(alloc, setting.start, &[STANDARD])?.as_slice() == STANDARD_FILE);
    assert!(rt;
        gives(
            alloc,
            &setting,
            &[STANDARD],
            Ok(&[Wanted::Text("a"), Wanted::Null])
        )?
    );
    Ok(())
}

/// Pages, and the values that they are.
#[derive(Clone, Copy)]
struct Chunk {
    setting: Setting,
    pages: &'static [Page<'static>],
    wanted: &'static [Wanted],
}

/// A text, null, the text of the first place, and texts that stand in their pages.
const MIXED: &[Wanted] = &[
    Wanted::Text("c"),
    Wanted::Null,
    Wanted::Text("ab"),
    Wanted::Text("d"),
    Wanted::Text(""),
    Wanted::Text("ab"),
];

const MIXED_PAGES: &[Page<'static>] = &[
    // The texts `ab` and `c`.
    Page {
        values: 2,
        body: b"\x02\0\0\0ab\x01\0\0\0c",
        ..DICTIONARY
    },
    // RLE_DICTIONARY: the levels 1, 0 and 1, and the places 1 and 0.
    Page {
        values: 3,
        encoding: 8,
        body: b"\x02\0\0\0\x03\x05\x01\x03\x01",
        ..PLAIN
    },
    // An index page.
    Page {
        kind: 1,
        body: b"\xff\xff\xff",
        ..PLAIN
    },
    // No entries.
    Page {
        values: 0,
        body: b"\0\0\0\0",
        ..PLAIN
    },
    // PLAIN: the levels 1 and 1, `d` and the empty text.
    Page {
        values: 2,
        body: b"\x02\0\0\0\x04\x01\x01\0\0\0d\0\0\0\0",
        ..PLAIN
    },
    // PLAIN_DICTIONARY: the level 1 and the place 0.
    Page {
        encoding: 2,
        body: b"\x02\0\0\0\x02\x01\x01\x02\0",
        ..PLAIN
    },
];

static CHUNKS: [Chunk; 7] = [
    // The dictionary page stands before the place of the data pages.
    Chunk {
        setting: Setting {
            rows: 6,
            page_at: 30,
            dictionary_at: Some(4),
            ..TEXTS
        },
        pages: MIXED_PAGES,
        wanted: MIXED,
    },
    // No place of a dictionary page: 0, or one behind the data pages.
    Chunk {
        setting: Setting {
            rows: 6,
            dictionary_at: Some(0),
            ..TEXTS
        },
        pages: MIXED_PAGES,
        wanted: MIXED,
    },
    Chunk {
        setting: Setting {
            rows: 6,
            dictionary_at: Some(5),
            ..TEXTS
        },
        pages: MIXED_PAGES,
        wanted: MIXED,
    },
    // Without levels, of any encoding of levels; what is behind the last entry isn't looked at.
    Chunk {
        setting: Setting {
            kind: DataType::Binary,
            rows: 2,
            ..REQUIRED
        },
        pages: &[
            Page {
                definition: 4,
                body: b"\x01\0\0\0a",
                ..PLAIN
            },
            Page {
                body: b"\0\0\0\0",
                ..PLAIN
            },
            Page { kind: 3, ..PLAIN },
        ],
        wanted: &[Wanted::Raw(b"a"), Wanted::Raw(b"")],
    },
    // Pages behind others.
    Chunk {
        setting: Setting {
            start: b"PAR1\xff\xff\xff",
            rows: 2,
            page_at: 7,
            ..TEXTS
        },
        pages: &[STANDARD],
        wanted: &[Wanted::Text("a"), Wanted::Null],
    },
    // Where all entries are null, no place is read.
    Chunk {
        setting: Setting { rows: 3, ..TEXTS },
        pages: &[
            Page {
                body: b"\0\0\0\0",
                ..DICTIONARY
            },
            Page {
                values: 3,
                encoding: 8,
                body: b"\x02\0\0\0\x06\0",
                ..PLAIN
            },
        ],
        wanted: &[Wanted::Null, Wanted::Null, Wanted::Null],
    },
    // No rows: no page is looked at.
    Chunk {
        setting: Setting { rows: 0, ..TEXTS },
        pages: &[Page { kind: 3, ..PLAIN }],
        wanted: &[],
    },
];

#[test]
fn pages_are_read_one_after_the_other(rt: HostRuntime) -> Result<(), Fail> {
    for (place, chunk) in CHUNKS.iter().enumerate() {
        let good = gives(rt.alloc(), &chunk.setting, chunk.pages, Ok(chunk.wanted))?;
        assert!(rt; good, "chunk {place}");
    }
    Ok(())
}

/// How many bytes of text a column may have, and what is read of the mixed texts, which have 6.
const LIMITS: [(u64, Result<&[Wanted], FileFault>); 4] = [
    (6, Ok(MIXED)),
    (u64::MAX, Ok(MIXED)),
    (5, Err(FileFault::TextLimit)),
    (0, Err(FileFault::TextLimit)),
];

/// A text of 64 bytes.
const LONG: &str = "0123456789abcdef0123456789abcdef0123456789abcdef0123456789abcdef";

/// That text as a dictionary, and a thousand entries of it.
const REPEATED: &[Page<'static>] = &[
    Page {
        body: b"\x40\0\0\00123456789abcdef0123456789abcdef0123456789abcdef0123456789abcdef",
        ..DICTIONARY
    },
    Page {
        values: 1000,
        encoding: 8,
        body: b"\x03\0\0\0\xd0\x0f\x01\0\xd0\x0f",
        ..PLAIN
    },
];

// Whether all rows of a column have this value, and there are so many.
fn repeats(column: &AnyColumn, wanted: Wanted, rows: usize) -> Result<bool, AllocError> {
    for row in 0..column.len() {
        if !wanted.is(&column.get(row)?) {
            return Ok(false);
        }
    }
    Ok(column.len() == rows)
}

#[test]
fn texts_are_read_up_to_their_limit(rt: HostRuntime) -> Result<(), Fail> {
    let alloc = rt.alloc();
    for (text_left, wanted) in LIMITS {
        let setting = Setting {
            rows: 6,
            text_left,
            ..TEXTS
        };
        assert!(rt; gives(alloc, &setting, MIXED_PAGES, wanted)?, "{text_left}");
    }
    let enough = Setting {
        rows: 1000,
        text_left: 64_000,
        ..TEXTS
    };
    let column = read(alloc, &enough, REPEATED)??;
    assert!(rt; repeats(&column, Wanted::Text(LONG), 1000)?);
    let less = Setting {
        text_left: 63_999,
        ..enough
    };
    assert!(rt; gives(alloc, &less, REPEATED, Err(FileFault::TextLimit))?);
    Ok(())
}

// A million full levels, and the numbers from 0 on.
fn million(alloc: Global) -> Result<Bytes, AllocError> {
    let mut body = Items::from_slice(alloc, b"\x04\0\0\0\x80\x89\x7a\x01")?;
    for number in 0..1_000_000i64 {
        body.extend_from_slice(&number.to_le_bytes())?;
    }
    Ok(body)
}

// Whether a column has the numbers from 0 on.
fn counts(column: &AnyColumn) -> Result<bool, AllocError> {
    for row in 0..column.len() {
        if !matches!(column.get(row)?, Value::Int(number) if u64::try_from(number) == Ok(row as u64))
        {
            return Ok(false);
        }
    }
    Ok(true)
}

#[test]
fn a_million_longs_are_read(rt: HostRuntime) -> Result<(), Fail> {
    let alloc = rt.alloc();
    let body = million(alloc)?;
    let page = Page {
        values: 1_000_000,
        body: body.as_slice(),
        ..PLAIN
    };
    let setting = Setting {
        kind: DataType::Long,
        physical: 2,
        rows: 1_000_000,
        ..TEXTS
    };
    let column = read(alloc, &setting, &[page])??;
    assert_eq!(rt; column.len(), 1_000_000);
    assert!(rt; counts(&column)?);
    Ok(())
}
