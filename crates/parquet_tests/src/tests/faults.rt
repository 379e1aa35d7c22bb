// Chunks that aren't read, each with its first fault.
use super::chunks::{DICTIONARY, NO_ANNOTATION, PLAIN, Page, Setting, TEXTS, gives};
use super::wanted::Wanted;
use dm_types::DataType;
use parquet_meta::{Annotation, Logical};
use parquet_pages::FileFault;
use std::alloc::Global;
use std::test::Fail;

/// Pages, and why they aren't read.
#[derive(Clone, Copy)]
struct Faulty {
    setting: Setting,
    pages: &'static [Page<'static>],
    fault: FileFault,
}

/// A data page of the text `a`.
const LETTER: Page<'static> = Page {
    body: b"\x02\0\0\0\x02\x01\x01\0\0\0a",
    ..PLAIN
};

/// A data page of null.
const NOTHING: Page<'static> = Page {
    body: b"\x02\0\0\0\x02\0",
    ..PLAIN
};

/// A dictionary page of the text `a`.
const LETTERS: Page<'static> = Page {
    body: b"\x01\0\0\0a",
    ..DICTIONARY
};

/// A data page of the first place.
const FIRST: Page<'static> = Page {
    encoding: 8,
    body: b"\x02\0\0\0\x02\x01\x01\x02\0",
    ..PLAIN
};

/// A chunk of one text, which is read.
const GOOD: Faulty = Faulty {
    setting: TEXTS,
    pages: &[LETTER],
    fault: FileFault::BadParquet,
};

/// One that is read and may hold no null.
const FULL: Setting = Setting {
    nullable: false,
    ..TEXTS
};

/// Pages that are no good Parquet.
static BAD_PAGES: [Faulty; 20] = [
    // The page of the standard with a byte more, which its sizes count.
    Faulty {
        setting: Setting { rows: 2, ..TEXTS },
        pages: &[Page {
            values: 2,
            body: b"\x02\0\0\0\x03\x01\x01\0\0\0a\0",
            ..LETTER
        }],
        ..GOOD
    },
    // A byte behind the last value.
    Faulty {
        pages: &[Page {
            body: b"\x02\0\0\0\x02\x01\x01\0\0\0a\0",
            ..LETTER
        }],
        ..GOOD
    },
    // A value that is cut.
    Faulty {
        pages: &[Page {
            body: b"\x02\0\0\0\x02\x01\x02\0\0\0a",
            ..LETTER
        }],
        ..GOOD
    },
    // Levels past the body, a length of levels that is cut, and a byte behind the last level.
    Faulty {
        pages: &[Page {
            body: b"\xff\0\0\0\x02\x01\x01\0\0\0a",
            ..LETTER
        }],
        ..GOOD
    },
    Faulty {
        pages: &[Page {
            body: b"\x02\0\0",
            ..LETTER
        }],
        ..GOOD
    },
    Faulty {
        pages: &[Page {
            body: b"\x03\0\0\0\x02\x01\0\x01\0\0\0a",
            ..LETTER
        }],
        ..GOOD
    },
    // The place at the dictionary's length.
    Faulty {
        pages: &[
            LETTERS,
            Page {
                body: b"\x02\0\0\0\x02\x01\x01\x02\x01",
                ..FIRST
            },
        ],
        ..GOOD
    },
    // Nothing where the width of places stands, and a byte behind the last place.
    Faulty {
        pages: &[
            LETTERS,
            Page {
                body: b"\x02\0\0\0\x02\x01",
                ..FIRST
            },
        ],
        ..GOOD
    },
    Faulty {
        pages: &[
            LETTERS,
            Page {
                body: b"\x02\0\0\0\x02\x01\x01\x02\0\0",
                ..FIRST
            },
        ],
        ..GOOD
    },
    // Places without a dictionary.
    Faulty {
        pages: &[FIRST],
        ..GOOD
    },
    // A second dictionary page, and one behind a data page.
    Faulty {
        pages: &[LETTERS, LETTERS, FIRST],
        ..GOOD
    },
    Faulty {
        setting: Setting { rows: 2, ..TEXTS },
        pages: &[LETTER, LETTERS, FIRST],
        ..GOOD
    },
    // A dictionary page with a byte behind its value.
    Faulty {
        pages: &[
            Page {
                body: b"\x01\0\0\0a\0",
                ..LETTERS
            },
            FIRST,
        ],
        ..GOOD
    },
    // More entries than are left, less than none, and fewer than rows.
    Faulty {
        pages: &[Page {
            values: 2,
            body: b"\x02\0\0\0\x04\x01\x01\0\0\0a\0\0\0\0",
            ..LETTER
        }],
        ..GOOD
    },
    Faulty {
        pages: &[Page {
            values: -1,
            ..LETTER
        }],
        ..GOOD
    },
    Faulty {
        setting: Setting { rows: 2, ..TEXTS },
        pages: &[LETTER],
        ..GOOD
    },
    // Dictionary values less than none.
    Faulty {
        pages: &[
            Page {
                values: -1,
                ..LETTERS
            },
            FIRST,
        ],
        ..GOOD
    },
    // Sizes that differ.
    Faulty {
        pages: &[Page {
            more_unpacked: 1,
            ..LETTER
        }],
        ..GOOD
    },
    Faulty {
        pages: &[Page {
            more_unpacked: -1,
            ..LETTER
        }],
        ..GOOD
    },
    // No page.
    Faulty { pages: &[], ..GOOD },
];

/// Pages of encodings that aren't read, and chunks with several faults.
static ORDERED: [Faulty; 13] = [
    // DATA_PAGE_V2, and a kind that no one knows.
    Faulty {
        pages: &[Page { kind: 3, ..LETTER }],
        fault: FileFault::Encoding,
        ..GOOD
    },
    Faulty {
        pages: &[Page { kind: 4, ..LETTER }],
        fault: FileFault::Encoding,
        ..GOOD
    },
    // DELTA_BINARY_PACKED.
    Faulty {
        pages: &[Page {
            encoding: 5,
            ..LETTER
        }],
        fault: FileFault::Encoding,
        ..GOOD
    },
    // Levels in BIT_PACKED.
    Faulty {
        pages: &[Page {
            definition: 4,
            ..LETTER
        }],
        fault: FileFault::Encoding,
        ..GOOD
    },
    // A dictionary page in RLE_DICTIONARY.
    Faulty {
        pages: &[
            Page {
                encoding: 8,
                ..LETTERS
            },
            FIRST,
        ],
        fault: FileFault::Encoding,
        ..GOOD
    },
    // Before what the page's body holds.
    Faulty {
        setting: FULL,
        pages: &[Page {
            encoding: 5,
            ..NOTHING
        }],
        fault: FileFault::Encoding,
        ..GOOD
    },
    Faulty {
        pages: &[Page {
            encoding: 5,
            body: b"",
            ..LETTER
        }],
        fault: FileFault::Encoding,
        ..GOOD
    },
    // Behind what the page before it holds.
    Faulty {
        setting: Setting { rows: 2, ..FULL },
        pages: &[NOTHING, Page { kind: 3, ..LETTER }],
        fault: FileFault::Range,
        ..GOOD
    },
    // Null where the column takes none.
    Faulty {
        setting: FULL,
        pages: &[NOTHING],
        fault: FileFault::Range,
        ..GOOD
    },
    // A compressed chunk, before its pages, and before a bad place.
    Faulty {
        setting: Setting { codec: 1, ..TEXTS },
        pages: &[Page { kind: 3, ..LETTER }],
        fault: FileFault::Compressed,
    },
    Faulty {
        setting: Setting {
            codec: 2,
            page_at: 3,
            ..TEXTS
        },
        fault: FileFault::Compressed,
        ..GOOD
    },
    // Another type, before compression.
    Faulty {
        setting: Setting {
            physical: 1,
            codec: 1,
            ..TEXTS
        },
        fault: FileFault::Mismatch,
        ..GOOD
    },
    // A bad page behind text that passes the limit.
    Faulty {
        setting: Setting {
            rows: 2,
            text_left: 0,
            ..TEXTS
        },
        pages: &[
            LETTER,
            Page {
                values: -1,
                ..LETTER
            },
        ],
        ..GOOD
    },
];

/// Chunks at a bad place or of a bad size.
static BAD_PLACES: [Setting; 13] = [
    // Good pages within the first four bytes.
    Setting {
        start: b"PAR",
        page_at: 3,
        ..TEXTS
    },
    Setting {
        start: b"",
        page_at: 0,
        ..TEXTS
    },
    Setting {
        start: b"PAR",
        dictionary_at: Some(3),
        ..TEXTS
    },
    // Before the file, past it, and far past it.
    Setting {
        page_at: -4,
        ..TEXTS
    },
    Setting {
        page_at: 1000,
        ..TEXTS
    },
    Setting {
        page_at: i64::MAX,
        ..TEXTS
    },
    // More bytes than the file has, fewer than the page, and less than none.
    Setting {
        more_bytes: 1,
        ..TEXTS
    },
    Setting {
        more_bytes: i64::MAX,
        ..TEXTS
    },
    Setting {
        more_bytes: -1,
        ..TEXTS
    },
    Setting {
        more_bytes: -1000,
        ..TEXTS
    },
    // Another number of values than rows.
    Setting {
        more_values: 1,
        ..TEXTS
    },
    Setting {
        more_values: -1,
        ..TEXTS
    },
    Setting {
        more_values: -2,
        ..TEXTS
    },
];

/// Leaves that don't hold the column.
static MISMATCHES: [Setting; 17] = [
    // Another physical type, and the type of no column.
    Setting {
        physical: 1,
        ..TEXTS
    },
    Setting {
        physical: 7,
        ..TEXTS
    },
    Setting {
        kind: DataType::Binary,
        physical: 7,
        ..TEXTS
    },
    Setting {
        kind: DataType::Boolean,
        ..TEXTS
    },
    Setting {
        kind: DataType::Byte,
        physical: 2,
        ..TEXTS
    },
    Setting {
        kind: DataType::Date,
        physical: 2,
        ..TEXTS
    },
    Setting {
        kind: DataType::Long,
        physical: 1,
        ..TEXTS
    },
    Setting {
        kind: DataType::Timestamp,
        physical: 1,
        ..TEXTS
    },
    Setting {
        kind: DataType::Void,
        ..TEXTS
    },
    // A decimal of another scale, of scale 0, of no scale, and of DOUBLE.
    Setting {
        kind: DataType::Decimal {
            precision: 5,
            scale: 2,
        },
        physical: 1,
        annotation: Annotation {
            converted: Some(5),
            scale: Some(3),
            ..NO_ANNOTATION
        },
        ..TEXTS
    },
    Setting {
        kind: DataType::Decimal {
            precision: 5,
            scale: 2,
        },
        physical: 1,
        annotation: Annotation {
            converted: Some(5),
            ..NO_ANNOTATION
        },
        ..TEXTS
    },
    Setting {
        kind: DataType::Decimal {
            precision: 5,
            scale: 2,
        },
        physical: 1,
        ..TEXTS
    },
    Setting {
        kind: DataType::Decimal {
            precision: 5,
            scale: 2,
        },
        physical: 5,
        annotation: Annotation {
            scale: Some(2),
            ..NO_ANNOTATION
        },
        ..TEXTS
    },
    // Repeated, and below a group.
    Setting {
        repeated: true,
        ..TEXTS
    },
    Setting {
        top: false,
        ..TEXTS
    },
    // Moments in INT64 without a unit, and in nanoseconds.
    Setting {
        kind: DataType::Timestamp,
        physical: 2,
        ..TEXTS
    },
    Setting {
        kind: DataType::Timestamp,
        physical: 2,
        annotation: Annotation {
            converted: Some(10),
            logical: Logical::Timestamp { unit: 3 },
            ..NO_ANNOTATION
        },
        ..TEXTS
    },
];

// The first of the settings under which a page that is read gives something else than the fault.
fn first_other(
    alloc: Global,
    settings: &[Setting],
    fault: FileFault,
) -> Result<Option<usize>, Fail> {
    for (place, setting) in settings.iter().enumerate() {
        if !gives(alloc, setting, &[LETTER], Err(fault))? {
            return Ok(Some(place));
        }
    }
    Ok(None)
}

#[test]
fn bad_chunks_are_refused(rt: HostRuntime) -> Result<(), Fail> {
    let alloc = rt.alloc();
    assert_eq!(rt;
        first_other(alloc, &BAD_PLACES, FileFault::BadParquet)?,
        None
    );
    assert_eq!(rt; first_other(alloc, &MISMATCHES, FileFault::Mismatch)?, None);
    // What the tables are made of is read.
    let letter = Ok(&[Wanted::Text("a")][..]);
    assert!(rt; gives(alloc, &FULL, &[LETTER], letter)?);
    assert!(rt; gives(alloc, &FULL, &[LETTERS, FIRST], letter)?);
    assert!(rt; gives(alloc, &TEXTS, &[NOTHING], Ok(&[Wanted::Null]))?);
    Ok(())
}

#[test]
fn bad_pages_are_refused(rt: HostRuntime) -> Result<(), Fail> {
    for table in [&BAD_PAGES[..], &ORDERED] {
        for (place, faulty) in table.iter().enumerate() {
            let told = gives(rt.alloc(), &faulty.setting, faulty.pages, Err(faulty.fault))?;
            assert!(rt; told, "{place}");
        }
    }
    Ok(())
}
