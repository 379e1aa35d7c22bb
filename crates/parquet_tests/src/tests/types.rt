// Each physical type for each type of columns: values at the ends of the type's range, and just past
// them.
use super::chunks::{NO_ANNOTATION, PLAIN, Page, REQUIRED, Setting, gives};
use super::wanted::Wanted;
use dm_types::DataType;
use parquet_meta::{Annotation, Logical};
use parquet_pages::FileFault;
use std::alloc::Global;
use std::test::Fail;

/// How the values of a column stand, and the bytes of single values.
#[derive(Clone, Copy)]
struct Form {
    setting: Setting,
    cells: &'static [(&'static [u8], Result<Wanted, FileFault>)],
}

/// Truth values, whole numbers, texts and bytes.
static PLAIN_TYPES: [Form; 7] = [
    // BOOLEAN; the bits behind the values are free.
    Form {
        setting: Setting {
            kind: DataType::Boolean,
            physical: 0,
            ..REQUIRED
        },
        cells: &[
            (b"\x01", Ok(Wanted::Flag(true))),
            (b"\xfe", Ok(Wanted::Flag(false))),
        ],
    },
    // INT32.
    Form {
        setting: Setting {
            kind: DataType::Byte,
            physical: 1,
            ..REQUIRED
        },
        cells: &[
            (b"\x7f\x00\x00\x00", Ok(Wanted::Whole(127))),
            (b"\x80\xff\xff\xff", Ok(Wanted::Whole(-128))),
            (b"\x80\x00\x00\x00", Err(FileFault::Range)),
            (b"\x7f\xff\xff\xff", Err(FileFault::Range)),
        ],
    },
    // INT32.
    Form {
        setting: Setting {
            kind: DataType::Short,
            physical: 1,
            ..REQUIRED
        },
        cells: &[
            (b"\xff\x7f\x00\x00", Ok(Wanted::Whole(32767))),
            (b"\x00\x80\xff\xff", Ok(Wanted::Whole(-32768))),
            (b"\x00\x80\x00\x00", Err(FileFault::Range)),
            (b"\xff\x7f\xff\xff", Err(FileFault::Range)),
        ],
    },
    // INT32.
    Form {
        setting: Setting {
            kind: DataType::Integer,
            physical: 1,
            ..REQUIRED
        },
        cells: &[
            (b"\xff\xff\xff\x7f", Ok(Wanted::Whole(2_147_483_647))),
            (b"\x00\x00\x00\x80", Ok(Wanted::Whole(-2_147_483_648))),
        ],
    },
    // INT64.
    Form {
        setting: Setting {
            kind: DataType::Long,
            physical: 2,
            ..REQUIRED
        },
        cells: &[
            (
                b"\xff\xff\xff\xff\xff\xff\xff\x7f",
                Ok(Wanted::Whole(i64::MAX)),
            ),
            (
                b"\x00\x00\x00\x00\x00\x00\x00\x80",
                Ok(Wanted::Whole(i64::MIN)),
            ),
            (b"\x01\x00\x00\x00\x00\x00\x00\x00", Ok(Wanted::Whole(1))),
        ],
    },
    // BYTE_ARRAY: UTF-8, and bytes that are none.
    Form {
        setting: Setting {
            kind: DataType::Str,
            physical: 6,
            ..REQUIRED
        },
        cells: &[
            (
                b"\x07\x00\x00\x00\x68\xc3\xa9\xf0\x9f\x98\x80",
                Ok(Wanted::Text("h\u{e9}\u{1f600}")),
            ),
            (b"\x00\x00\x00\x00", Ok(Wanted::Text(""))),
            (b"\x01\x00\x00\x00\xff", Err(FileFault::Range)),
            (b"\x03\x00\x00\x00\xed\xa0\x80", Err(FileFault::Range)),
        ],
    },
    // BYTE_ARRAY.
    Form {
        setting: Setting {
            kind: DataType::Binary,
            physical: 6,
            ..REQUIRED
        },
        cells: &[
            (b"\x02\x00\x00\x00\xff\x00", Ok(Wanted::Raw(b"\xff\x00"))),
            (b"\x00\x00\x00\x00", Ok(Wanted::Raw(b""))),
        ],
    },
];

/// Days and moments.
static TIMES: [Form; 6] = [
    // INT32: the first and the last day of the years 1 to 9999.
    Form {
        setting: Setting {
            kind: DataType::Date,
            physical: 1,
            ..REQUIRED
        },
        cells: &[
            (b"\x00\x00\x00\x00", Ok(Wanted::Day(0))),
            (b"\xc6\x06\xf5\xff", Ok(Wanted::Day(-719_162))),
            (b"\xa0\xc0\x2c\x00", Ok(Wanted::Day(2_932_896))),
            (b"\xc5\x06\xf5\xff", Err(FileFault::Range)),
            (b"\xa1\xc0\x2c\x00", Err(FileFault::Range)),
        ],
    },
    // INT64 of microseconds, by the logical type.
    Form {
        setting: Setting {
            kind: DataType::Timestamp,
            physical: 2,
            annotation: Annotation {
                logical: Logical::Timestamp { unit: 2 },
                ..NO_ANNOTATION
            },
            ..REQUIRED
        },
        cells: &[
            (b"\x01\x00\x00\x00\x00\x00\x00\x00", Ok(Wanted::Micros(1))),
            (
                b"\x00\x40\xd4\x00\x01\x40\x23\xff",
                Ok(Wanted::Micros(-62_135_596_800_000_000)),
            ),
            (
                b"\xff\x5f\x73\xcc\x0c\x44\x84\x03",
                Ok(Wanted::Micros(253_402_300_799_999_999)),
            ),
            (b"\xff\x3f\xd4\x00\x01\x40\x23\xff", Err(FileFault::Range)),
            (b"\x00\x60\x73\xcc\x0c\x44\x84\x03", Err(FileFault::Range)),
        ],
    },
    // INT64 of microseconds, by the converted type.
    Form {
        setting: Setting {
            kind: DataType::Timestamp,
            physical: 2,
            annotation: Annotation {
                converted: Some(10),
                ..NO_ANNOTATION
            },
            ..REQUIRED
        },
        cells: &[
            (b"\xff\xff\xff\xff\xff\xff\xff\xff", Ok(Wanted::Micros(-1))),
            (b"\x00\x60\x73\xcc\x0c\x44\x84\x03", Err(FileFault::Range)),
        ],
    },
    // INT64 of milliseconds, by the converted type.
    Form {
        setting: Setting {
            kind: DataType::Timestamp,
            physical: 2,
            annotation: Annotation {
                converted: Some(9),
                ..NO_ANNOTATION
            },
            ..REQUIRED
        },
        cells: &[
            (
                b"\xff\xff\xff\xff\xff\xff\xff\xff",
                Ok(Wanted::Micros(-1_000)),
            ),
            (
                b"\xff\xdb\x1f\xd2\x77\xe6\x00\x00",
                Ok(Wanted::Micros(253_402_300_799_999_000)),
            ),
            (
                b"\x00\x28\xd3\xed\x7c\xc7\xff\xff",
                Ok(Wanted::Micros(-62_135_596_800_000_000)),
            ),
            (b"\x00\xdc\x1f\xd2\x77\xe6\x00\x00", Err(FileFault::Range)),
            (b"\xff\x27\xd3\xed\x7c\xc7\xff\xff", Err(FileFault::Range)),
            (b"\xff\xff\xff\xff\xff\xff\xff\x7f", Err(FileFault::Range)),
        ],
    },
    // INT64 of milliseconds by the logical type, which goes before the converted one.
    Form {
        setting: Setting {
            kind: DataType::Timestamp,
            physical: 2,
            annotation: Annotation {
                converted: Some(10),
                logical: Logical::Timestamp { unit: 1 },
                ..NO_ANNOTATION
            },
            ..REQUIRED
        },
        cells: &[(
            b"\x02\x00\x00\x00\x00\x00\x00\x00",
            Ok(Wanted::Micros(2_000)),
        )],
    },
    // INT96: 1970-01-01, nanoseconds below one microsecond, a day of nanoseconds, and the first and the last day of the years 1 to 9999.
    Form {
        setting: Setting {
            kind: DataType::Timestamp,
            physical: 3,
            ..REQUIRED
        },
        cells: &[
            (
                b"\x00\x00\x00\x00\x00\x00\x00\x00\x8c\x3d\x25\x00",
                Ok(Wanted::Micros(0)),
            ),
            (
                b"\xff\xff\x4e\x91\x94\x4e\x00\x00\x8c\x3d\x25\x00",
                Ok(Wanted::Micros(86_399_999_999)),
            ),
            (
                b"\x00\x00\x4f\x91\x94\x4e\x00\x00\x8c\x3d\x25\x00",
                Err(FileFault::Range),
            ),
            (
                b"\xff\xff\xff\xff\xff\xff\xff\xff\x8c\x3d\x25\x00",
                Err(FileFault::Range),
            ),
            (
                b"\x00\x00\x00\x00\x00\x00\x00\x00\x52\x44\x1a\x00",
                Ok(Wanted::Micros(-62_135_596_800_000_000)),
            ),
            (
                b"\xff\xff\x4e\x91\x94\x4e\x00\x00\x2c\xfe\x51\x00",
                Ok(Wanted::Micros(253_402_300_799_999_999)),
            ),
            (
                b"\xff\xff\x4e\x91\x94\x4e\x00\x00\x51\x44\x1a\x00",
                Err(FileFault::Range),
            ),
            (
                b"\x00\x00\x00\x00\x00\x00\x00\x00\x2d\xfe\x51\x00",
                Err(FileFault::Range),
            ),
        ],
    },
];

/// Decimals.
static DECIMALS: [Form; 4] = [
    // INT32, with the scale of the element.
    Form {
        setting: Setting {
            kind: DataType::Decimal {
                precision: 5,
                scale: 2,
            },
            physical: 1,
            annotation: Annotation {
                converted: Some(5),
                scale: Some(2),
                ..NO_ANNOTATION
            },
            ..REQUIRED
        },
        cells: &[
            (b"\x9f\x86\x01\x00", Ok(Wanted::Unscaled(99_999))),
            (b"\x61\x79\xfe\xff", Ok(Wanted::Unscaled(-99_999))),
            (b"\xa0\x86\x01\x00", Err(FileFault::Range)),
            (b"\x60\x79\xfe\xff", Err(FileFault::Range)),
        ],
    },
    // INT64, with the scale of the logical type.
    Form {
        setting: Setting {
            kind: DataType::Decimal {
                precision: 18,
                scale: 4,
            },
            physical: 2,
            annotation: Annotation {
                logical: Logical::Decimal { scale: 4 },
                ..NO_ANNOTATION
            },
            ..REQUIRED
        },
        cells: &[
            (
                b"\xff\xff\x63\xa7\xb3\xb6\xe0\x0d",
                Ok(Wanted::Unscaled(999_999_999_999_999_999)),
            ),
            (
                b"\x01\x00\x9c\x58\x4c\x49\x1f\xf2",
                Ok(Wanted::Unscaled(-999_999_999_999_999_999)),
            ),
            (b"\x00\x00\x64\xa7\xb3\xb6\xe0\x0d", Err(FileFault::Range)),
            (b"\x00\x00\x9c\x58\x4c\x49\x1f\xf2", Err(FileFault::Range)),
        ],
    },
    // BYTE_ARRAY of any length, the highest byte first; where only DECIMAL is told, the scale is 0.
    Form {
        setting: Setting {
            kind: DataType::Decimal {
                precision: 38,
                scale: 0,
            },
            physical: 6,
            annotation: Annotation {
                converted: Some(5),
                ..NO_ANNOTATION
            },
            ..REQUIRED
        },
        cells: &[
            (b"\x00\x00\x00\x00", Ok(Wanted::Unscaled(0))),
            (b"\x01\x00\x00\x00\xff", Ok(Wanted::Unscaled(-1))),
            (b"\x01\x00\x00\x00\x80", Ok(Wanted::Unscaled(-128))),
            (b"\x02\x00\x00\x00\x00\x80", Ok(Wanted::Unscaled(128))),
            (b"\x02\x00\x00\x00\x01\x02", Ok(Wanted::Unscaled(258))),
            (
                b"\x14\x00\x00\x00\x00\x00\x00\x00\x00\x00\x00\x00\x00\x00\x00\x00\x00\x00\x00\x00\x00\x00\x00\x07",
                Ok(Wanted::Unscaled(7)),
            ),
            (
                b"\x14\x00\x00\x00\xff\xff\xff\xff\xff\xff\xff\xff\xff\xff\xff\xff\xff\xff\xff\xff\xff\xff\xff\xf9",
                Ok(Wanted::Unscaled(-7)),
            ),
            (
                b"\x10\x00\x00\x00\x4b\x3b\x4c\xa8\x5a\x86\xc4\x7a\x09\x8a\x22\x3f\xff\xff\xff\xff",
                Ok(Wanted::Unscaled(99_999_999_999_999_999_999_999_999_999_999_999_999)),
            ),
            (
                b"\x10\x00\x00\x00\xb4\xc4\xb3\x57\xa5\x79\x3b\x85\xf6\x75\xdd\xc0\x00\x00\x00\x01",
                Ok(Wanted::Unscaled(-99_999_999_999_999_999_999_999_999_999_999_999_999)),
            ),
            (
                b"\x10\x00\x00\x00\x4b\x3b\x4c\xa8\x5a\x86\xc4\x7a\x09\x8a\x22\x40\x00\x00\x00\x00",
                Err(FileFault::Range),
            ),
            (
                b"\x10\x00\x00\x00\xb4\xc4\xb3\x57\xa5\x79\x3b\x85\xf6\x75\xdd\xc0\x00\x00\x00\x00",
                Err(FileFault::Range),
            ),
            (
                b"\x11\x00\x00\x00\x01\x00\x00\x00\x00\x00\x00\x00\x00\x00\x00\x00\x00\x00\x00\x00\x00",
                Err(FileFault::Range),
            ),
            (
                b"\x11\x00\x00\x00\xff\x00\x00\x00\x00\x00\x00\x00\x00\x00\x00\x00\x00\x00\x00\x00\x00",
                Err(FileFault::Range),
            ),
        ],
    },
    // FIXED_LEN_BYTE_ARRAY, the highest byte first.
    Form {
        setting: Setting {
            kind: DataType::Decimal {
                precision: 9,
                scale: 2,
            },
            physical: 7,
            length: 5,
            annotation: Annotation {
                converted: Some(5),
                scale: Some(2),
                ..NO_ANNOTATION
            },
            ..REQUIRED
        },
        cells: &[
            (b"\x00\x3b\x9a\xc9\xff", Ok(Wanted::Unscaled(999_999_999))),
            (b"\xff\xc4\x65\x36\x01", Ok(Wanted::Unscaled(-999_999_999))),
            (b"\x00\x3b\x9a\xca\x00", Err(FileFault::Range)),
            (b"\xff\xc4\x65\x36\x00", Err(FileFault::Range)),
        ],
    },
];

// Whether the bytes of one value are read as it.
fn is_read(
    alloc: Global,
    setting: &Setting,
    body: &[u8],
    wanted: Result<Wanted, FileFault>,
) -> Result<bool, Fail> {
    let page = Page { body, ..PLAIN };
    match wanted {
        Ok(value) => gives(alloc, setting, &[page], Ok(&[value])),
        Err(fault) => gives(alloc, setting, &[page], Err(fault)),
    }
}

// The first bytes of a form that are read as something else.
fn first_cell(alloc: Global, form: &Form) -> Result<Option<usize>, Fail> {
    for (place, (body, wanted)) in form.cells.iter().enumerate() {
        if !is_read(alloc, &form.setting, body, *wanted)? {
            return Ok(Some(place));
        }
    }
    Ok(None)
}

// The first form that is read as something else, and its bytes.
fn first_other(alloc: Global, forms: &[Form]) -> Result<Option<(usize, usize)>, Fail> {
    for (place, form) in forms.iter().enumerate() {
        if let Some(cell) = first_cell(alloc, form)? {
            return Ok(Some((place, cell)));
        }
    }
    Ok(None)
}

#[test]
fn values_of_each_type_are_read(rt: HostRuntime) -> Result<(), Fail> {
    for forms in [&PLAIN_TYPES[..], &TIMES, &DECIMALS] {
        assert_eq!(rt; first_other(rt.alloc(), forms)?, None);
    }
    Ok(())
}
