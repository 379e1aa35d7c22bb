// The leaf that a column of a type is written as (LogicalTypes.md; parquet.thrift, `SchemaElement`).
ghost use Rattle.std.specs.Prelude.{◌≡◌, ◌≤◌, pos};
ghost use Rattle.dm_types.specs.declared.value.TheConstants.{MAX_PRECISION};
ghost use Rattle.dm_types.specs.Ranges.{IsWellFormed};
ghost use Rattle.parquet_pages.specs.Stored as spec;

use dm_types::{DataType, ten_to};
use parquet_meta::numbers::{
    BOOLEAN, BYTE_ARRAY, DATE, DECIMAL, FIXED_LEN_BYTE_ARRAY, INT_8, INT_16, INT32, INT64,
    TIMESTAMP_MICROS, UTF8,
};
use parquet_meta::{Annotation, Logical};

/// The least number of bytes with room for each number of so many digits, in two's complement.
pub(crate) fn decimal_size(precision: u8) -> usize
    requires { precision ≤ MAX_PRECISION }
    ensures least { result ≡ spec.decimal_size precision }
    ensures some { 1 ≤ result }
    ensures within { result ≤ 16 }
{
    for bytes in 1..16 {
        if ten_to(precision) <= 1u128 << (8 * bytes - 1) {
            return bytes;
        }
    }
    16
}

fn decimal_type(precision: u8) -> u8
    ensures { result ≡ spec.decimal_type precision }
{
    match precision {
        0..=9 => INT32,
        10..=18 => INT64,
        _ => FIXED_LEN_BYTE_ARRAY,
    }
}

/// The physical type, by its number in parquet.thrift.
pub(crate) fn type_of(kind: &DataType) -> u8
    ensures { result ≡ spec.type_of kind.now }
{
    match *kind {
        DataType::Void | DataType::Boolean => BOOLEAN,
        DataType::Byte | DataType::Short | DataType::Integer | DataType::Date => INT32,
        DataType::Long | DataType::Timestamp => INT64,
        DataType::Str | DataType::Binary => BYTE_ARRAY,
        DataType::Decimal { precision, .. } => decimal_type(precision),
    }
}

/// How many bytes a value of FIXED_LEN_BYTE_ARRAY has; 0 for the other physical types.
pub(crate) fn length_of(kind: &DataType) -> usize
    requires { IsWellFormed kind.now }
    ensures value { result ≡ spec.length_of kind.now }
    ensures within { result ≤ 16 }
{
    match *kind {
        DataType::Decimal { precision, .. } if precision > 18 => decimal_size(precision),
        _ => 0,
    }
}

// ConvertedType.
fn converted_of(kind: &DataType) -> Option<i32>
    ensures { result ≡ spec.converted_of kind.now }
{
    match kind {
        DataType::Str => Some(UTF8),
        DataType::Decimal { .. } => Some(DECIMAL),
        DataType::Date => Some(DATE),
        DataType::Timestamp => Some(TIMESTAMP_MICROS),
        DataType::Byte => Some(INT_8),
        DataType::Short => Some(INT_16),
        _ => None,
    }
}

/// What the leaf tells of its values.
pub(crate) fn annotation_of(kind: &DataType) -> Annotation
    ensures { result ≡ spec.annotation_of kind.now }
{
    let (scale, precision) = match *kind {
        DataType::Decimal { precision, scale } => {
            (Some(i32::from(scale)), Some(i32::from(precision)))
        }
        _ => (None, None),
    };
    Annotation {
        converted: converted_of(kind),
        scale,
        precision,
        logical: Logical::Absent,
    }
}
