// The leaves that a type is read of.
ghost use Rattle.std.specs.Prelude.{◌≡◌, pos};
ghost use Rattle.parquet_pages.specs.Types as spec;

use dm_types::DataType;
use parquet_meta::numbers::{
    BOOLEAN, BYTE_ARRAY, DECIMAL, FIXED_LEN_BYTE_ARRAY, INT32, INT64, INT96, MICROS, MILLIS,
    TIMESTAMP_MICROS, TIMESTAMP_MILLIS,
};
use parquet_meta::{Annotation, LeafSchema, Logical};

// The scale that the annotation DECIMAL gives.
fn annotated_scale(annotation: &Annotation) -> Option<i32>
    ensures { result ≡ spec.annotated_scale annotation.now.logical annotation.now.converted }
{
    match annotation.logical {
        Logical::Decimal { scale } => Some(scale),
        _ if annotation.converted == Some(DECIMAL) => Some(0),
        _ => None,
    }
}

fn scale_of(annotation: &Annotation) -> Option<i32>
    ensures { result ≡ spec.scale_of annotation.now }
{
    match annotation.scale {
        Some(scale) => Some(scale),
        None => annotated_scale(annotation),
    }
}

/// How many microseconds the unit of a moment in INT64 has.
pub(crate) fn micros_of(annotation: &Annotation) -> Option<u32>
    ensures { result ≡ spec.micros_of annotation.now.logical annotation.now.converted }
{
    match annotation.logical {
        Logical::Absent => converted_micros(annotation.converted),
        Logical::Timestamp { unit: MILLIS } => Some(1000),
        Logical::Timestamp { unit: MICROS } => Some(1),
        _ => None,
    }
}

fn converted_micros(converted: Option<i32>) -> Option<u32>
    ensures { result ≡ spec.converted_micros converted }
{
    match converted {
        Some(TIMESTAMP_MILLIS) => Some(1000),
        Some(TIMESTAMP_MICROS) => Some(1),
        _ => None,
    }
}

fn holds_decimal(scale: u8, leaf: &LeafSchema) -> bool
    ensures { result ≡ spec.holds_decimal scale leaf.now }
{
    matches!(
        leaf.physical,
        INT32 | INT64 | BYTE_ARRAY | FIXED_LEN_BYTE_ARRAY
    ) && scale_of(&leaf.annotation) == Some(i32::from(scale))
}

fn holds_moment(leaf: &LeafSchema) -> bool
    ensures { result ≡ spec.holds_moment leaf.now }
{
    leaf.physical == INT96 || leaf.physical == INT64 && micros_of(&leaf.annotation).is_some()
}

// Whether values of the type stand in the leaf, by its physical type and its annotation.
fn holds(kind: &DataType, leaf: &LeafSchema) -> bool
    ensures { result ≡ spec.holds kind.now leaf.now }
{
    match *kind {
        DataType::Void => false,
        DataType::Boolean => leaf.physical == BOOLEAN,
        DataType::Byte | DataType::Short | DataType::Integer | DataType::Date => {
            leaf.physical == INT32
        }
        DataType::Long => leaf.physical == INT64,
        DataType::Timestamp => holds_moment(leaf),
        DataType::Str | DataType::Binary => leaf.physical == BYTE_ARRAY,
        DataType::Decimal { scale, .. } => holds_decimal(scale, leaf),
    }
}

/// Whether a column of the type is read of the leaf: it stands directly below the root, isn't
/// repeated, and its physical type and annotation are among those of the type (LogicalTypes.md).
///
/// A whole number or a date is read of INT32, a long of INT64, a moment of INT96 or of INT64 with
/// a unit of milliseconds or microseconds, a decimal of INT32, INT64, BYTE_ARRAY or
/// FIXED_LEN_BYTE_ARRAY with its scale. It takes no memory.
pub fn fits(kind: &DataType, leaf: &LeafSchema) -> bool
    ensures { result ≡ spec.fits kind.now leaf.now }
{
    leaf.top && !leaf.repeated && holds(kind, leaf)
}
