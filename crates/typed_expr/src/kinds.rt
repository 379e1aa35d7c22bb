// What types are, and which go together.
ghost use Rattle.std.specs.Prelude.{◌≡◌, ◌≤◌, ◌↔◌, IsTrue};
ghost use Rattle.dm_types.specs.Ranges.{IsWellFormed};
ghost use Rattle.typed_expr.specs.Tables as spec;

use dm_types::{DataType, MAX_PRECISION};

pub(crate) fn is_void(kind: DataType) -> bool
    ensures { result ≡ spec.is_void kind }
{
    matches!(kind, DataType::Void)
}

pub(crate) fn is_boolean(kind: DataType) -> bool
    ensures { result ≡ spec.is_boolean kind }
{
    matches!(kind, DataType::Boolean)
}

pub(crate) fn is_string(kind: DataType) -> bool
    ensures { result ≡ spec.is_string kind }
{
    matches!(kind, DataType::Str)
}

pub(crate) fn is_binary(kind: DataType) -> bool
    ensures { result ≡ spec.is_binary kind }
{
    matches!(kind, DataType::Binary)
}

pub(crate) fn is_dated(kind: DataType) -> bool
    ensures { result ≡ spec.is_dated kind }
{
    matches!(kind, DataType::Date | DataType::Timestamp)
}

pub(crate) fn is_integer(kind: DataType) -> bool
    ensures { result ≡ spec.is_integer kind }
{
    matches!(
        kind,
        DataType::Byte | DataType::Short | DataType::Integer | DataType::Long
    )
}

pub(crate) fn is_decimal(kind: DataType) -> bool
    ensures { result ≡ spec.is_decimal kind }
{
    matches!(kind, DataType::Decimal { .. })
}

pub(crate) fn is_number(kind: DataType) -> bool
    ensures { result ≡ spec.is_number kind }
{
    is_integer(kind) || is_decimal(kind)
}

// Whether two types are one.
pub(crate) fn is_same(a: DataType, b: DataType) -> bool
    ensures { result ≡ spec.is_same a b }
{
    match (a, b) {
        (DataType::Void, DataType::Void)
        | (DataType::Boolean, DataType::Boolean)
        | (DataType::Byte, DataType::Byte)
        | (DataType::Short, DataType::Short)
        | (DataType::Integer, DataType::Integer)
        | (DataType::Long, DataType::Long)
        | (DataType::Str, DataType::Str)
        | (DataType::Binary, DataType::Binary)
        | (DataType::Date, DataType::Date)
        | (DataType::Timestamp, DataType::Timestamp) => true,
        (
            DataType::Decimal { precision, scale },
            DataType::Decimal {
                precision: other_precision,
                scale: other_scale,
            },
        ) => precision == other_precision && scale == other_scale,
        _ => false,
    }
}

/// Whether there is such a type: a decimal has 1 to 38 digits, and no more of them behind the point.
pub fn is_type(kind: DataType) -> bool
    ensures value { result ≡ spec.is_type kind }
    ensures well_formed { IsTrue result ↔ IsWellFormed kind }
{
    match kind {
        DataType::Decimal { precision, scale } => {
            1 <= precision && precision <= MAX_PRECISION && scale <= precision
        }
        _ => true,
    }
}

// The digits of a number of the type.
fn digits(kind: DataType) -> u16
    ensures value { result ≡ spec.digits kind }
    ensures small { result ≤ 255 }
{
    match kind {
        DataType::Byte => 3,
        DataType::Short => 5,
        DataType::Integer => 10,
        DataType::Long => 19,
        DataType::Decimal { precision, .. } => u16::from(precision),
        _ => 0,
    }
}

// Those behind the point.
fn places(kind: DataType) -> u16
    ensures value { result ≡ spec.places kind }
    ensures small { result ≤ 255 }
{
    match kind {
        DataType::Decimal { scale, .. } => u16::from(scale),
        _ => 0,
    }
}

// Those before it.
fn whole_digits(kind: DataType) -> u16
    ensures value { result ≡ spec.whole_digits kind }
    ensures small { result ≤ 255 }
{
    digits(kind).saturating_sub(places(kind))
}

// A decimal type, where there is one.
pub(crate) fn decimal(precision: u16, scale: u16) -> Option<DataType>
    ensures { result ≡ spec.decimal precision scale }
{
    if 1 <= precision && precision <= u16::from(MAX_PRECISION) && scale <= precision {
        Some(DataType::Decimal {
            precision: precision as u8,
            scale: scale as u8,
        })
    } else {
        None
    }
}

// Of two integer types the one of more digits.
pub(crate) fn wider(a: DataType, b: DataType) -> DataType
    ensures { result ≡ spec.wider a b }
{
    if digits(a) < digits(b) { b } else { a }
}

// The type of a sum or a difference.
pub(crate) fn sum_type(a: DataType, b: DataType) -> Option<DataType>
    ensures { result ≡ spec.sum_type a b }
{
    let scale = places(a).max(places(b));
    decimal(whole_digits(a).max(whole_digits(b)) + scale + 1, scale)
}

// The type of a product.
pub(crate) fn product_type(a: DataType, b: DataType) -> Option<DataType>
    ensures { result ≡ spec.product_type a b }
{
    decimal(digits(a) + digits(b), places(a) + places(b))
}

// The type that holds the numbers of both.
fn joint_type(a: DataType, b: DataType) -> Option<DataType>
    ensures { result ≡ spec.joint_type a b }
{
    let scale = places(a).max(places(b));
    decimal(whole_digits(a).max(whole_digits(b)) + scale, scale)
}

// The common type of two, where there is one.
pub(crate) fn common(a: DataType, b: DataType) -> Option<DataType>
    ensures { result ≡ spec.common a b }
{
    if is_same(a, b) {
        Some(a)
    } else if is_void(a) {
        Some(b)
    } else if is_void(b) {
        Some(a)
    } else if is_integer(a) && is_integer(b) {
        Some(wider(a, b))
    } else if is_number(a) && is_number(b) {
        joint_type(a, b)
    } else {
        None
    }
}

pub(crate) fn are_comparable(a: DataType, b: DataType) -> bool
    ensures { result ≡ spec.are_comparable a b }
{
    is_number(a) && is_number(b) || is_same(a, b)
}

// Whether the two compare, NULL with each.
pub(crate) fn meets(a: DataType, b: DataType) -> bool
    ensures { result ≡ spec.meets a b }
{
    is_void(a) || is_void(b) || are_comparable(a, b)
}
