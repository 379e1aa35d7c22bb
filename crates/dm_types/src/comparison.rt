// Order and equality of values.
ghost use Rattle.std.specs.Prelude.{◌≡◌, ◌*ℤ◌, ◌^◌, pos, FitsSigned};
ghost use Rattle.std.specs.Int.{w128};
ghost use Rattle.std.specs.Option.{SomeIff};
ghost use Rattle.std.specs.Ordering.{int_cmp};
ghost use Rattle.dm_types.specs.Value.{decimal_cmp, comparison, is_same};

use crate::value::{Decimal, Value};
use std::cmp::Ordering;

/// Compares two values: numbers by their value, decimals at any scales, texts and bytes by their
/// bytes, days and moments in time, and false before true. None where one is null, or where the two
/// are of different kinds. It takes no memory.
pub fn compare(a: &Value, b: &Value) -> Option<Ordering>
    ensures { result ≡ comparison a.now b.now }
{
    match (a, b) {
        (Value::Bool(a), Value::Bool(b)) => Some(a.cmp(b)),
        (Value::Int(a), Value::Int(b)) => Some(a.cmp(b)),
        (Value::Dec(a), Value::Dec(b)) => Some(compare_decimals(a, b)),
        (Value::Text(a), Value::Text(b)) => Some(a.cmp(b)),
        (Value::Bytes(a), Value::Bytes(b)) => Some(a.as_slice().cmp(b.as_slice())),
        (Value::Day(a), Value::Day(b)) => Some(a.cmp(b)),
        (Value::Micros(a), Value::Micros(b)) => Some(a.cmp(b)),
        _ => None,
    }
}

/// Whether two values are the same: both null, or equal by `compare`. It takes no memory.
pub fn same(a: &Value, b: &Value) -> bool
    ensures { result ≡ is_same a.now b.now }
{
    match (a, b) {
        (Value::Null, Value::Null) => true,
        _ => compare(a, b) == Some(Ordering::Equal),
    }
}

/// Compares two decimals by their value, at any scales. It takes no memory.
pub fn compare_decimals(a: &Decimal, b: &Decimal) -> Ordering
    ensures { result ≡ decimal_cmp a.now b.now }
{
    if a.scale <= b.scale {
        compare_scaled(a.unscaled, b.scale - a.scale, b.unscaled)
    } else {
        compare_scaled(b.unscaled, a.scale - b.scale, a.unscaled).reverse()
    }
}

// Compares `number` times ten to the power of `places` with `other`.
fn compare_scaled(number: i128, places: u8, other: i128) -> Ordering
    ensures { result ≡ int_cmp (number *ℤ pos (10 ^ places)) other }
{
    match scaled(number, places) {
        Some(product) => product.cmp(&other),
        // The product is past every `i128`, on the side of `number`.
        None => number.cmp(&0),
    }
}

/// `number` times ten to the power of `places`, where that is an `i128`. It takes no memory.
pub fn scaled(number: i128, places: u8) -> Option<i128>
    ensures { SomeIff result (FitsSigned w128 (number *ℤ pos (10 ^ places))) (number *ℤ pos (10 ^ places)) }
{
    let mut product = number;
    for _ in 0..places {
        product = product.checked_mul(10)?;
    }
    Some(product)
}
