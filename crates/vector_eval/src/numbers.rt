// Arithmetic: exact numbers, and the ranges of types.
ghost use Rattle.std.specs.Prelude.{◌≡◌, ◌≤◌, ◌<◌, ◌+◌, ◌/◌, ◌^◌, pos, FitsSigned};
ghost use Rattle.std.specs.Int.{w128};
ghost use Rattle.std.specs.Option.{SomeIff};
ghost use Rattle.dm_types.specs.Lanes as lanes;
ghost use Rattle.typed_expr.specs.Tables as tables;
ghost use Rattle.vector_eval.specs.Numbers as spec;
ghost use Rattle.vector_eval.specs.Steps as steps;

use crate::fault::ErrorKind;
use dm_types::{DataType, Decimal, MAX_PRECISION, Value, scaled, ten_to};

/// The number that a value is.
pub fn number(value: &Value) -> Option<Decimal>
    ensures { result ≡ spec.number value.now }
{
    match value {
        Value::Int(number) => Some(decimal(i128::from(*number), 0)),
        Value::Dec(number) => Some(*number),
        _ => None,
    }
}

/// A number of so many places behind the point.
pub fn decimal(unscaled: i128, scale: u8) -> Decimal
    ensures { result ≡ spec.decimal unscaled scale }
{
    Decimal { unscaled, scale }
}

// ---- scales

// The quotient of two sizes, half rounded up.
fn halves_up(size: u128, divisor: u128) -> i128
    requires size { size ≤ 2 ^ 127 }
    requires least { 10 ≤ divisor }
    requires most { divisor ≤ 10 ^ MAX_PRECISION }
    ensures { result ≡ pos ((size + divisor / 2) / divisor) }
{
    ((size + divisor / 2) / divisor) as i128
}

// `number` divided by ten to the power of `places`, half rounded away from zero.
fn rounded(number: i128, places: u8) -> i128
    requires { 0 < places }
    ensures { result ≡ spec.rounded places number }
{
    if places > MAX_PRECISION {
        // Half of the divisor is past every `i128`.
        return 0;
    }
    let size = halves_up(number.unsigned_abs(), ten_to(places));
    if number < 0 { -size } else { size }
}

/// A number in units of so many places behind the point, half rounded away from zero, where that is
/// an `i128`.
pub fn at_scale(number: &Decimal, scale: u8) -> Option<i128>
    ensures { SomeIff result (FitsSigned w128 (spec.at_scale scale number.now)) (spec.at_scale scale number.now) }
{
    if number.scale <= scale {
        scaled(number.unscaled, scale - number.scale)
    } else {
        Some(rounded(number.unscaled, number.scale - scale))
    }
}

// ---- ranges

// Whether a number has so many bits beside its sign.
fn is_within(number: i128, bits: u32) -> bool
    requires { bits ≤ 63 }
    ensures { result ≡ lanes.is_within bits number }
{
    let limit = 2i128.pow(bits);
    -limit <= number && number < limit
}

fn whole(number: i128, bits: u32) -> Result<Value, ErrorKind>
    requires { bits ≤ 63 }
    ensures { result ≡ spec.whole bits number }
{
    if is_within(number, bits) {
        Ok(Value::Int(number as i64))
    } else {
        Err(ErrorKind::Overflow)
    }
}

// A number of at most so many digits, and never of more than a decimal has.
fn digits_kept(number: i128, precision: u8) -> Result<i128, ErrorKind>
    ensures { result ≡ spec.digits_kept precision number }
{
    if number.unsigned_abs() < ten_to(MAX_PRECISION.min(precision)) {
        Ok(number)
    } else {
        Err(ErrorKind::Overflow)
    }
}

/// A decimal of a type, by its unscaled number.
pub fn fixed(number: i128, precision: u8, scale: u8) -> Result<Value, ErrorKind>
    ensures { result ≡ spec.fixed precision scale number }
{
    let unscaled = digits_kept(number, precision)?;
    Ok(Value::Dec(Decimal { unscaled, scale }))
}

/// A number as a value of a type, in units of the type's last place.
pub fn in_type(number: i128, kind: &DataType) -> Result<Value, ErrorKind>
    ensures { result ≡ spec.in_type kind.now number }
{
    match kind {
        DataType::Byte => whole(number, 7),
        DataType::Short => whole(number, 15),
        DataType::Integer => whole(number, 31),
        DataType::Long => whole(number, 63),
        DataType::Decimal { precision, scale } => fixed(number, *precision, *scale),
        _ => Ok(Value::Null),
    }
}

// What comes of a number that is past every `i128`.
fn past(kind: &DataType) -> Result<Value, ErrorKind>
    ensures { result ≡ steps.past kind.now }
{
    match kind {
        DataType::Byte
        | DataType::Short
        | DataType::Integer
        | DataType::Long
        | DataType::Decimal { .. } => Err(ErrorKind::Overflow),
        _ => Ok(Value::Null),
    }
}

/// A number that is an `i128` or past it, as a value of a type.
pub fn counted(number: Option<i128>, kind: &DataType) -> Result<Value, ErrorKind>
    ensures { result ≡ steps.counted kind.now number }
{
    match number {
        Some(number) => in_type(number, kind),
        None => past(kind),
    }
}

// ---- operators

// The digits behind the point of a type's numbers.
fn places(kind: &DataType) -> u8
    ensures { result ≡ tables.places kind.now }
{
    match kind {
        DataType::Decimal { scale, .. } => *scale,
        _ => 0,
    }
}

// An operand of a sum, in units of the last place of the sum.
fn summand(kind: &DataType, number: &Decimal) -> Result<i128, ErrorKind>
    ensures { result ≡ spec.summand kind.now number.now }
{
    match at_scale(number, places(kind)) {
        Some(units) => digits_kept(units, MAX_PRECISION),
        None => Err(ErrorKind::Overflow),
    }
}

/// The sum of two numbers.
pub fn sum(kind: &DataType, a: &Decimal, b: &Decimal) -> Result<Value, ErrorKind>
    ensures { result ≡ spec.sum kind.now a.now b.now }
{
    let a = summand(kind, a)?;
    let b = summand(kind, b)?;
    counted(a.checked_add(b), kind)
}

/// The difference of two numbers.
pub fn difference(kind: &DataType, a: &Decimal, b: &Decimal) -> Result<Value, ErrorKind>
    ensures { result ≡ spec.difference kind.now a.now b.now }
{
    let a = summand(kind, a)?;
    let b = summand(kind, b)?;
    counted(a.checked_sub(b), kind)
}

/// The product of two numbers.
pub fn product(kind: &DataType, a: &Decimal, b: &Decimal) -> Result<Value, ErrorKind>
    ensures { result ≡ spec.product kind.now a.now b.now }
{
    counted(a.unscaled.checked_mul(b.unscaled), kind)
}

/// The quotient of two whole numbers, cut towards zero.
pub fn quotient(kind: &DataType, a: &Decimal, b: &Decimal) -> Result<Value, ErrorKind>
    ensures { result ≡ spec.quotient kind.now a.now b.now }
{
    if b.unscaled == 0 {
        return Err(ErrorKind::DivideByZero);
    }
    counted(a.unscaled.checked_div(b.unscaled), kind)
}

/// What is left of that division, with the sign of the dividend.
pub fn remainder(kind: &DataType, a: &Decimal, b: &Decimal) -> Result<Value, ErrorKind>
    ensures { result ≡ spec.remainder kind.now a.now b.now }
{
    if b.unscaled == 0 {
        return Err(ErrorKind::DivideByZero);
    }
    in_type(a.unscaled.wrapping_rem(b.unscaled), kind)
}

/// A number with the other sign; null of another value.
pub fn negated(kind: &DataType, value: &Value) -> Result<Value, ErrorKind>
    ensures { result ≡ spec.negated kind.now value.now }
{
    match number(value) {
        Some(number) => counted(number.unscaled.checked_neg(), kind),
        None => Ok(Value::Null),
    }
}
