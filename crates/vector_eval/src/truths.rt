// Comparisons, and truth values of which null is the third.
ghost use Rattle.std.specs.Prelude.{◌≡◌};
ghost use Rattle.std.specs.Ordering as order;
ghost use Rattle.vector_eval.specs.Truths as spec;

use crate::numbers::decimal;
use dm_types::{Value, compare, compare_decimals};
use sql_tree::Truth;
use std::cmp::Ordering;

/// Whether a value is null.
pub fn is_null(value: &Value) -> bool
    ensures { result ≡ spec.is_null value.now }
{
    matches!(value, Value::Null)
}

/// Whether a value is true.
pub fn is_true(value: &Value) -> bool
    ensures { result ≡ spec.is_true value.now }
{
    matches!(value, Value::Bool(true))
}

/// Whether a value is false.
pub fn is_false(value: &Value) -> bool
    ensures { result ≡ spec.is_false value.now }
{
    matches!(value, Value::Bool(false))
}

/// IS NULL, IS TRUE, IS FALSE.
pub fn is(truth: Truth, value: &Value) -> bool
    ensures { result ≡ spec.is truth value.now }
{
    match truth {
        Truth::Null => is_null(value),
        Truth::True => is_true(value),
        Truth::False => is_false(value),
    }
}

// The order of two values: numbers by their value, others as values of one kind.
fn ordering(a: &Value, b: &Value) -> Option<Ordering>
    ensures { result ≡ spec.ordering a.now b.now }
{
    match (a, b) {
        (Value::Int(a), Value::Dec(b)) => { Some(compare_decimals(&decimal(i128::from(*a), 0), b)) }
        (Value::Dec(a), Value::Int(b)) => { Some(compare_decimals(a, &decimal(i128::from(*b), 0))) }
        _ => compare(a, b),
    }
}

/// `a = b`.
pub fn equal(a: &Value, b: &Value) -> Value
    ensures { result ≡ spec.compared order.is_eq a.now b.now }
{
    match ordering(a, b) {
        Some(order) => Value::Bool(order.is_eq()),
        None => Value::Null,
    }
}

/// `a <> b`.
pub fn unequal(a: &Value, b: &Value) -> Value
    ensures { result ≡ spec.compared order.is_ne a.now b.now }
{
    match ordering(a, b) {
        Some(order) => Value::Bool(order.is_ne()),
        None => Value::Null,
    }
}

/// `a < b`.
pub fn less(a: &Value, b: &Value) -> Value
    ensures { result ≡ spec.compared order.is_lt a.now b.now }
{
    match ordering(a, b) {
        Some(order) => Value::Bool(order.is_lt()),
        None => Value::Null,
    }
}

/// `a <= b`.
pub fn at_most(a: &Value, b: &Value) -> Value
    ensures { result ≡ spec.compared order.is_le a.now b.now }
{
    match ordering(a, b) {
        Some(order) => Value::Bool(order.is_le()),
        None => Value::Null,
    }
}

/// `a > b`.
pub fn greater(a: &Value, b: &Value) -> Value
    ensures { result ≡ spec.compared order.is_gt a.now b.now }
{
    match ordering(a, b) {
        Some(order) => Value::Bool(order.is_gt()),
        None => Value::Null,
    }
}

/// `a >= b`.
pub fn at_least(a: &Value, b: &Value) -> Value
    ensures { result ≡ spec.compared order.is_ge a.now b.now }
{
    match ordering(a, b) {
        Some(order) => Value::Bool(order.is_ge()),
        None => Value::Null,
    }
}

/// `a <=> b`: both null, or neither and equal.
pub fn is_same(a: &Value, b: &Value) -> bool
    ensures { result ≡ spec.is_same a.now b.now }
{
    match (a, b) {
        (Value::Null, Value::Null) => true,
        _ => ordering(a, b) == Some(Ordering::Equal),
    }
}

/// NOT.
pub fn denied(value: &Value) -> Value
    ensures { result ≡ spec.denied value.now }
{
    match value {
        Value::Bool(truth) => Value::Bool(!*truth),
        _ => Value::Null,
    }
}

/// What AND gives of two values.
pub fn both(a: &Value, b: &Value) -> Value
    ensures { result ≡ spec.both a.now b.now }
{
    match (a, b) {
        (Value::Bool(false), _) | (_, Value::Bool(false)) => Value::Bool(false),
        (Value::Bool(true), Value::Bool(true)) => Value::Bool(true),
        _ => Value::Null,
    }
}

/// What OR gives of two values.
pub fn either(a: &Value, b: &Value) -> Value
    ensures { result ≡ spec.either a.now b.now }
{
    match (a, b) {
        (Value::Bool(true), _) | (_, Value::Bool(true)) => Value::Bool(true),
        (Value::Bool(false), Value::Bool(false)) => Value::Bool(false),
        _ => Value::Null,
    }
}
