// The next values of an identity column.
ghost use Rattle.std.specs.Prelude.{◌≡◌, ◌≢◌, ◌↔◌, ◌<◌, ◌+◌, ◌/◌, ◌^◌, pos, ◌≤ℤ◌, ◌+ℤ◌, ◌*ℤ◌, SomeIff, All, Err, IfOk, IsTrue};
ghost use Rattle.identity_columns.specs.Values.{IsLong, first_place as first_place_of, is_beyond as is_beyond_of, next_values as next_values_of};

use delta_schema::IdentityRule;
use dm_types::WholeList;
use std::alloc::{AllocError, Global};
use thiserror::Error;

/// Why rows get no values of an identity column.
#[derive(Debug, Drop, Error)]
pub enum IdentityFault {
    /// A value that is to be given is beyond the range of `long`.
    #[error("a value of the identity column is out of range")]
    Overflow,
    /// There was no memory.
    #[error("no memory for values of the identity column")]
    Memory,
}

impl From<AllocError> for IdentityFault {
    ghost use Rattle.std.specs.Prelude.{◌≡◌};
    ghost use Rattle.identity_columns.specs.declared.values.IdentityFault.TheVariants.{Memory};

    ghost from_gives = { λ _ e. e ≡ Memory };

    fn from(_: AllocError) -> IdentityFault {
        IdentityFault::Memory
    }
}

/// The values that the next rows get, so many (PROTOCOL.md, "Identity Columns").
///
/// The values of an identity column are its start, start + step, start + 2 * step, and so on. The
/// first row gets the first of them that lies beyond the mark in the step's direction, or the start
/// where there is no mark; each further row gets the one that follows. The mark need not be one of
/// the values, and may lie before the start.
///
/// Overflow is the answer exactly where one of these values is out of the range of `long`; where no
/// row is to get a value, none is. It takes the memory of the values, and steps by their number.
pub fn next_values(
    alloc: Global,
    rule: &IdentityRule,
    count: usize,
) -> Result<WholeList, IdentityFault>
    requires step { rule.now.step ≢ pos 0 }
    ensures values { IfOk result (λ values. values ≡ next_values_of rule.now count) }
    ensures overflow { (result ≡ Err IdentityFault.Overflow) ↔ ¬ All IsLong (next_values_of rule.now count) }
{
    let first = first_place(rule);
    if !are_long(rule, first, count) {
        return Err(IdentityFault::Overflow);
    }
    Ok(values(alloc, rule, first, count)?)
}

// Whether a number lies beyond another in the step's direction.
fn is_beyond(step: i64, other: i64, number: i64) -> bool
    ensures { result ≡ is_beyond_of step other number }
{
    if 0 < step {
        other < number
    } else {
        number < other
    }
}

// The place of the value that the next row gets.
fn first_place(rule: &IdentityRule) -> i128
    requires step { rule.now.step ≢ pos 0 }
    ensures place { result ≡ pos (first_place_of rule.now) }
    ensures bound { result ≤ℤ pos (2 ^ 64) }
{
    match rule.mark {
        Some(mark) if !is_beyond(rule.step, mark, rule.start) => {
            places_up_to(mark.abs_diff(rule.start), rule.step.unsigned_abs())
        }
        _ => 0,
    }
}

// How many values lie within a distance of the start, itself among them.
fn places_up_to(distance: u64, step: u64) -> i128
    requires step { 0 < step }
    ensures count { result ≡ pos (distance / step + 1) }
    ensures bound { result ≤ℤ pos (2 ^ 64) }
{
    i128::from(distance / step) + 1
}

// The value at a place, where it is in range.
fn value_at(rule: &IdentityRule, place: i128) -> Option<i64>
    ensures { let value = rule.now.start +ℤ place *ℤ rule.now.step in SomeIff result (IsLong value) value }
{
    let IdentityRule { start, step, .. } = *rule;
    let way = place.checked_mul(i128::from(step))?;
    value_after(start, way)
}

// The value so far from the start, where it is in range.
fn value_after(start: i64, way: i128) -> Option<i64>
    ensures { SomeIff result (IsLong (start +ℤ way)) (start +ℤ way) }
{
    let value = i128::from(start).checked_add(way)?;
    i64::try_from(value).ok()
}

// The place so many behind the first.
fn place_after(first: i128, index: usize) -> i128
    requires low { pos 0 ≤ℤ first }
    requires high { first ≤ℤ pos (2 ^ 64) }
    ensures { result ≡ first +ℤ pos index }
{
    first + index as i128
}

// Whether the values from the first place on, so many, are in range: the outer ones decide.
fn are_long(rule: &IdentityRule, first: i128, count: usize) -> bool
    requires step { rule.now.step ≢ pos 0 }
    requires first { first ≡ pos (first_place_of rule.now) }
    requires bound { first ≤ℤ pos (2 ^ 64) }
    ensures { IsTrue result ↔ All IsLong (next_values_of rule.now count) }
{
    if count == 0 {
        return true;
    }
    let last = place_after(first, count - 1);
    value_at(rule, first).is_some() && value_at(rule, last).is_some()
}

// The values from the first place on, so many, where they are in range.
fn values(
    alloc: Global,
    rule: &IdentityRule,
    first: i128,
    count: usize,
) -> Result<WholeList, AllocError>
    requires step { rule.now.step ≢ pos 0 }
    requires first { first ≡ pos (first_place_of rule.now) }
    requires bound { first ≤ℤ pos (2 ^ 64) }
    requires range { All IsLong (next_values_of rule.now count) }
    ensures { IfOk result (λ values. values ≡ next_values_of rule.now count) }
{
    let mut values = WholeList::new(alloc);
    for index in 0..count {
        let Some(value) = value_at(rule, place_after(first, index)) else {
            unreachable!();
        };
        values.push(value)?;
    }
    Ok(values)
}
