// Decimal numbers, both ways.
ghost use Rattle.std.specs.Prelude.{◌≡◌, ◌<◌, ◌≤◌, ◌+◌, ◌-◌, ◌++◌, ◌^◌, ◌==◌, position, IfSome, OnOk, option_map};
ghost use Rattle.std.specs.Fmt.{sign_text, decimal};
ghost use Rattle.dm_text.specs.Numbers as spec;
ghost use Rattle.dm_text.specs.Fronts.{KeepsFront};
ghost use Rattle.dm_text.specs.Printing.{decimal_text};
ghost use Rattle.dm_types.specs.declared.value.Decimal.{Decimal};

use crate::digits::{push_places, read_digits, read_few, split_sign, with_sign};
use dm_types::{Bytes, Decimal, MAX_PRECISION, ten_to};
use itoa::Buffer;
use std::alloc::AllocError;

/// A decimal number of a precision and a scale.
pub(crate) fn read_decimal(text: &[u8], precision: u8, scale: u8) -> Option<Decimal>
    requires precise { precision ≤ MAX_PRECISION }
    requires scaled { scale ≤ precision }
    ensures { result ≡ option_map (λ n. record { unscaled = n; scale = scale })
        (spec.decimal_number precision scale text.now) }
{
    let (minus, behind) = split_sign(text);
    let size = read_fixed(behind, precision - scale, scale)?;
    let unscaled = with_sign(minus, size);
    Some(Decimal { unscaled, scale })
}

// A number without a sign, in units of its last place.
#[tactic(auto, using(std::proofs::lemmas::Bool::Decides::nat_tests), unfolding(crate::specs::Numbers::fixed_point))]
fn read_fixed(text: &[u8], room: u8, scale: u8) -> Option<u128>
    requires { room + scale ≤ MAX_PRECISION }
    ensures value { result ≡ spec.fixed_point room scale text.now }
    ensures bound { IfSome result (λ n. n < 10 ^ MAX_PRECISION) }
{
    match point_of(text) {
        None => read_front(text, room, scale),
        Some(at) => {
            let front = read_front(&text[..at], room, scale)?;
            let behind = read_fraction(&text[at + 1..], scale)?;
            Some(front + behind)
        }
    }
}

// The place of the first point.
fn point_of(text: &[u8]) -> Option<usize>
    ensures { result ≡ position (λ c. c == 46) text.now }
{
    text.iter().position(|byte| *byte == b'.')
}

// The digits before the point.
fn read_front(text: &[u8], room: u8, scale: u8) -> Option<u128>
    requires { room + scale ≤ MAX_PRECISION }
    ensures value { result ≡ spec.front room scale text.now }
    ensures bound { IfSome result (λ n. n + 10 ^ scale ≤ 10 ^ (room + scale)) }
{
    let number = read_digits(text)?;
    if number < ten_to(room) {
        Some(number * ten_to(scale))
    } else {
        None
    }
}

/// The digits behind a point, in units of the last place.
pub(crate) fn read_fraction(text: &[u8], places: u8) -> Option<u128>
    requires { places ≤ MAX_PRECISION }
    ensures value { result ≡ spec.fraction places text.now }
    ensures bound { IfSome result (λ n. n < 10 ^ places) }
{
    if text.len() > usize::from(places) {
        return None;
    }
    let number = read_few(text)?;
    Some(number * ten_to(places - text.len() as u8))
}

/// Adds the text of a decimal number.
#[tactic(auto, using(std::proofs::lemmas::Bool::Decides::nat_tests), unfolding(crate::specs::Printing::decimal_text))]
pub(crate) fn push_decimal(out: &mut Bytes, decimal: &Decimal) -> Result<(), AllocError>
    requires { decimal.now.scale ≤ MAX_PRECISION }
    ensures ok { OnOk result (out.new ≡ out.old ++ decimal_text decimal.now.unscaled decimal.now.scale) }
    ensures front { KeepsFront out.old out.new }
{
    let size = decimal.unscaled.unsigned_abs();
    let scale = decimal.scale;
    if decimal.unscaled < 0 {
        out.push(b'-')?;
    }
    let mut buffer = Buffer::new();
    out.extend_from_slice(buffer.format(size / ten_to(scale)).as_bytes())?;
    if scale > 0 {
        out.push(b'.')?;
        push_places(out, size, scale)?;
    }
    Ok(())
}
