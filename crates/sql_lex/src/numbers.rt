// Numbers: digits, or digits, a point and digits.
ghost use Rattle.std.specs.Prelude.{◌≡◌, ◌+◌, ◌-◌, ◌*◌, ◌^◌, ◌<◌, ◌≤◌, true, length, slice_index};
ghost use Rattle.std.specs.Char.{is_ascii_digit};
ghost use Rattle.sql_lex.specs.Bytes.{is_in as in_class};
ghost use Rattle.sql_lex.specs.Numbers as spec;

use crate::bytes::{Class, Piece, are_in, run};
use sql_tree::Kind;

/// Most digits of a number, leading zeros left out.
pub(crate) const MOST_DIGITS: usize = 38;

/// How many bytes a point and the digits behind it have at the front.
pub(crate) fn fraction_len(bytes: &[u8]) -> usize
    ensures value { result ≡ spec.fraction_len bytes.now }
    ensures within { result ≤ length bytes.now }
{
    match bytes {
        [b'.', rest @ ..] => {
            let digits = run(Class::Digit, rest);
            if digits > 0 { digits + 1 } else { 0 }
        }
        _ => 0,
    }
}

/// The length of the number at the front.
pub(crate) fn number_len(bytes: &[u8]) -> usize
    ensures value { result ≡ spec.number_len bytes.now }
    ensures within { result ≤ length bytes.now }
    ensures moves { 0 < length bytes.now → in_class Class.Digit (slice_index bytes.now 0) ≡ true → 0 < result }
{
    let digits = run(Class::Digit, bytes);
    digits + fraction_len(&bytes[digits..])
}

/// How many digits a number has behind its leading zeros.
pub(crate) fn significant(number: &[u8]) -> usize
    ensures value { result ≡ spec.significant number.now }
    ensures within { result ≤ length number.now }
{
    let zeros = run(Class::Lead, number);
    number[zeros..]
        .iter()
        .filter(|byte| byte.is_ascii_digit())
        .count()
}

// A number with one more digit. What is no digit is left out.
fn with_byte(number: u128, byte: u8) -> u128
    requires { is_ascii_digit byte ≡ true → number < 10 ^ 37 }
    ensures { result ≡ spec.with_byte number byte }
{
    if byte.is_ascii_digit() {
        10 * number + u128::from(byte - b'0')
    } else {
        number
    }
}

// The number that the digits go on to spell behind those of another.
fn spelled_from(mut number: u128, bytes: &[u8]) -> u128
    requires few { spec.digits bytes.now ≤ 38 }
    requires below { number < 10 ^ (38 - spec.digits bytes.now) }
    ensures value { result ≡ spec.spelled_from number bytes.now }
    ensures below { result < 10 ^ 38 }
{
    for byte in bytes {
        number = with_byte(number, *byte);
    }
    number
}

/// The number that the digits spell, the point left out.
pub(crate) fn unscaled(number: &[u8]) -> u128
    requires { spec.significant number.now ≤ 38 }
    ensures value { result ≡ spec.unscaled number.now }
    ensures below { result < 10 ^ 38 }
{
    spelled_from(0, &number[run(Class::Lead, number)..])
}

fn whole_kind(number: u128) -> Kind
    ensures { result ≡ spec.whole_kind number }
{
    if number < 1 << 63 {
        Kind::Whole
    } else {
        Kind::LargeWhole
    }
}

/// The kind of digits, or of digits, a point and digits.
pub(crate) fn number_kind(number: &[u8]) -> Kind
    ensures { result ≡ spec.number_kind number.now }
{
    if significant(number) > MOST_DIGITS {
        Kind::Bad
    } else if are_in(Class::Digit, number) {
        whole_kind(unscaled(number))
    } else {
        Kind::Decimal
    }
}

/// The number at the front.
pub(crate) fn number(bytes: &[u8]) -> Piece
    requires some { 0 < length bytes.now }
    requires digit { in_class Class.Digit (slice_index bytes.now 0) ≡ true }
    ensures value { result ≡ spec.number bytes.now }
    ensures within { (1 ≤ result.len) × (result.len ≤ length bytes.now) }
{
    let len = number_len(bytes);
    Piece {
        kind: number_kind(&bytes[..len]),
        len,
    }
}
