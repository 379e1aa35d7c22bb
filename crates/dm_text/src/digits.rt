// Digits and signs.
ghost use Rattle.std.specs.Prelude.{◌≡◌, ◌<◌, ◌≤◌, ◌-◌, ◌^◌, ◌++◌, length, OnOk};
ghost use Rattle.std.specs.Str.{all_ascii_digits};
ghost use Rattle.std.specs.Str.Parse.{starts_with_minus, without_leading_sign};
ghost use Rattle.dm_types.specs.Lanes.{kept_within};
ghost use Rattle.dm_text.specs.Calendar.{number_in};
ghost use Rattle.dm_text.specs.Numbers as spec;
ghost use Rattle.dm_text.specs.Fronts.{KeepsFront};
ghost use Rattle.dm_text.specs.Printing.{places};

use dm_types::{Bytes, MAX_PRECISION, ten_to};
use std::alloc::AllocError;
use std::str;

fn are_digits(text: &[u8]) -> bool
    ensures { result ≡ all_ascii_digits text.now }
{
    text.iter().all(|byte| byte.is_ascii_digit())
}

/// The number that digits write, where there is one and it is below 2^128.
pub(crate) fn read_digits(text: &[u8]) -> Option<u128>
    ensures { result ≡ spec.numeral_below (2 ^ 128) text.now }
{
    if !are_digits(text) {
        return None;
    }
    match str::from_utf8(text) {
        Ok(digits) => digits.parse::<u128>().ok(),
        Err(_) => None,
    }
}

/// The number that a few digits write.
pub(crate) fn read_few(text: &[u8]) -> Option<u128>
    requires { length text.now ≤ MAX_PRECISION }
    ensures { result ≡ spec.numeral text.now }
{
    read_digits(text)
}

/// The number that the digits from one place to another write.
pub(crate) fn read_between(text: &[u8], from: usize, to: usize) -> Option<u128>
    requires ordered { from ≤ to }
    requires within { to ≤ length text.now }
    requires few { to - from ≤ 4 }
    ensures { result ≡ number_in from to text.now }
{
    read_few(&text[from..to])
}

/// Whether a text begins with `-`, and what stands behind its sign.
pub(crate) fn split_sign(text: &[u8]) -> (bool, &[u8])
    ensures minus { result.0 ≡ starts_with_minus text.now }
    ensures rest { result.1.now ≡ without_leading_sign text.now }
{
    match text.first() {
        Some(b'-') => (true, &text[1..]),
        Some(b'+') => (false, &text[1..]),
        _ => (false, text),
    }
}

/// A number of a size and a sign.
pub(crate) fn with_sign(minus: bool, size: u128) -> i128
    requires { size < 2 ^ 127 }
    ensures { result ≡ spec.with_sign minus size }
{
    let number = size as i128;
    if minus { -number } else { number }
}

// The number of a size and a sign, where it has so many bits beside its sign.
fn keep_within(minus: bool, size: u128, bits: u32) -> Option<i64>
    requires { bits ≤ 63 }
    ensures { result ≡ kept_within bits (spec.with_sign minus size) }
{
    let limit = 2u128.pow(bits);
    if size < limit || minus && size == limit {
        Some(with_sign(minus, size) as i64)
    } else {
        None
    }
}

/// A whole number of so many bits beside its sign.
pub(crate) fn read_whole(text: &[u8], bits: u32) -> Option<i64>
    requires { bits ≤ 63 }
    ensures { result ≡ spec.whole bits text.now }
{
    let (minus, digits) = split_sign(text);
    let size = read_digits(digits)?;
    keep_within(minus, size, bits)
}

/// Adds the last digits of a number, so many.
pub(crate) fn push_places(out: &mut Bytes, number: u128, count: u8) -> Result<(), AllocError>
    requires { count ≤ MAX_PRECISION }
    ensures ok { OnOk result (out.new ≡ out.old ++ places count number) }
    ensures front { KeepsFront out.old out.new }
{
    for written in 0..count {
        let digit = number / ten_to(count - 1 - written) % 10;
        out.push(b'0' + digit as u8)?;
    }
    Ok(())
}
