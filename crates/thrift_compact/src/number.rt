// Varints and zigzag.
ghost use Rattle.std.specs.Prelude.{◌≡◌, ℕ, ◌^◌, ◌<◌, ◌≤◌, List, ◌++◌, length, drop, IfOk, IfSome};
ghost use Rattle.thrift_compact.specs.Grammar.{IsVarint};
ghost use Rattle.thrift_compact.specs.Reading.{varint, whole, unzigzag, first_varint};
ghost use Rattle.thrift_compact.specs.Places.{IsFrontVarint};
ghost use Rattle.thrift_compact.specs.Steps.{StepsOnlyTo};

use crate::cursor::Cursor;
use crate::fault::Fault;

/// How many bytes a varint has at most.
pub const MAX_BYTES: u32 = 10;

/// A varint below 2 to the width. A bit at or past the width is refused at its byte.
pub(crate) fn varint(cursor: &mut Cursor<'_>, width: u32) -> Result<u64, Fault>
    requires { width ≤ 64 }
    ensures number { StepsOnlyTo (varint width cursor.old) result cursor.new }
    ensures below { IfOk result (λ n. n < 2 ^ width) }
{
    let mut number: u64 = 0;
    let mut left = width;
    for index in 0..MAX_BYTES {
        let byte = cursor.varint_byte(left, index + 1 < MAX_BYTES)?;
        number += byte.low << (7 * index);
        if !byte.more {
            return Ok(number);
        }
        left = left.saturating_sub(7);
    }
    Err(Fault::Refused)
}

/// The number of a zigzag code.
fn unzigzag(code: u64) -> i64
    ensures { result ≡ unzigzag code }
{
    let half = (code / 2) as i64;
    if code % 2 == 0 { half } else { -1 - half }
}

/// A zigzag varint of so many bits.
pub(crate) fn whole(cursor: &mut Cursor<'_>, width: u32) -> Result<i64, Fault>
    requires { width ≤ 64 }
    ensures number { StepsOnlyTo (whole width cursor.old) result cursor.new }
{
    Ok(unzigzag(varint(cursor, width)?))
}

/// An id that stands behind a field's first byte.
pub(crate) fn id(cursor: &mut Cursor<'_>) -> Result<i16, Fault>
    ensures { StepsOnlyTo (whole 16 cursor.old) result cursor.new }
{
    let code = varint(cursor, 16)?;
    Ok(unzigzag(code) as i16)
}

/// The varint at the front, and how many bytes it takes.
fn front_varint(bytes: &[u8]) -> Option<(u64, usize)>
    ensures { result ≡ first_varint bytes.now }
{
    let mut cursor = Cursor::new(bytes);
    match varint(&mut cursor, 64) {
        Ok(number) => Some((number, bytes.len() - cursor.len())),
        Err(_) => None,
    }
}

/// The varint that begins at `at`, and how many bytes it takes. None, where no varint begins there.
///
/// A varint has 1 to 10 bytes and is below 2^64 (Thrift compact protocol, "Base types"). It may be
/// longer than the number needs.
pub fn read_varint(bytes: &[u8], at: usize) -> Option<(u64, usize)>
    // The varint and its length, as a function of the bytes.
    ensures read { result ≡ first_varint (drop at bytes.now) }
    // What is read is spelled so.
    ensures found { IfSome result (λ found. IsFrontVarint (drop at bytes.now) found.0 found.1) }
    // What is spelled so is read, whatever follows it.
    ensures only { (front : List ℕ) (number : ℕ) (more : List ℕ) → IsVarint 64 front number
        → drop at bytes.now ≡ front ++ more → result ≡ Some (number, length front) }
{
    front_varint(&bytes[at.min(bytes.len())..])
}
