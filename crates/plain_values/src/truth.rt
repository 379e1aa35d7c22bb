// Truth values, a bit each.
ghost use Rattle.std.specs.Prelude.{◌≡◌, ◌*◌, ◌++◌, ◌^◌, ◌<◌, ◌≤◌, ⊤, length, OnOk, OnErr};
ghost use Rattle.plain_values.specs.Answers.{BeginsWith, ReadsPlain};
ghost use Rattle.plain_values.specs.Flags.{AreFlags, flag_at, flags_at, flag_number, flags_spelling};
ghost use Rattle.plain_values.specs.Meaning.{whole};
ghost use Rattle.plain_values.specs.FlagsRead.{flags_judge, flags_again};

use crate::fault::PlainFault;
use crate::plain::Plain;
use dm_types::{Bytes, Flags, Items};
use std::alloc::{AllocError, Global};

/// BOOLEAN: one bit a value, the least first; the last byte is filled up with zeros, and its filling
/// isn't looked at.
pub struct PlainBoolean;

/// The truth value at a place.
fn flag(bytes: &[u8], place: usize) -> bool
    requires { place < 8 * length bytes.now }
    ensures { result ≡ flag_at bytes.now place }
{
    (bytes[place / 8] >> (place % 8)) % 2 == 1
}

/// The byte with at most eight truth values, the least first.
fn byte_of(flags: &[bool]) -> u8
    requires { length flags.now ≤ 8 }
    ensures value { result ≡ flag_number flags.now }
    ensures small { result < 2 ^ length flags.now }
{
    match flags {
        [] => 0,
        [first, rest @ ..] => u8::from(*first) + 2 * byte_of(rest),
    }
}

impl Plain for PlainBoolean {
    type Values = Flags;

    ghost count_of = { λ flags. length flags };

    ghost has_length = { λ size flags. ⊤ };

    ghost means = { λ size flags bytes. AreFlags flags bytes };

    ghost plain_of = { λ size count bytes. whole (flags_at count bytes) };

    ghost can_write = { λ flags. ⊤ };

    ghost spelling = { λ flags. flags_spelling flags };

    ghost judges = { λ size count bytes are. flags_judge count bytes };

    ghost again = { λ size flags bytes rest means. flags_again flags bytes rest means };

    fn read(
        alloc: Global,
        bytes: &[u8],
        _length: usize,
        count: usize,
    ) -> Result<Flags, PlainFault> {
        let size = count.div_ceil(8);
        if bytes.len() < size {
            return Err(PlainFault::Short);
        }
        if bytes.len() > size {
            return Err(PlainFault::Extra);
        }
        let mut flags = Items::new(alloc);
        for place in 0..count {
            flags.push(flag(bytes, place))?;
        }
        Ok(flags)
    }

    fn write(values: &Flags, out: &mut Bytes) -> Result<(), AllocError> {
        let flags = values.as_slice();
        for at in 0..flags.len().div_ceil(8) {
            let end = flags.len().min(8 * at + 8);
            out.push(byte_of(&flags[8 * at..end]))?;
        }
        Ok(())
    }
}
