// Physical types whose values stand one after the other.
ghost use Rattle.std.specs.Prelude.{◌≡◌, ◌++◌, ℕ, List, length, OnOk, OnErr, All};
ghost use Rattle.std.specs.List.{flat_map};
ghost use Rattle.plain_values.specs.Answers.{BeginsWith, ReadsPlain};
ghost use Rattle.plain_values.specs.Steps.{GivesFront};
ghost use Rattle.plain_values.specs.ValuesRead.{in_turn_judges, in_turn_again};
ghost use Rattle.plain_values.specs.Meaning.{Front, StandInTurn, values_at, whole};
ghost use Rattle.plain_values.specs.Steps.{IsReaderOf};

use crate::fault::PlainFault;
use crate::plain::Plain;
use dm_types::{Bytes, Items};
use std::alloc::{AllocError, Global};

/// A physical type whose values stand one after the other, each in its own bytes.
pub trait InTurn {
    /// A value.
    type Value: Drop;

    // The value is of the type; a fixed array is of this length.
    ghost is: { ℕ → Self.Value → Type 0 };

    // A fixed array is of this length.
    ghost has_length: { ℕ → Self.Value → Type 0 };

    // The bytes of a value.
    ghost spelled: { Self.Value → List ℕ };

    // The value at the front of bytes, by the length of fixed arrays.
    ghost value_at: { ℕ → List ℕ → Front Self.Value };

    // The value can be written.
    ghost can_push: { Self.Value → Type 0 };

    /// The value at the front, and the bytes behind it.
    fn take<'a>(
        alloc: Global,
        bytes: &'a [u8],
        length: usize,
    ) -> Result<(Self::Value, &'a [u8]), PlainFault>
        ensures { GivesFront (λ found. (found.0, found.1.now)) (value_at length bytes.now) result };

    /// Adds the bytes of a value.
    fn push(value: &Self::Value, out: &mut Bytes) -> Result<(), AllocError>
        requires { can_push value.now }
        ensures ok { OnOk result (out.new ≡ out.old ++ spelled value.now) }
        ensures is { (length : ℕ) → has_length length value.now → is length value.now }
        ensures err { OnErr result (BeginsWith out.old out.new) };

    // A law: what is read of a value is what its bytes are.
    ghost is_reader: { (length : ℕ) → IsReaderOf (value_at length) (is length) spelled };
}

fn read_values<P: InTurn>(
    alloc: Global,
    bytes: &[u8],
    length: usize,
    count: usize,
) -> Result<Items<P::Value>, PlainFault>
    ensures { ReadsPlain (whole (values_at (P.value_at length) count bytes.now)) result }
{
    let mut values = Items::new(alloc);
    let mut rest = bytes;
    for _ in 0..count {
        let (value, behind) = P::take(alloc, rest, length)?;
        values.push(value)?;
        rest = behind;
    }
    if !rest.is_empty() {
        return Err(PlainFault::Extra);
    }
    Ok(values)
}

fn write_values<P: InTurn>(values: &Items<P::Value>, out: &mut Bytes) -> Result<(), AllocError>
    requires { All P.can_push values.now }
    ensures ok { OnOk result (out.new ≡ out.old ++ flat_map P.spelled values.now) }
    ensures means { OnOk result ((length : ℕ) → All (P.has_length length) values.now
        → StandInTurn (P.is length) P.spelled values.now (flat_map P.spelled values.now)) }
    ensures err { OnErr result (BeginsWith out.old out.new) }
{
    for value in values.as_slice() {
        P::push(value, out)?;
    }
    Ok(())
}

impl<P: InTurn> Plain for P {
    type Values = Items<P::Value>;

    ghost count_of = { λ values. length values };

    ghost has_length = { λ length values. All (P.has_length length) values };

    ghost means = { λ length values bytes. StandInTurn (P.is length) P.spelled values bytes };

    ghost plain_of = { λ length count bytes. whole (values_at (P.value_at length) count bytes) };

    ghost can_write = { λ values. All P.can_push values };

    ghost spelling = { λ values. flat_map P.spelled values };

    ghost judges = { λ length count bytes are.
        in_turn_judges (P.value_at length) (P.is length) P.spelled (P.is_reader length) count bytes are };

    ghost again = { λ length values bytes rest means.
        in_turn_again (P.value_at length) (P.is length) P.spelled (P.is_reader length) values bytes rest means };

    fn read(
        alloc: Global,
        bytes: &[u8],
        length: usize,
        count: usize,
    ) -> Result<Items<P::Value>, PlainFault> {
        read_values::<P>(alloc, bytes, length, count)
    }

    fn write(values: &Items<P::Value>, out: &mut Bytes) -> Result<(), AllocError> {
        write_values::<P>(values, out)
    }
}
