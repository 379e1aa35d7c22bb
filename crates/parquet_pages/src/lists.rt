// Lists of values, written in the encoding PLAIN.
ghost use Rattle.std.specs.Prelude.{◌≡◌, ◌+◌, ◌*◌, ◌<◌, ◌^◌, ◌++◌, ℕ, Ok, All, OnOk, OnErr, length, sum_by};
ghost use Rattle.std.specs.List.{flat_map};
ghost use Rattle.parquet_pages.specs.Physical.{plain_bytes};
ghost use Rattle.parquet_pages.specs.Storing.{AppendsPlain, CanStand, raw_size, type_in, values_in};
ghost use Rattle.plain_values.specs.Answers.{lent_values};
ghost use Rattle.plain_values.specs.Forms.{IsArray, array_at, array_bytes};
ghost use Rattle.plain_values.specs.Meaning.{values_at, whole};

use crate::stored::StoredValues;
use dm_types::{Bytes, Items};
use plain_values::{
    Plain, PlainBoolean, PlainByteArray, PlainFixed, PlainInt32, PlainInt64, laws, write_arrays,
    write_plain,
};
use std::alloc::{AllocError, Global};

/// How many bytes arrays have together.
fn sum_of_fixed(arrays: &[Bytes]) -> usize
    requires { sum_by (λ array. length array) arrays.now < 2 ^ 63 }
    ensures { result ≡ sum_by (λ array. length array) arrays.now }
{
    arrays.iter().map(|array| array.len()).sum()
}

/// How many bytes arrays that are lent have together.
fn sum_of_lent(arrays: &[&[u8]]) -> usize
    requires { sum_by (λ array. length array.now) arrays.now < 2 ^ 63 }
    ensures { result ≡ sum_by (λ array. length array.now) arrays.now }
{
    arrays.iter().map(|array| array.len()).sum()
}

/// How many bytes values are written as.
pub(crate) fn size_of(values: &StoredValues<'_>) -> usize
    requires { 8 * length (values_in values.now) + sum_by raw_size (values_in values.now) < 2 ^ 63 }
    ensures { result ≡ length (plain_bytes (type_in values.now) (values_in values.now)) }
{
    match values {
        StoredValues::Flags(flags) => (flags.len() + 7) / 8,
        StoredValues::Whole32(numbers) => 4 * numbers.len(),
        StoredValues::Whole64(numbers) => 8 * numbers.len(),
        StoredValues::Fixed(arrays) => sum_of_fixed(arrays.as_slice()),
        StoredValues::Lent(arrays) => 4 * arrays.len() + sum_of_lent(arrays.as_slice()),
    }
}

/// Adds values of a physical type, which are read as these.
fn write_list<T: Plain>(
    alloc: Global,
    values: &T::Values,
    out: &mut Bytes,
) -> Result<(), AllocError>
    requires { T.can_write values.now }
    ensures ok { OnOk result (out.new ≡ out.old ++ T.spelling values.now) }
    ensures again { OnOk result ((length : ℕ) → T.has_length length values.now
        → T.plain_of length (T.count_of values.now) (T.spelling values.now) ≡ Ok values.now) }
    ensures err { OnErr result (out.new ≡ out.old) }
{
    laws::plain_again::<T>();
    write_plain::<T>(alloc, values, out)
}

/// Adds byte arrays that are lent, which are read as these.
fn write_lent(alloc: Global, arrays: &Items<&[u8]>, out: &mut Bytes) -> Result<(), AllocError>
    requires { All (λ array. IsArray array.now) arrays.now }
    ensures ok { OnOk result (out.new ≡ out.old ++ flat_map array_bytes (lent_values arrays.now)) }
    ensures again { let values = lent_values arrays.now in
        whole (values_at array_at (length values) (flat_map array_bytes values)) ≡ Ok values }
    ensures err { OnErr result (out.new ≡ out.old) }
{
    laws::plain_again::<PlainByteArray>();
    write_arrays(alloc, arrays, out)
}

/// Adds values. After want of memory `out` is as before.
pub(crate) fn write_values(
    alloc: Global,
    values: &StoredValues<'_>,
    out: &mut Bytes,
) -> Result<(), AllocError>
    requires { (size : ℕ) × All (CanStand (type_in values.now) size) (values_in values.now) }
    ensures ok { OnOk result ((size : ℕ) → All (CanStand (type_in values.now) size) (values_in values.now)
        → AppendsPlain (type_in values.now) size (values_in values.now) out.old out.new) }
    ensures err { OnErr result (out.new ≡ out.old) }
{
    match values {
        StoredValues::Flags(flags) => write_list::<PlainBoolean>(alloc, flags, out),
        StoredValues::Whole32(numbers) => write_list::<PlainInt32>(alloc, numbers, out),
        StoredValues::Whole64(numbers) => write_list::<PlainInt64>(alloc, numbers, out),
        StoredValues::Fixed(arrays) => write_list::<PlainFixed>(alloc, arrays, out),
        StoredValues::Lent(arrays) => write_lent(alloc, arrays, out),
    }
}
