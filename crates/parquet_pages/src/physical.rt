// Values as they stand in pages, by their physical type.
ghost use Rattle.std.specs.Prelude.{◌≡◌, ◌≤◌, length, slice_get, option_map};
ghost use Rattle.parquet_pages.specs.Answers.{GivesBody};
ghost use Rattle.parquet_pages.specs.Pages.{plain_values};
ghost use Rattle.parquet_pages.specs.Views.{page_values, physicals, seen};

use crate::fault::FileFault;
use dm_types::{Flags, Items, WholeList};
use parquet_meta::LeafSchema;
use parquet_meta::numbers::{BOOLEAN, BYTE_ARRAY, FIXED_LEN_BYTE_ARRAY, INT32, INT64, INT96};
use plain_values::{
    FixedArrays, PlainBoolean, PlainInt32, PlainInt64, read_arrays, read_fixed, read_plain,
};
use std::alloc::Global;

/// How many bytes a value of INT96 has.
const INT96_BYTES: usize = 12;

/// A value before its column's type says what it means.
#[derive(Clone, Copy)]
pub(crate) enum PlainValue<'a> {
    /// BOOLEAN.
    Flag(bool),
    /// INT32 and INT64.
    Whole(i64),
    /// The bytes of the others.
    Raw(&'a [u8]),
}

/// Truth values or numbers that were read, of one physical type.
#[derive(Drop)]
pub(crate) enum PlainList {
    Flags(Flags),
    Whole32(Items<i32>),
    Whole64(WholeList),
}

impl PlainList {
    /// How many values there are.
    pub(crate) fn len(&self) -> usize
        ensures { result ≡ length (physicals self.now) }
    {
        match self {
            PlainList::Flags(flags) => flags.len(),
            PlainList::Whole32(numbers) => numbers.len(),
            PlainList::Whole64(numbers) => numbers.len(),
        }
    }

    /// The value at a place, counted from 0.
    pub(crate) fn get(&self, at: usize) -> Option<PlainValue<'_>>
        ensures { option_map seen result ≡ slice_get (physicals self.now) at }
    {
        match self {
            PlainList::Flags(flags) => {
                let flag = flags.as_slice().get(at)?;
                Some(PlainValue::Flag(*flag))
            }
            PlainList::Whole32(numbers) => {
                let number = numbers.as_slice().get(at)?;
                Some(PlainValue::Whole(i64::from(*number)))
            }
            PlainList::Whole64(numbers) => {
                let number = numbers.as_slice().get(at)?;
                Some(PlainValue::Whole(*number))
            }
        }
    }
}

/// The values of a page.
#[derive(Drop)]
pub(crate) enum PageValues<'a> {
    /// Values of their own.
    Own(PlainList),
    /// Byte arrays, which are parts of the page.
    Lent(Items<&'a [u8]>),
    /// Fixed arrays, which stand in the page one after the other.
    Fixed(FixedArrays<'a>),
}

impl PageValues<'_> {
    /// How many values there are.
    pub(crate) fn len(&self) -> usize
        ensures { result ≡ length (page_values self.now) }
    {
        match self {
            PageValues::Own(values) => values.len(),
            PageValues::Lent(arrays) => arrays.len(),
            PageValues::Fixed(arrays) => arrays.len(),
        }
    }

    /// The value at a place, counted from 0.
    pub(crate) fn get(&self, at: usize) -> Option<PlainValue<'_>>
        ensures { option_map seen result ≡ slice_get (page_values self.now) at }
    {
        match self {
            PageValues::Own(values) => values.get(at),
            PageValues::Lent(arrays) => {
                let array = arrays.as_slice().get(at)?;
                Some(PlainValue::Raw(array))
            }
            PageValues::Fixed(arrays) => {
                let array = arrays.get(at)?;
                Some(PlainValue::Raw(array))
            }
        }
    }
}

// The numbers or truth values of a leaf that has such.
fn read_own(
    alloc: Global,
    leaf: &LeafSchema,
    bytes: &[u8],
    count: usize,
) -> Result<PlainList, FileFault>
    requires { leaf.now.physical ≤ INT64 }
    ensures { GivesBody physicals (plain_values leaf.now count bytes.now) result }
{
    match leaf.physical {
        BOOLEAN => {
            let flags = read_plain::<PlainBoolean>(alloc, bytes, 0, count)?;
            Ok(PlainList::Flags(flags))
        }
        INT32 => {
            let numbers = read_plain::<PlainInt32>(alloc, bytes, 0, count)?;
            Ok(PlainList::Whole32(numbers))
        }
        _ => {
            let numbers = read_plain::<PlainInt64>(alloc, bytes, 0, count)?;
            Ok(PlainList::Whole64(numbers))
        }
    }
}

/// The `count` values of a leaf that the bytes are, in the encoding PLAIN (Encodings.md, "Plain").
pub(crate) fn read_values<'a>(
    alloc: Global,
    leaf: &LeafSchema,
    bytes: &'a [u8],
    count: usize,
) -> Result<PageValues<'a>, FileFault>
    ensures { GivesBody page_values (plain_values leaf.now count bytes.now) result }
{
    match leaf.physical {
        BOOLEAN | INT32 | INT64 => {
            let values = read_own(alloc, leaf, bytes, count)?;
            Ok(PageValues::Own(values))
        }
        INT96 => {
            let arrays = read_fixed(bytes, INT96_BYTES, count)?;
            Ok(PageValues::Fixed(arrays))
        }
        BYTE_ARRAY => {
            let arrays = read_arrays(alloc, bytes, count)?;
            Ok(PageValues::Lent(arrays))
        }
        FIXED_LEN_BYTE_ARRAY => {
            let arrays = read_fixed(bytes, leaf.length.unsigned_abs() as usize, count)?;
            Ok(PageValues::Fixed(arrays))
        }
        _ => Err(FileFault::BadParquet),
    }
}
