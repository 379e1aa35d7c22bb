// The places of a page's values in the dictionary.
ghost use Rattle.std.specs.Prelude.{◌≡◌, nat_lt, length, option_map, slice_get};
ghost use Rattle.std.specs.List.{list_all};
ghost use Rattle.parquet_pages.specs.Answers.{GivesBody};
ghost use Rattle.parquet_pages.specs.Entries.{looked_up};
ghost use Rattle.parquet_pages.specs.Pages.{named_values, dictionary_values};
ghost use Rattle.parquet_pages.specs.Places.{GivesOrder, value_at};
ghost use Rattle.parquet_pages.specs.Views.{page_values, seen};

use crate::fault::FileFault;
use crate::physical::{PageValues, PlainValue};
use dm_types::{Items, NumberList};
use level_runs::read_runs;
use std::alloc::Global;

/// Which values of a list a page has.
#[derive(Drop)]
pub(crate) enum Order {
    /// All of them, as they stand.
    InTurn,
    /// Those at these places.
    ByPlace(NumberList),
}

impl Order {
    /// The value of the full entry with so many before it.
    pub(crate) fn value<'a>(&self, values: &'a PageValues<'_>, at: usize) -> Option<PlainValue<'a>>
        ensures { option_map seen result ≡ value_at (page_values values.now) self.now at }
    {
        match self {
            Order::InTurn => values.get(at),
            Order::ByPlace(places) => {
                let place = places.as_slice().get(at)?;
                values.get(*place as usize)
            }
        }
    }
}

// Whether all places are below the length of a list.
fn are_below(places: &[u32], len: usize) -> bool
    ensures { result ≡ list_all (λ place. nat_lt place len) places.now }
{
    places.iter().all(|place| (*place as usize) < len)
}

// The places that the bytes are: one byte for their width, and runs.
fn read_named(
    alloc: Global,
    dictionary: &PageValues<'_>,
    bytes: &[u8],
    count: usize,
) -> Result<Order, FileFault>
    ensures { GivesOrder (page_values dictionary.now)
        (named_values (page_values dictionary.now) count bytes.now) result }
{
    let Some((width, runs)) = bytes.split_first() else {
        return Err(FileFault::BadParquet);
    };
    let (places, used) = read_runs(alloc, runs, *width, count)?;
    if used != runs.len() {
        return Err(FileFault::BadParquet);
    }
    check_places(places, dictionary)
}

fn check_places(places: NumberList, dictionary: &PageValues<'_>) -> Result<Order, FileFault>
    ensures { GivesOrder (page_values dictionary.now) (looked_up (page_values dictionary.now) places) result }
{
    if !are_below(places.as_slice(), dictionary.len()) {
        return Err(FileFault::BadParquet);
    }
    Ok(Order::ByPlace(places))
}

/// The places of `count` values in the dictionary (Encodings.md, "Dictionary Encoding"). Where there
/// is none to be read, the bytes aren't looked at.
pub(crate) fn read_order(
    alloc: Global,
    dictionary: &PageValues<'_>,
    bytes: &[u8],
    count: usize,
) -> Result<Order, FileFault>
    ensures { GivesOrder (page_values dictionary.now)
        (dictionary_values (Some (page_values dictionary.now)) count bytes.now) result }
{
    if count == 0 {
        return Ok(Order::ByPlace(Items::new(alloc)));
    }
    read_named(alloc, dictionary, bytes, count)
}
