// The order of rows by their ids.
ghost use Rattle.std.specs.Prelude.{◌≡◌, ◌<◌, length, map, All, IfOk};
ghost use Rattle.row_tracking.specs.Order.{in_id_order};
ghost use Rattle.row_tracking.specs.StepsOrder.{all_keyed};

use crate::row_id::{RowId, RowIds};
use dm_types::PlaceList;
use std::alloc::{AllocError, Global};

/// The places of the rows, counted from 0, in ascending order of the rows' ids.
///
/// Rows with the same id stay as they stand, and a row without an id comes before each that has one:
/// rows without ids stay as they are.
///
/// It takes memory for the ids and places, and n log n steps.
pub fn places_by_id(alloc: Global, rows: &RowIds) -> Result<PlaceList, AllocError>
    ensures order { IfOk result (λ places. places ≡ in_id_order rows.now) }
    ensures within { IfOk result (All (λ place. place < length rows.now)) }
{
    let mut keys = with_places(alloc, rows.as_slice())?;
    keys.sort_unstable();
    places_of(alloc, &keys)
}

// The id of each row with the row's place.
fn with_places(alloc: Global, rows: &[RowId]) -> Result<Vec<(Option<i64>, usize)>, AllocError>
    ensures { IfOk result (λ keys. keys.items ≡ all_keyed rows.now) }
{
    let mut keys = Vec::with_capacity(alloc, rows.len())?;
    for place in 0..rows.len() {
        keys.push((rows[place].id, place))?;
    }
    Ok(keys)
}

fn places_of(alloc: Global, keys: &[(Option<i64>, usize)]) -> Result<PlaceList, AllocError>
    ensures { IfOk result (λ places. places ≡ map (λ key. key.1) keys.now) }
{
    let mut places = Vec::with_capacity(alloc, keys.len())?;
    for key in keys {
        places.push(key.1)?;
    }
    Ok(PlaceList::from_vec(places))
}
