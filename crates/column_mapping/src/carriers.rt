// What the leaves of a data file carry, under the names and the field ids of their elements. The
// maps are ordered, so that no choice of names makes a look-up slow.
ghost use Rattle.std.specs.Prelude.{◌≡◌, Some, IfOk, OnOk, option_copied, if◌then◌else◌};
ghost use Rattle.std.specs.Option.{option_and_then};
ghost use Rattle.std.specs.BTreeMap.{get, Updates};
ghost use Rattle.std.specs.Ordering.{int_cmp};
ghost use Rattle.column_mapping.specs.Steps.{single as single_of, joined as joined_of, settled as settled_of};
ghost use Rattle.column_mapping.specs.Steps.{named_in, KeepsByName, KeepsById};

use crate::places::PlaceChoice;
use parquet_meta::LeafSchema;
use std::alloc::{AllocError, Global};
use std::collections::BTreeMap;

// What the leaves carry by the names of their top-level elements.
pub(crate) fn names<'a>(
    alloc: Global,
    leaves: &'a [LeafSchema],
) -> Result<BTreeMap<&'a [u8], PlaceChoice>, AllocError>
    ensures { IfOk result (λ places. KeepsByName places leaves.now) }
{
    let mut places = BTreeMap::new(alloc);
    for (at, leaf) in leaves.iter().enumerate() {
        add(&mut places, leaf.name.as_slice(), single(leaf.top, at))?;
    }
    Ok(places)
}

// What the leaves carry by the field ids of their top-level elements.
pub(crate) fn ids(
    alloc: Global,
    leaves: &[LeafSchema],
) -> Result<BTreeMap<i32, PlaceChoice>, AllocError>
    ensures { IfOk result (λ places. KeepsById places leaves.now) }
{
    let mut places = BTreeMap::new(alloc);
    for (at, leaf) in leaves.iter().enumerate() {
        if let Some(id) = leaf.field_id {
            add(&mut places, id, single(leaf.top, at))?;
        }
    }
    Ok(places)
}

// One more leaf carries what is under this key.
fn add<K: Ord + Drop>(
    places: &mut BTreeMap<K, PlaceChoice>,
    key: K,
    own: PlaceChoice,
) -> Result<(), AllocError>
    ensures { OnOk result (Updates K.cmp places.old places.new key
        (Some (joined_of (get K.cmp places.old key) own))) }
{
    let place = joined(places.get(&key).copied(), own);
    places.insert(key, place)?;
    Ok(())
}

// What the leaves carry by this name.
pub(crate) fn carrier_named(
    places: &BTreeMap<&[u8], PlaceChoice>,
    name: Option<&[u8]>,
) -> Option<PlaceChoice>
    ensures { result ≡ option_and_then (named_in places.now) (option_copied name.entry) }
{
    match name {
        Some(name) => places.get(name).copied(),
        None => None,
    }
}

// What the leaves carry by this field id.
pub(crate) fn carrier_with(
    places: &BTreeMap<i32, PlaceChoice>,
    id: Option<i32>,
) -> Option<PlaceChoice>
    ensures { result ≡ option_and_then (get int_cmp places.now) id }
{
    match id {
        Some(id) => places.get(&id).copied(),
        None => None,
    }
}

// What one leaf carries: nothing that can be read, if it stands below a group.
pub(crate) fn single(top: bool, at: usize) -> PlaceChoice
    ensures { result ≡ single_of top at }
{
    if top {
        PlaceChoice::At(at)
    } else {
        PlaceChoice::Wrong
    }
}

// What is carried by one more leaf.
fn joined(earlier: Option<PlaceChoice>, own: PlaceChoice) -> PlaceChoice
    ensures { result ≡ joined_of earlier own }
{
    match earlier {
        None => own,
        Some(_) => PlaceChoice::Wrong,
    }
}

// What is carried behind one more leaf, which carries it or doesn't.
pub(crate) fn joined_if(
    carries: bool,
    earlier: Option<PlaceChoice>,
    own: PlaceChoice,
) -> Option<PlaceChoice>
    ensures { result ≡ (if carries then Some (joined_of earlier own) else earlier) }
{
    if carries {
        Some(joined(earlier, own))
    } else {
        earlier
    }
}

// Where a column is that the leaves carry so: if none does, it reads as null where it may.
pub(crate) fn settled(nullable: bool, found: Option<PlaceChoice>) -> PlaceChoice
    ensures { result ≡ settled_of nullable found }
{
    match found {
        Some(place) => place,
        None if nullable => PlaceChoice::Missing,
        None => PlaceChoice::Wrong,
    }
}
