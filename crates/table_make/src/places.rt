// The least of places.
ghost use Rattle.std.specs.Prelude.{◌≡◌};
ghost use Rattle.table_make.specs.Faults as spec;
ghost use Rattle.table_make.specs.Steps as steps;

/// The lesser of two places, where there are any.
pub(crate) fn earlier(place: Option<usize>, other: Option<usize>) -> Option<usize>
    ensures { result ≡ steps.earlier place other }
{
    match (place, other) {
        (Some(place), Some(other)) => Some(place.min(other)),
        (Some(place), None) => Some(place),
        (None, other) => other,
    }
}

/// Whether a fault at a place would be earlier than what was found.
pub(crate) fn is_before(place: usize, found: Option<usize>) -> bool
    ensures { result ≡ steps.is_before place found }
{
    match found {
        Some(found) => place < found,
        None => true,
    }
}

/// The place, where something is wrong.
pub(crate) fn at_if(wrong: bool, place: usize) -> Option<usize>
    ensures { result ≡ spec.at_if wrong place }
{
    if wrong { Some(place) } else { None }
}
