// What is wrong with the properties of a new table.
ghost use Rattle.std.specs.Prelude.{◌≡◌, min, option_map};
ghost use Rattle.std.specs.List.{filter_map, find, list_any, reduce};
ghost use Rattle.table_make.specs.Elements.{with_before};
ghost use Rattle.table_make.specs.Faults as spec;
ghost use Rattle.table_make.specs.Steps as steps;

use crate::places::is_before;
use sql_statements::Property;

/// Whether data files hold the columns by physical names or ids.
pub(crate) fn is_mapped(properties: &[Property]) -> bool
    ensures { result ≡ spec.is_mapped properties.now }
{
    match first_mode(properties) {
        Some(property) => maps_columns(property),
        None => false,
    }
}

fn first_mode(properties: &[Property]) -> Option<&Property>
    ensures { option_map (λ property. property.now) result ≡ find spec.is_mode properties.entry.now }
{
    properties.iter().find(|property| is_mode(property))
}

fn is_mode(property: &Property) -> bool
    ensures { result ≡ spec.is_mode property.now }
{
    property.key.as_str() == "delta.columnMapping.mode"
}

fn maps_columns(property: &Property) -> bool
    ensures { result ≡ spec.maps_columns property.now }
{
    matches!(property.value.as_str(), "name" | "id")
}

/// What was found, or an earlier property that is at fault.
pub(crate) fn first_improper(found: Option<usize>, properties: &[Property]) -> Option<usize>
    ensures { result ≡ steps.earlier found (reduce min (filter_map spec.improper (with_before properties.now))) }
{
    let mut found = found;
    for at in 0..properties.len() {
        found = or_improper(found, &properties[..at], &properties[at]);
    }
    found
}

// What was found, or the property where it is at fault and stands before. A property behind what was
// found needs no look: so no more are compared than there are keys that are allowed.
fn or_improper(found: Option<usize>, before: &[Property], property: &Property) -> Option<usize>
    ensures { result ≡ steps.earlier found (spec.improper (before.now, property.now)) }
{
    if is_before(property.place.start, found) && is_bad(before, property) {
        Some(property.place.start)
    } else {
        found
    }
}

fn is_bad(before: &[Property], property: &Property) -> bool
    ensures { result ≡ spec.is_bad_property before.now property.now }
{
    !is_allowed(property) || is_given(before, property.key.as_str())
}

fn is_allowed(property: &Property) -> bool
    ensures { result ≡ spec.is_allowed property.now }
{
    let value = property.value.as_str();
    match property.key.as_str() {
        "delta.enableChangeDataFeed" | "delta.appendOnly" => matches!(value, "true" | "false"),
        "delta.columnMapping.mode" => matches!(value, "none" | "name" | "id"),
        _ => false,
    }
}

fn is_given(before: &[Property], key: &str) -> bool
    ensures { result ≡ list_any (spec.has_key key.now) before.now }
{
    before.iter().any(|property| has_key(key, property))
}

fn has_key(key: &str, property: &Property) -> bool
    ensures { result ≡ spec.has_key key.now property.now }
{
    key == property.key.as_str()
}
