// The properties of a new table.
ghost use Rattle.std.specs.Prelude.{◌≡◌, [], ◌∷◌, ◌++◌, IfOk, OnOk};
ghost use Rattle.table_make.specs.NewProperties as spec;

use dm_types::{Text, TextPairs};
use sql_statements::{CheckElement, Element, Property};
use std::alloc::{AllocError, Global};
use std::collections::BTreeMap;

/// The properties that a statement gives, in their order.
pub(crate) fn given(alloc: Global, properties: &[Property]) -> Result<TextPairs, AllocError>
    ensures { IfOk result (λ pairs. pairs ≡ spec.given properties.now) }
{
    let mut pairs = TextPairs::new(alloc);
    for property in properties {
        pairs.push((property.key.clone()?, property.value.clone()?))?;
    }
    Ok(pairs)
}

/// The properties of a new table, in byte order of their names: those that are given, the constraints
/// (PROTOCOL.md, "CHECK Constraints"), those of row tracking (PROTOCOL.md, "Row Tracking"), and where
/// its columns are mapped the greatest id (PROTOCOL.md, "Column Mapping").
#[tactic(auto, unfolding(crate::specs::NewProperties::configuration_of))]
pub(crate) fn configuration(
    alloc: Global,
    elements: &[Element],
    given: TextPairs,
    mapped: bool,
    count: usize,
    id: &Text,
) -> Result<TextPairs, AllocError>
    ensures { IfOk result (λ pairs. pairs ≡ spec.configuration_of elements.now given mapped count id.now) }
{
    let mut pairs = given;
    push_checks(alloc, &mut pairs, elements)?;
    push_tracking(alloc, &mut pairs, id)?;
    push_mapping(alloc, &mut pairs, mapped, count)?;
    in_order(alloc, pairs)
}

// A property for each constraint.
fn push_checks(alloc: Global, pairs: &mut TextPairs, elements: &[Element]) -> Result<(), AllocError>
    ensures { OnOk result (pairs.new ≡ pairs.old ++ spec.checks_of elements.now) }
{
    for element in elements {
        if let Element::Check(check) = element {
            pairs.push(check_pair(alloc, check)?)?;
        }
    }
    Ok(())
}

// The property of a constraint: what stands between its parentheses.
fn check_pair(alloc: Global, check: &CheckElement) -> Result<(Text, Text), AllocError>
    ensures { IfOk result (λ pair. pair ≡ spec.check_pair check.now) }
{
    let name = joined(alloc, "delta.constraints.", &check.name.text)?;
    Ok((name, check.rule.text.clone()?))
}

// A text with another one behind it.
fn joined(alloc: Global, front: &str, rest: &Text) -> Result<Text, AllocError>
    ensures { IfOk result (λ text. text ≡ front.now ++ rest.now) }
{
    let mut text = Text::from_str(alloc, front)?;
    text.push_str(rest.as_str())?;
    Ok(text)
}

// Row tracking is on, and rewritten files have columns for ids and commit versions.
fn push_tracking(alloc: Global, pairs: &mut TextPairs, id: &Text) -> Result<(), AllocError>
    ensures { OnOk result (pairs.new ≡ pairs.old ++ spec.tracking_of id.now) }
{
    let ids = joined(alloc, "_row-id-col-", id)?;
    let versions = joined(alloc, "_row-commit-version-col-", id)?;
    push_pair(
        alloc,
        pairs,
        "delta.enableRowTracking",
        Text::from_str(alloc, "true")?,
    )?;
    push_pair(
        alloc,
        pairs,
        "delta.rowTracking.materializedRowIdColumnName",
        ids,
    )?;
    push_pair(
        alloc,
        pairs,
        "delta.rowTracking.materializedRowCommitVersionColumnName",
        versions,
    )?;
    Ok(())
}

// The greatest id of a column, which is their number.
fn push_mapping(
    alloc: Global,
    pairs: &mut TextPairs,
    mapped: bool,
    count: usize,
) -> Result<(), AllocError>
    ensures { OnOk result (pairs.new ≡ pairs.old ++ spec.mapping_of mapped count) }
{
    if mapped {
        let greatest = format!(in alloc; "{count}")?;
        let greatest = Text::from_str(alloc, greatest.as_str())?;
        push_pair(alloc, pairs, "delta.columnMapping.maxColumnId", greatest)?;
    }
    Ok(())
}

fn push_pair(alloc: Global, pairs: &mut TextPairs, name: &str, text: Text) -> Result<(), AllocError>
    ensures { OnOk result (pairs.new ≡ pairs.old ++ (name.now, text) ∷ []) }
{
    pairs.push((Text::from_str(alloc, name)?, text))
}

// The pairs in byte order of their names; of equal names the last text stays.
#[tactic(auto, unfolding(crate::specs::NewProperties::with_pairs))]
fn in_order(alloc: Global, pairs: TextPairs) -> Result<TextPairs, AllocError>
    ensures { IfOk result (λ ordered. ordered ≡ spec.with_pairs [] pairs) }
{
    let mut map = BTreeMap::new(alloc);
    for (name, text) in pairs.into_vec() {
        map.insert(name, text)?;
    }
    entries(alloc, map)
}

// The entries of a map, in order.
fn entries(alloc: Global, map: BTreeMap<Text, Text>) -> Result<TextPairs, AllocError>
    ensures { IfOk result (λ pairs. pairs ≡ map.entries) }
{
    let mut pairs = TextPairs::new(alloc);
    for entry in map {
        pairs.push(entry)?;
    }
    Ok(pairs)
}
