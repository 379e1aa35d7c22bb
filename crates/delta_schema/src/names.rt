// The names of columns.
ghost use Rattle.std.specs.Prelude.{◌≡◌, ℕ, List, IfOk, not};
ghost use Rattle.std.specs.List.{list_all, list_any};
ghost use Rattle.delta_schema.specs.Names.{is_among, is_empty, has_twins as has_twins_among, are_good_names as are_good};
ghost use Rattle.delta_schema.specs.StepsReading.{is_held};

use dm_types::Text;
use std::alloc::{AllocError, Global};
use std::collections::BTreeSet;

/// The names as an ordered set, so that no choice of names makes a look-up slow.
pub(crate) fn set_of(alloc: Global, names: &[Text]) -> Result<BTreeSet<Text>, AllocError>
    ensures { IfOk result (λ set. (name : List ℕ) → is_held set.keys name ≡ is_among names.now name) }
{
    let mut set = BTreeSet::new(alloc);
    for name in names {
        set.insert(name.clone()?)?;
    }
    Ok(set)
}

// Whether two names are equal up to the case of ASCII letters.
fn has_twins(alloc: Global, names: &[Text]) -> Result<bool, AllocError>
    ensures { IfOk result (λ has. has ≡ has_twins_among names.now) }
{
    let mut seen = BTreeSet::new(alloc);
    for name in names {
        let lower = name.as_str().to_ascii_lowercase(alloc)?;
        if !seen.insert(lower)? {
            return Ok(true);
        }
    }
    Ok(false)
}

fn has_empty(names: &[Text]) -> bool
    ensures { result ≡ list_any is_empty names.now }
{
    names.iter().any(|name| name.len() == 0)
}

fn are_all_held(set: &BTreeSet<Text>, names: &[Text]) -> bool
    ensures { result ≡ list_all (is_held set.now.keys) names.now }
{
    names.iter().all(|name| set.contains(name))
}

// Whether each of the first names is among the second ones.
fn are_all_among(alloc: Global, names: &[Text], others: &[Text]) -> Result<bool, AllocError>
    ensures { IfOk result (λ all. all ≡ list_all (is_among others.now) names.now) }
{
    let set = set_of(alloc, others)?;
    Ok(are_all_held(&set, names))
}

/// Whether the names of columns and those of partition columns stand together.
pub(crate) fn are_good_names(
    alloc: Global,
    names: &[Text],
    partitions: &[Text],
) -> Result<bool, AllocError>
    ensures { IfOk result (λ good. good ≡ are_good names.now partitions.now) }
{
    if has_empty(names) || has_twins(alloc, names)? {
        return Ok(false);
    }
    let all_there = are_all_among(alloc, partitions, names)?;
    let all_partitions = are_all_among(alloc, names, partitions)?;
    Ok(all_there && !all_partitions)
}
