// Names that are told apart without the case of ASCII letters.
ghost use Rattle.std.specs.Prelude.{◌≡◌, ◌||◌, IfOk, OnOk, string_bytes};
ghost use Rattle.std.specs.Str.{str_eq_ignore_ascii_case};
ghost use Rattle.table_make.specs.Elements as spec;
ghost use Rattle.table_make.specs.NewColumns.{is_named as is_named_of};
ghost use Rattle.table_make.specs.Steps.{is_held};
ghost use Rattle.sql_tree.specs.declared.tree.Name as tree;

use dm_types::Text;
use sql_tree::Name;
use std::alloc::{AllocError, Global};
use std::collections::BTreeSet;

/// Adds a name to a set of names in lower case, and tells whether it was there.
pub(crate) fn hold(
    alloc: Global,
    names: &mut BTreeSet<String>,
    name: &Name,
) -> Result<bool, AllocError>
    ensures told { IfOk result (λ there. there ≡ is_held names.old name.now) }
    ensures held { OnOk result ((other : tree.Name) → is_held names.new other ≡ (is_held names.old other || spec.is_same other name.now)) }
{
    let lower = name.text.as_str().to_ascii_lowercase(alloc)?;
    let added = names.insert(lower)?;
    Ok(!added)
}

/// Whether two texts are equal up to the case of ASCII letters.
pub(crate) fn same_name(name: &Text, other: &Text) -> bool
    ensures { result ≡ str_eq_ignore_ascii_case name.now other.now }
{
    name.as_bytes().eq_ignore_ascii_case(other.as_bytes())
}

/// Whether two names are equal up to the case of ASCII letters.
pub(crate) fn is_same(name: &Name, other: &Name) -> bool
    ensures { result ≡ spec.is_same name.now other.now }
{
    same_name(&name.text, &other.text)
}

/// Whether a name is one of these.
pub(crate) fn is_among(names: &[Name], name: &Name) -> bool
    ensures { result ≡ spec.is_among names.now name.now }
{
    names.iter().any(|other| is_same(name, other))
}

/// Whether one of the names is this text up to the case of ASCII letters.
pub(crate) fn is_named(names: &[Name], text: &Text) -> bool
    ensures { result ≡ is_named_of names.now text.now }
{
    names.iter().any(|name| same_name(&name.text, text))
}
