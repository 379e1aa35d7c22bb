// The features that a table needs of its writers.
ghost use Rattle.std.specs.Prelude.{◌≡◌, is_some, map, IfOk};
ghost use Rattle.std.specs.List.{list_any};
ghost use Rattle.table_features.specs.Needed.{needed, names_used as names_used_of, is_check as is_check_of, has_checks as has_checks_of, is_mapped as is_mapped_of};

use crate::properties::{is_true_in, text_under};
use delta_schema::{ColumnDef, TableSchema};
use dm_types::{Text, TextList, TextPairs};
use std::alloc::{AllocError, Global};

/// The writer features of a new table with these columns and properties, in byte order of their names
/// (PROTOCOL.md, "Table Features").
///
/// `appendOnly`, `domainMetadata`, `invariants` and `rowTracking` are needed by each table.
/// `changeDataFeed` is needed where the property `delta.enableChangeDataFeed` is `true`,
/// `checkConstraints` where the name of a property begins with `delta.constraints.`, `columnMapping`
/// where the property `delta.columnMapping.mode` is `name` or `id`, `generatedColumns` where a column
/// has a generation expression, and `identityColumns` where a column is an identity.
#[tactic(auto, unfolding(crate::specs::Needed::needed))]
pub fn needed_for(
    alloc: Global,
    schema: &TableSchema,
    configuration: &TextPairs,
) -> Result<TextList, AllocError>
    ensures { IfOk result (λ names. names ≡ needed schema.now configuration.now) }
{
    let columns = schema.as_slice();
    let pairs = configuration.as_slice();
    let features = [
        ("appendOnly", true),
        (
            "changeDataFeed",
            is_true_in(pairs, "delta.enableChangeDataFeed"),
        ),
        ("checkConstraints", has_checks(pairs)),
        ("columnMapping", is_mapped(pairs)),
        ("domainMetadata", true),
        ("generatedColumns", has_generated(columns)),
        ("identityColumns", has_identities(columns)),
        ("invariants", true),
        ("rowTracking", true),
    ];
    names_used(alloc, &features)
}

// The names of the features that are used.
fn names_used(alloc: Global, features: &[(&str, bool)]) -> Result<TextList, AllocError>
    ensures { IfOk result (λ names. names ≡ names_used_of (map (λ it. (it.0.now, it.1)) features.now)) }
{
    let mut names = TextList::new(alloc);
    for (name, used) in features {
        if *used {
            names.push(Text::from_str(alloc, name)?)?;
        }
    }
    Ok(names)
}

// Whether a property of this name is a constraint that rows are to meet.
fn is_check(name: &Text) -> bool
    ensures { result ≡ is_check_of name.now }
{
    name.as_str().as_bytes().starts_with(b"delta.constraints.")
}

fn has_checks(pairs: &[(Text, Text)]) -> bool
    ensures { result ≡ has_checks_of pairs.now }
{
    pairs.iter().any(|pair| is_check(&pair.0))
}

/// Whether data files hold the columns by physical names or ids: the property
/// `delta.columnMapping.mode` is `name` or `id` (PROTOCOL.md, "Column Mapping").
pub fn is_mapped(pairs: &[(Text, Text)]) -> bool
    ensures { result ≡ is_mapped_of pairs.now }
{
    match text_under(pairs, "delta.columnMapping.mode") {
        Some(mode) => matches!(mode.as_str(), "name" | "id"),
        None => false,
    }
}

fn has_generated(columns: &[ColumnDef]) -> bool
    ensures { result ≡ list_any (λ column. is_some column.generation) columns.now }
{
    columns.iter().any(|column| column.generation.is_some())
}

fn has_identities(columns: &[ColumnDef]) -> bool
    ensures { result ≡ list_any (λ column. is_some column.identity) columns.now }
{
    columns.iter().any(|column| column.identity.is_some())
}
