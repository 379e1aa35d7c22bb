// The properties of a table.
ghost use Rattle.std.specs.Prelude.{◌≡◌};
ghost use Rattle.std.specs.List.{list_any};
ghost use Rattle.std.specs.Option.{option_copied};
ghost use Rattle.std.specs.Str.{bytes_eq};
ghost use Rattle.table_load.specs.Properties as spec;

use dm_types::Text;
use log_replay::Snapshot;
use table_features::{is_true_in, text_under};

/// Whether a property of the table is `true` (PROTOCOL.md, "Change Metadata").
pub fn is_on(table: &Snapshot, property: &str) -> bool
    ensures { result ≡ spec.is_on table.now property.now }
{
    match &table.metadata.configuration {
        Some(pairs) => is_true_in(pairs.as_slice(), property),
        None => false,
    }
}

/// The text of a property of the table, if it has it.
pub fn property<'a>(table: &'a Snapshot, name: &str) -> Option<&'a Text>
    ensures { option_copied result ≡ spec.property table.entry.now name.now }
{
    match &table.metadata.configuration {
        Some(pairs) => text_under(pairs.as_slice(), name),
        None => None,
    }
}

/// Whether the rows of the table have ids: `delta.enableRowTracking` is `true`, and `rowTracking` is
/// among the writer features (PROTOCOL.md, "Row Tracking").
pub fn tracks_rows(table: &Snapshot) -> bool
    ensures { result ≡ spec.tracks_rows table.now }
{
    is_on(table, "delta.enableRowTracking")
        && lists(table.protocol.writer_features.as_slice(), "rowTracking")
}

fn lists(names: &[Text], name: &str) -> bool
    ensures { result ≡ list_any (λ listed. bytes_eq listed name.now) names.now }
{
    let mut rest = names;
    while let Some((listed, more)) = rest.split_first() {
        if listed.as_str() == name {
            return true;
        }
        rest = more;
    }
    false
}
