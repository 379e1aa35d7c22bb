// The properties of a table, as texts under names.
ghost use Rattle.std.specs.Prelude.{◌≡◌};
ghost use Rattle.std.specs.Option.{option_copied};
ghost use Rattle.table_features.specs.Properties as spec;

use dm_types::Text;

/// Whether a property is `true` (PROTOCOL.md, "Change Metadata").
pub fn is_true_in(pairs: &[(Text, Text)], name: &str) -> bool
    ensures { result ≡ spec.is_true_in pairs.now name.now }
{
    pairs.iter().any(|pair| pair.0.as_str() == name && pair.1.as_str() == "true")
}

/// The text of a property, if it is there (PROTOCOL.md, "Change Metadata").
pub fn text_under<'a>(pairs: &'a [(Text, Text)], name: &str) -> Option<&'a Text>
    ensures { option_copied result ≡ spec.text_under pairs.entry.now name.now }
{
    match pairs.iter().find(|pair| pair.0.as_str() == name) {
        Some(pair) => Some(&pair.1),
        None => None,
    }
}
