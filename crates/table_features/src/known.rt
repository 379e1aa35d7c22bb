// The names of the features that are known.
ghost use Rattle.std.specs.Prelude.{◌≡◌, ◌<◌, ℕ, List, Bool, length, IfSome};
ghost use Rattle.table_features.specs.Features.{is_reader_feature, is_writer_feature, is_below_least, FindsLeast};

use dm_types::TextList;

/// Features of one side, by their names.
pub(crate) trait Known {
    /// Whether the feature of this name is known.
    ghost knows: { List ℕ → Bool };

    fn is_known(name: &str) -> bool
        ensures { result ≡ knows name.now };
}

/// What a reader must know.
pub(crate) struct ReaderFeatures;

impl Known for ReaderFeatures {
    ghost knows = { is_reader_feature };

    fn is_known(name: &str) -> bool {
        matches!(name, "columnMapping" | "deletionVectors")
    }
}

/// What a writer must know.
pub(crate) struct WriterFeatures;

impl Known for WriterFeatures {
    ghost knows = { is_writer_feature };

    fn is_known(name: &str) -> bool {
        matches!(
            name,
            "appendOnly"
                | "invariants"
                | "checkConstraints"
                | "changeDataFeed"
                | "generatedColumns"
                | "columnMapping"
                | "identityColumns"
                | "rowTracking"
                | "domainMetadata"
                | "deletionVectors"
        )
    }
}

/// The place of the least unknown name by bytes, and of equal ones the first.
pub(crate) fn least_unknown<K: Known>(names: &TextList) -> Option<usize>
    ensures { FindsLeast K.knows names.now result }
{
    let mut least = None;
    for place in 0..names.len() {
        if is_less::<K>(names, least, place) {
            least = Some(place);
        }
    }
    least
}

// Whether the name at a place is unknown, and below the least so far.
fn is_less<K: Known>(names: &TextList, least: Option<usize>, place: usize) -> bool
    requires place { place < length names.now }
    requires least { IfSome least (λ at. at < length names.now) }
    ensures { result ≡ is_below_least K.knows names.now least place }
{
    if K::is_known(names.get(place).as_str()) {
        return false;
    }
    match least {
        Some(at) => names.get(place) < names.get(at),
        None => true,
    }
}
