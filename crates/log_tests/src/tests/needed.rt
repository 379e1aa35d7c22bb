// The features that a new table needs.
use delta_schema::{ColumnDef, IdentityRule, TableSchema};
use dm_types::{DataType, Text, TextList, TextPairs};
use std::alloc::{AllocError, Global};
use std::process::Abort;
use std::test::Fail;
use table_features::needed_for;

// The properties of a table, whether its second column has a generation expression and whether it is
// an identity, and the features that the table needs.
struct Case {
    properties: &'static [(&'static str, &'static str)],
    generated: bool,
    identity: bool,
    needed: &'static [&'static str],
}

const CASES: [Case; 9] = [
    Case {
        properties: &[],
        generated: false,
        identity: false,
        needed: &["appendOnly", "domainMetadata", "invariants", "rowTracking"],
    },
    Case {
        properties: &[
            ("delta.columnMapping.mode", "id"),
            ("delta.constraints.pos", "v > 0"),
            ("delta.enableChangeDataFeed", "true"),
        ],
        generated: true,
        identity: true,
        needed: &[
            "appendOnly",
            "changeDataFeed",
            "checkConstraints",
            "columnMapping",
            "domainMetadata",
            "generatedColumns",
            "identityColumns",
            "invariants",
            "rowTracking",
        ],
    },
    // A feed that is switched off isn't used.
    Case {
        properties: &[
            ("delta.appendOnly", "true"),
            ("delta.enableChangeDataFeed", "false"),
        ],
        generated: false,
        identity: false,
        needed: &["appendOnly", "domainMetadata", "invariants", "rowTracking"],
    },
    Case {
        properties: &[("delta.enableChangeDataFeed", "true")],
        generated: false,
        identity: false,
        needed: &[
            "appendOnly",
            "changeDataFeed",
            "domainMetadata",
            "invariants",
            "rowTracking",
        ],
    },
    Case {
        properties: &[
            ("delta.columnMapping.mode", "none"),
            ("delta.constraint", "v > 0"),
        ],
        generated: true,
        identity: false,
        needed: &[
            "appendOnly",
            "domainMetadata",
            "generatedColumns",
            "invariants",
            "rowTracking",
        ],
    },
    Case {
        properties: &[("delta.columnMapping.mode", "name")],
        generated: false,
        identity: false,
        needed: &[
            "appendOnly",
            "columnMapping",
            "domainMetadata",
            "invariants",
            "rowTracking",
        ],
    },
    Case {
        properties: &[
            ("delta.constraints.a", "v > 0"),
            ("delta.constraints.b", "v < 9"),
        ],
        generated: false,
        identity: false,
        needed: &[
            "appendOnly",
            "checkConstraints",
            "domainMetadata",
            "invariants",
            "rowTracking",
        ],
    },
    Case {
        properties: &[
            ("DELTA.CONSTRAINTS.A", "v > 0"),
            ("my.delta.constraints.a", "v > 0"),
        ],
        generated: false,
        identity: true,
        needed: &[
            "appendOnly",
            "domainMetadata",
            "identityColumns",
            "invariants",
            "rowTracking",
        ],
    },
    Case {
        properties: &[
            ("delta.enableChangeDataFeed", "TRUE"),
            ("delta.columnMapping.mode", "Name"),
        ],
        generated: false,
        identity: false,
        needed: &["appendOnly", "domainMetadata", "invariants", "rowTracking"],
    },
];

fn pairs_of(alloc: Global, properties: &[(&str, &str)]) -> Result<TextPairs, AllocError> {
    let mut pairs = TextPairs::new(alloc);
    for (name, text) in properties {
        pairs.push((Text::from_str(alloc, name)?, Text::from_str(alloc, text)?))?;
    }
    Ok(pairs)
}

// A column of whole numbers, with these rules.
fn column(
    alloc: Global,
    name: &str,
    generation: Option<Text>,
    identity: Option<IdentityRule>,
) -> Result<ColumnDef, AllocError> {
    Ok(ColumnDef {
        name: Text::from_str(alloc, name)?,
        kind: DataType::Long,
        nullable: true,
        partition: false,
        id: None,
        physical: None,
        generation,
        identity,
        invariant: false,
        other: TextPairs::new(alloc),
    })
}

fn generation(alloc: Global, there: bool) -> Result<Option<Text>, AllocError> {
    if there {
        return Ok(Some(Text::from_str(alloc, "k + 1")?));
    }
    Ok(None)
}

fn identity(there: bool) -> Option<IdentityRule> {
    if there {
        return Some(IdentityRule {
            start: 1,
            step: 1,
            mark: None,
            explicit: false,
        });
    }
    None
}

fn schema_of(alloc: Global, case: &Case) -> Result<TableSchema, AllocError> {
    let mut schema = TableSchema::new(alloc);
    schema.push(column(alloc, "k", None, None)?)?;
    let generation = generation(alloc, case.generated)?;
    schema.push(column(alloc, "v", generation, identity(case.identity))?)?;
    Ok(schema)
}

// Whether these are the names, in this order.
fn are(names: &TextList, wanted: &[&str]) -> bool {
    if names.len() != wanted.len() {
        return false;
    }
    for place in 0..names.len() {
        if names.get(place).as_str() != wanted[place] {
            return false;
        }
    }
    true
}

#[test]
fn new_tables_need_what_they_use(rt: HostRuntime) -> Result<(), Fail> {
    for case in &CASES {
        let schema = schema_of(rt.alloc(), case)?;
        let pairs = pairs_of(rt.alloc(), case.properties)?;
        let needed = needed_for(rt.alloc(), &schema, &pairs)?;
        assert!(rt; are(&needed, case.needed));
    }
    Ok(())
}
