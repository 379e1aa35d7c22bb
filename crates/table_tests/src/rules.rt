// Which rules a table that is written may have.
use crate::rows::{Case, ZERO, run_so};
use std::test::Fail;

// The lines of a table up to its properties, of which there is one.
const PROPERTIES: &str = concat!(
    r#"{"protocol":{"minReaderVersion":1,"minWriterVersion":7,"writerFeatures":["domainMetadata","rowTracking"]}}"#,
    "\n",
    r#"{"metaData":{"id":"i","configuration":{"delta.enableRowTracking":"true""#,
);

// Columns for the ids and commit versions of rows.
const IDS: &str =
    r#","delta.rowTracking.materializedRowIdColumnName":"i","delta.rowTracking.materializedRowCommitVersionColumnName":"c""#;

// A constraint that isn't an expression, and one that is no condition.
const BAD_CHECKS: &str = r#","delta.constraints.a":"k + 1","delta.constraints.B":"k <""#;

// What stands between the properties and the columns.
const COLUMNS: &str = r#"},"schemaString":"{\"type\":\"struct\",\"fields\":["#;

// A column `v` of texts, the last one.
const TEXTS: &str = r#"{\"name\":\"v\",\"type\":\"string\",\"nullable\":true,\"metadata\":{}}"#;

// A column `k` of whole numbers, before others.
const NUMBERS: &str = r#"{\"name\":\"k\",\"type\":\"long\",\"nullable\":true,\"metadata\":{}},"#;

// A column with an invariant, and one whose expression isn't one.
const BAD_COLUMNS: &str = concat!(
    r#"{\"name\":\"d\",\"type\":\"long\",\"nullable\":true,\"metadata\":{\"delta.invariants\":\"{}\"}},"#,
    r#"{\"name\":\"e\",\"type\":\"long\",\"nullable\":true,\"metadata\":{\"delta.generationExpression\":\"k +\"}},"#,
);

// What ends the columns.
const END: &str = "]}\"}}\n";

// A table with each kind of rule, of which each can be kept.
const KEPT: Case = Case {
    logs: &[(
        ZERO,
        &[
            PROPERTIES,
            IDS,
            r#","delta.constraints.a":"k < 10 or v is null","delta.constraints.n":"null""#,
            COLUMNS,
            NUMBERS,
            r#"{\"name\":\"g\",\"type\":\"integer\",\"nullable\":false,\"metadata\":{\"delta.generationExpression\":\"cast(K as int) + 1\"}},"#,
            r#"{\"name\":\"n\",\"type\":\"long\",\"nullable\":false,\"metadata\":{\"delta.identity.start\":1,\"delta.identity.step\":2,\"delta.identity.allowExplicitInsert\":true}},"#,
            TEXTS,
            END,
        ],
    )],
    files: &[],
    script: "DELETE FROM t;",
    text: "version 1\n",
};

// Rules that can't be kept, in the order in which they are looked at; each table has later ones too.
const UNKEPT: [Case; 14] = [
    // the first column decides
    Case {
        logs: &[(
            ZERO,
            &[
                PROPERTIES,
                BAD_CHECKS,
                COLUMNS,
                BAD_COLUMNS,
                NUMBERS,
                TEXTS,
                END,
            ],
        )],
        text: "refused 1: O22 d\n",
        ..KEPT
    },
    // an identity with a start alone
    Case {
        logs: &[(
            ZERO,
            &[
                PROPERTIES,
                BAD_CHECKS,
                COLUMNS,
                r#"{\"name\":\"n\",\"type\":\"long\",\"nullable\":true,\"metadata\":{\"delta.identity.start\":1}},"#,
                BAD_COLUMNS,
                TEXTS,
                END,
            ],
        )],
        text: "refused 1: O22 n\n",
        ..KEPT
    },
    // an expression that goes on
    Case {
        logs: &[(
            ZERO,
            &[
                PROPERTIES,
                BAD_CHECKS,
                COLUMNS,
                NUMBERS,
                r#"{\"name\":\"g\",\"type\":\"long\",\"nullable\":true,\"metadata\":{\"delta.generationExpression\":\"k k\"}},"#,
                TEXTS,
                END,
            ],
        )],
        text: "refused 1: O22 g\n",
        ..KEPT
    },
    // one over an identity column
    Case {
        logs: &[(
            ZERO,
            &[
                PROPERTIES,
                BAD_CHECKS,
                COLUMNS,
                r#"{\"name\":\"n\",\"type\":\"long\",\"nullable\":true,\"metadata\":{\"delta.identity.start\":1,\"delta.identity.step\":1,\"delta.identity.allowExplicitInsert\":false}},"#,
                r#"{\"name\":\"g\",\"type\":\"long\",\"nullable\":true,\"metadata\":{\"delta.generationExpression\":\"n + 1\"}},"#,
                TEXTS,
                END,
            ],
        )],
        text: "refused 1: O22 g\n",
        ..KEPT
    },
    // one over a generated column, itself
    Case {
        logs: &[(
            ZERO,
            &[
                PROPERTIES,
                BAD_CHECKS,
                COLUMNS,
                r#"{\"name\":\"g\",\"type\":\"long\",\"nullable\":true,\"metadata\":{\"delta.generationExpression\":\"g\"}},"#,
                TEXTS,
                END,
            ],
        )],
        text: "refused 1: O22 g\n",
        ..KEPT
    },
    // one that has a type, but not the column's
    Case {
        logs: &[(
            ZERO,
            &[
                PROPERTIES,
                BAD_CHECKS,
                COLUMNS,
                r#"{\"name\":\"g\",\"type\":\"long\",\"nullable\":true,\"metadata\":{\"delta.generationExpression\":\"v\"}},"#,
                TEXTS,
                END,
            ],
        )],
        text: "refused 1: O22 g\n",
        ..KEPT
    },
    // constraints by the bytes of their names
    Case {
        logs: &[(
            ZERO,
            &[PROPERTIES, BAD_CHECKS, COLUMNS, NUMBERS, TEXTS, END],
        )],
        text: "refused 1: O22 B\n",
        ..KEPT
    },
    // one that is no condition
    Case {
        logs: &[(
            ZERO,
            &[
                PROPERTIES,
                r#","delta.constraints.c":"k + 1""#,
                COLUMNS,
                NUMBERS,
                TEXTS,
                END,
            ],
        )],
        text: "refused 1: O22 c\n",
        ..KEPT
    },
    // one over a column that isn't there
    Case {
        logs: &[(
            ZERO,
            &[
                PROPERTIES,
                r#","delta.constraints.c":"w = 1""#,
                COLUMNS,
                NUMBERS,
                TEXTS,
                END,
            ],
        )],
        text: "refused 1: O22 c\n",
        ..KEPT
    },
    // no columns for ids
    Case {
        logs: &[(ZERO, &[PROPERTIES, COLUMNS, NUMBERS, TEXTS, END])],
        text: "refused 1: O22 delta.rowTracking\n",
        ..KEPT
    },
    // one of them alone
    Case {
        logs: &[(
            ZERO,
            &[
                PROPERTIES,
                r#","delta.rowTracking.materializedRowIdColumnName":"i""#,
                COLUMNS,
                NUMBERS,
                TEXTS,
                END,
            ],
        )],
        text: "refused 1: O22 delta.rowTracking\n",
        ..KEPT
    },
    // twice the same
    Case {
        logs: &[(
            ZERO,
            &[
                PROPERTIES,
                r#","delta.rowTracking.materializedRowIdColumnName":"i","delta.rowTracking.materializedRowCommitVersionColumnName":"i""#,
                COLUMNS,
                NUMBERS,
                TEXTS,
                END,
            ],
        )],
        text: "refused 1: O22 delta.rowTracking\n",
        ..KEPT
    },
    // that of a column
    Case {
        logs: &[(
            ZERO,
            &[
                PROPERTIES,
                r#","delta.rowTracking.materializedRowIdColumnName":"i","delta.rowTracking.materializedRowCommitVersionColumnName":"k""#,
                COLUMNS,
                NUMBERS,
                TEXTS,
                END,
            ],
        )],
        text: "refused 1: O22 delta.rowTracking\n",
        ..KEPT
    },
    // that of the kind of a change
    Case {
        logs: &[(
            ZERO,
            &[
                PROPERTIES,
                r#","delta.rowTracking.materializedRowIdColumnName":"_change_type","delta.rowTracking.materializedRowCommitVersionColumnName":"c""#,
                COLUMNS,
                NUMBERS,
                TEXTS,
                END,
            ],
        )],
        text: "refused 1: O22 delta.rowTracking\n",
        ..KEPT
    },
];

#[test]
fn rules_are_kept(rt: HostRuntime) -> Result<(), Fail> {
    assert!(rt; run_so(rt.alloc(), &[KEPT], 0)?);
    Ok(())
}

#[test]
fn rules_are_refused(rt: HostRuntime) -> Result<(), Fail> {
    assert!(rt; run_so(rt.alloc(), &UNKEPT, 1)?);
    Ok(())
}
