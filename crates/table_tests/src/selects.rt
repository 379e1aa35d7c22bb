// What SELECT prints of a table in the folder `t`, or why it is refused.
use crate::files::*;
use crate::logs::*;
use crate::rows::{A, B, BOTH, Case, IDS, ONE_MORE, ZERO, run_so};
use std::test::Fail;

// The rows of BOTH are (2, b), (null, a) and (3, null); those of IDS by their ids (3, null), (7, x) and
// (8, null).
const SELECTED: [Case; 10] = [
    Case {
        script: "SELECT * FROM t;",
        text: "k\tv\n2\tb\n3\t\\N\n\\N\ta\n",
        ..BOTH
    },
    // a row on which the condition is null isn't selected
    Case {
        script: "SELECT v, k FROM t WHERE k >= 2;",
        text: "v\tk\n\\N\t3\nb\t2\n",
        ..BOTH
    },
    // an alias, a column as the schema spells it, or `_c` and the place
    Case {
        script: "SELECT K, (v), k + 1, v AS Name, v AS `a\tb`, T.K, 'x' || v FROM t WHERE k = 2;",
        text: "k\tv\t_c2\tName\ta\\tb\tk\t_c6\n2\tb\t3\tb\tb\t2\txb\n",
        ..BOTH
    },
    Case {
        script: "SELECT CAST(1.005 AS DECIMAL(3,2)) AS x, 7 DIV -2 AS y, -7 % 3 AS z, 1.5 * 2.25 AS w, 1 = 1.0 AS e FROM t WHERE k = 2;",
        text: "x\ty\tz\tw\te\n1.01\t-3\t-1\t3.375\ttrue\n",
        ..BOTH
    },
    Case {
        script: "SELECT k FROM t WHERE FALSE; SELECT k AS n FROM t WHERE k > 2 AND v IS NULL;",
        text: "k\nn\n3\n",
        ..BOTH
    },
    // a row that isn't selected has no error
    Case {
        script: "SELECT 1 DIV (k - 2) FROM t WHERE k <> 2;",
        text: "_c0\n1\n",
        ..BOTH
    },
    // what stands behind a conjunct that isn't true isn't looked at
    Case {
        script: "SELECT k FROM t WHERE k <> 2 AND 1 DIV (k - 2) = 1;",
        text: "k\n3\n",
        ..BOTH
    },
    // equal lines stay
    Case {
        script: "SELECT 1 AS one FROM t;",
        text: "one\n1\n1\n1\n",
        ..BOTH
    },
    // by their ids, where rows are tracked
    Case {
        script: "SELECT 10 - k FROM t; SELECT * FROM t WHERE k < 8;",
        text: "_c0\n7\n3\n2\nk\tv\n3\t\\N\n7\tx\n",
        ..IDS
    },
    // an older version has its own files and its own columns
    Case {
        logs: &[
            (ZERO, &[PLAIN, ADD_A]),
            (
                ONE_MORE,
                &["{\"remove\":{\"path\":\"a.parquet\"}}\n", NARROW],
            ),
        ],
        files: &[(A, ONE)],
        script: "SELECT * FROM t VERSION AS OF 0; SELECT * FROM t;",
        text: "k\tv\n3\t\\N\nk\n",
    },
];

const REFUSED: [Case; 11] = [
    Case {
        script: "SELECT nope FROM t;",
        text: "refused 1: S3 1 7\n",
        ..BOTH
    },
    // the least place of items and condition
    Case {
        script: "SELECT k + v, nope FROM t WHERE k;",
        text: "refused 1: S3 3 9\n",
        ..BOTH
    },
    Case {
        script: "SELECT k, u.k FROM t WHERE k;",
        text: "refused 1: S3 1 10\n",
        ..BOTH
    },
    Case {
        script: "SELECT k FROM t WHERE k;",
        text: "refused 1: S3 5 22\n",
        ..BOTH
    },
    // opening comes before types
    Case {
        script: "SELECT nope FROM t VERSION AS OF 9;",
        text: "refused 1: O21 9\n",
        ..BOTH
    },
    Case {
        files: &[(B, TWO)],
        script: "SELECT nope FROM t;",
        text: "refused 1: O12 a.parquet\n",
        ..BOTH
    },
    // types come before errors
    Case {
        script: "SELECT 1 DIV 0, nope FROM t;",
        text: "refused 1: S3 1 16\n",
        ..BOTH
    },
    // errors of the condition come before those of the items, also the greater ones
    Case {
        script: "SELECT 9223372036854775807 + k FROM t WHERE CAST(v AS INT) > 0;",
        text: "refused 1: S7 3\n",
        ..BOTH
    },
    // the least error over all rows
    Case {
        script: "SELECT k FROM t WHERE CAST(v AS INT) > 0 OR 1 DIV (k - 3) > 0;",
        text: "refused 1: S7 2\n",
        ..BOTH
    },
    // and over all items
    Case {
        script: "SELECT CAST(v AS INT), 9223372036854775807 + k FROM t;",
        text: "refused 1: S7 1\n",
        ..BOTH
    },
    // of a version the errors of its own rows
    Case {
        logs: &[(ZERO, &[PLAIN, ADD_A]), (ONE_MORE, &[ADD_B])],
        files: &[(A, ONE), (B, TWO)],
        script: "SELECT 1 DIV (k - 2) AS q FROM t VERSION AS OF 0; SELECT 1 DIV (k - 2) FROM t;",
        text: "q\n1\nrefused 2: S7 2\n",
    },
];

#[test]
fn rows_are_selected(rt: HostRuntime) -> Result<(), Fail> {
    assert!(rt; run_so(rt.alloc(), &SELECTED, 0)?);
    Ok(())
}

#[test]
fn selects_are_refused(rt: HostRuntime) -> Result<(), Fail> {
    assert!(rt; run_so(rt.alloc(), &REFUSED, 1)?);
    Ok(())
}
