// Expressions of every form with their trees, and scripts, by hand; places of what is none.
use super::shown::show;
use dm_types::DataType;
use sql_reader::{Expr, Literal, ScriptFault, Stmt, WrittenKind, read_expr, read_script};
use std::alloc::{AllocError, Global};
use std::test::Fail;

/// Expressions, and how `show` shows them: each form as its name, the text at its operator's place
/// and its parts.
const TREES: [(&[u8], &[u8]); 48] = [
    // Literals.
    (b"7", b"whole 7"),
    (b"9223372036854775808", b"whole 9223372036854775808"),
    (b"1.50", b"decimal 1.50"),
    (b"'it''s'", b"text 'it''s'"),
    (b"'t'", b"text 't'"),
    (b"X'0a'", b"bytes X'0a'"),
    (b"null", b"null null"),
    (b"True", b"true True"),
    (b"FALSE", b"false FALSE"),
    (b"DATE '2024-01-01'", b"date DATE '2024-01-01'"),
    (b"timestamp 'no'", b"timestamp timestamp 'no'"),
    // Columns and calls. What isn't reserved is a name.
    (b"a", b"column a"),
    (b"`a b` . c", b"column `a b`.c"),
    (b"date.timestamp", b"column date.timestamp"),
    (b"files", b"column files"),
    (b"f()", b"call f[]"),
    (b"DATE(a, 1)", b"call DATE[column a;whole 1;]"),
    (b"`if`(a, b, c)", b"call `if`[column a;column b;column c;]"),
    // Brackets.
    (b"(a)", b"group (a) [column a]"),
    (b"((a))", b"group ((a)) [group (a) [column a]]"),
    // Signs.
    (b"- + a", b"- minus[+ plus[column a]]"),
    (b"-a.b", b"- minus[column a.b]"),
    (b"1 - -2", b"- minus[whole 1;- minus[whole 2]]"),
    // Chains, from the left, by level.
    (
        b"a * b % c DIV d",
        b"DIV divide[% remainder[* times[column a;column b];column c];column d]",
    ),
    (b"a + b * c", b"+ plus[column a;* times[column b;column c]]"),
    (b"a - b + c", b"+ plus[- minus[column a;column b];column c]"),
    (
        b"a || b + c || d",
        b"|| concat[|| concat[column a;+ plus[column b;column c]];column d]",
    ),
    // Comparisons.
    (b"a = b", b"= equal[column a;column b]"),
    (b"a <> b", b"<> not equal[column a;column b]"),
    (b"a != b", b"!= not equal[column a;column b]"),
    (b"a < b", b"< less[column a;column b]"),
    (b"a <= b", b"<= at most[column a;column b]"),
    (b"a > b", b"> greater[column a;column b]"),
    (b"a >= b", b">= at least[column a;column b]"),
    (
        b"a <=> b || c",
        b"<=> same[column a;|| concat[column b;column c]]",
    ),
    // Tests.
    (b"a IS NULL", b"IS NULL null[column a]"),
    (b"a is not true", b"is not true not true[column a]"),
    (b"a IS FALSE", b"IS FALSE false[column a]"),
    (
        b"a BETWEEN b AND c AND d",
        b"AND and[BETWEEN between[column a;column b;column c];column d]",
    ),
    (
        b"a NOT BETWEEN b AND c",
        b"NOT BETWEEN not between[column a;column b;column c]",
    ),
    (b"a IN (1)", b"IN in[column a;whole 1;]"),
    (
        b"a NOT IN (1, b OR c)",
        b"NOT IN not in[column a;whole 1;OR or[column b;column c];]",
    ),
    // AND, OR and NOT: AND binds tighter.
    (
        b"a OR b AND c",
        b"OR or[column a;AND and[column b;column c]]",
    ),
    (
        b"a AND b OR c",
        b"OR or[AND and[column a;column b];column c]",
    ),
    (
        b"NOT NOT a = b",
        b"NOT not[NOT not[= equal[column a;column b]]]",
    ),
    (b"NOT a AND b", b"AND and[NOT not[column a];column b]"),
    // CASE and CAST.
    (
        b"CASE WHEN a THEN 1 WHEN b THEN 2 ELSE 3 END",
        b"CASE case[column a:whole 1;column b:whole 2;else whole 3]",
    ),
    (
        b"CAST(CASE WHEN a THEN b END AS DECIMAL(10,2))",
        b"CAST cast[CASE case[column a:column b;];DECIMAL(10,2)]",
    ),
];

/// Types by their texts, in CAST.
const TYPES: [(&[u8], DataType); 12] = [
    (b"CAST(a AS boolean)", DataType::Boolean),
    (b"CAST(a AS TINYINT)", DataType::Byte),
    (b"CAST(a AS SMALLINT)", DataType::Short),
    (b"CAST(a AS INT)", DataType::Integer),
    (b"CAST(a AS BIGINT)", DataType::Long),
    (b"CAST(a AS STRING)", DataType::Str),
    (b"CAST(a AS BINARY)", DataType::Binary),
    (b"CAST(a AS DATE)", DataType::Date),
    (b"CAST(a AS TIMESTAMP)", DataType::Timestamp),
    (
        b"CAST(a AS DECIMAL(38,38))",
        DataType::Decimal {
            precision: 38,
            scale: 38,
        },
    ),
    (
        b"CAST(a AS DECIMAL(1,0))",
        DataType::Decimal {
            precision: 1,
            scale: 0,
        },
    ),
    (
        b"CAST(a AS DECIMAL(010,2))",
        DataType::Decimal {
            precision: 10,
            scale: 2,
        },
    ),
];

/// DECIMALs of a bad precision or scale.
const BAD_DECIMALS: [(&[u8], u128, u128); 4] = [
    (b"CAST(a AS DECIMAL(0,0))", 0, 0),
    (b"CAST(a AS DECIMAL(39,1))", 39, 1),
    (b"CAST(a AS DECIMAL(5,6))", 5, 6),
    (
        b"CAST(a AS DECIMAL(9223372036854775807,0))",
        9223372036854775807,
        0,
    ),
];

/// Columns, calls and literals, and the names, texts and bytes in them.
const CONTENTS: [(&[u8], &[u8]); 12] = [
    (b"Files", b"Files"),
    (b"`a``b`", b"a`b"),
    (b"`a b` . `c d`", b"a b.c d"),
    (b"date.Timestamp", b"date.Timestamp"),
    (b"`if`(1)", b"if"),
    (b"DATE()", b"DATE"),
    (b"'it''s'", b"it's"),
    (b"''", b""),
    (b"X'0aFf'", b"\x0a\xff"),
    (b"x''", b""),
    (b"DATE '2024-01-01'", b"2024-01-01"),
    (b"TIMESTAMP 'it''s no'", b"it's no"),
];

/// Numbers: without the point, their precision and their scale.
const NUMBERS: [(&[u8], (u128, usize, usize)); 4] = [
    (b"007", (7, 1, 0)),
    (b"9223372036854775808", (9223372036854775808, 19, 0)),
    (b"001.50", (150, 3, 2)),
    (b"0.00", (0, 2, 2)),
];

/// What is no expression, and where it goes wrong.
const NO_EXPRESSIONS: [(&[u8], u64); 42] = [
    (b"", 0),
    (b" -- a", 5),
    (b"a b", 2),
    (b"a = b = c", 6),
    (b"a < b <= c", 6),
    (b"a IS NULL IS NULL", 10),
    (b"a IS NOT 1", 9),
    (b"a NOT", 5),
    (b"a NOT = b", 6),
    (b"a NOT NOT IN (1)", 6),
    (b"NOT", 3),
    (b"a BETWEEN b OR c", 12),
    (b"a BETWEEN 1 AND 2 BETWEEN 3 AND 4", 18),
    (b"a IN ()", 6),
    (b"a IN (1,)", 8),
    (b"a IN 1", 5),
    (b"()", 1),
    (b"(a", 2),
    (b"(a, b)", 2),
    (b"f(a,)", 4),
    (b"f(", 2),
    (b"a.b.c", 3),
    (b"a.1", 2),
    (b"a.b(c)", 3),
    (b"a AND", 5),
    (b"a OR OR b", 5),
    (b"1 +", 3),
    (b"* a", 0),
    (b"SELECT", 0),
    (b"a.select", 2),
    (b"CASE ELSE a END", 5),
    (b"CASE WHEN a END", 12),
    (b"CASE WHEN a THEN b ELSE c WHEN d THEN e END", 26),
    (b"CAST(a, INT)", 6),
    (b"CAST(a AS TEXT)", 10),
    (b"CAST(a AS DECIMAL)", 17),
    (b"CAST(a AS DECIMAL(9223372036854775808,0))", 18),
    (b"CAST(a AS INT(1))", 13),
    // A date in backquotes is a name.
    (b"`DATE` 'a'", 7),
    // Where a bad token stands.
    (b"a + ?", 4),
    (b"a -- \xff\n+ b", 2),
    (b"'a", 0),
];

/// Bad tokens, each behind `a = `.
const BAD: [&[u8]; 12] = [
    b"'a",
    b"'\xff'",
    b"`a",
    b"``",
    b"`\xff`",
    b"X'0'",
    b"X'0g'",
    b"x'00",
    b"100000000000000000000000000000000000000",
    b"--\xff",
    b"/",
    b"\x00",
];

/// Scripts, and where each stops being one; the length, where it is one.
const SCRIPTS: [(&[u8], u64); 24] = [
    (b"", 0),
    (b" -- nothing", 11),
    (b"SHOW FILES t;", 13),
    (b"show files t ; delete FROM SHOW; -- done", 40),
    (b"SHOW FILES t", 12),
    (b"SHOW FILES t;;", 13),
    (b";", 0),
    (b"SHOW FILES", 10),
    (b"SHOW FILES ;", 11),
    (b"SHOW FILES t u;", 13),
    (b"SHOW FILES from--x\n;", 20),
    (b"SHOW FILES .t;", 11),
    (b"SHOW FILES `t`;", 11),
    (b"SHOW FILES t--;", 15),
    (b"SHOW FILESt;", 5),
    (b"SHOW IDENTITIES t;", 5),
    (b"INSERT INTO t VALUES (1);", 0),
    (b"DELETE t;", 7),
    (b"DELETE FROM t WHERE a;", 14),
    (b"DELETE FROM X'00;", 13),
    (b"DELETE FROM table_changes;", 26),
    (b"SHOW FILES t; -- \xff", 14),
    (b"SHOW FILES t; '", 14),
    (b"SHOW FILES t; SHOW FILES u; x", 28),
];

/// Scripts of one `SHOW ROWS`: its table, and the version that it asks for.
const SHOWN_ROWS: [(&[u8], &str, Option<u64>); 6] = [
    (b"SHOW ROWS t;", "t", None),
    (b"show rows t version as of 0;", "t", Some(0)),
    (b"SHOW ROWS Rows;", "Rows", None),
    (b"SHOW ROWS from VERSION AS OF 007;", "from", Some(7)),
    (
        b"SHOW ROWS version--\nversion as\nof 1;",
        "version",
        Some(1),
    ),
    (
        b"SHOW ROWS t VERSION AS OF 9223372036854775807;",
        "t",
        Some(9223372036854775807),
    ),
];

/// Scripts of a `SHOW ROWS` that goes wrong, and where.
const NO_ROWS: [(&[u8], u64); 20] = [
    (b"SHOW ROWS", 9),
    (b"SHOW ROWS;", 9),
    (b"SHOW ROWSt;", 5),
    (b"SHOW ROWS t", 11),
    (b"SHOW ROWS t u;", 12),
    (b"SHOW ROWS t AS OF 1;", 12),
    (b"SHOW ROWS t `version` AS OF 1;", 12),
    (b"SHOW ROWS t VERSION", 19),
    (b"SHOW ROWS t VERSION 1;", 20),
    (b"SHOW ROWS t VERSION OF 1;", 20),
    (b"SHOW ROWS t VERSION AS 1;", 23),
    (b"SHOW ROWS t VERSION AS OF;", 25),
    (b"SHOW ROWS t VERSION AS OF 1", 27),
    (b"SHOW ROWS t VERSION AS OF 1.0;", 26),
    (b"SHOW ROWS t VERSION AS OF -1;", 26),
    (b"SHOW ROWS t VERSION AS OF '1';", 26),
    (b"SHOW ROWS t VERSION AS OF 9223372036854775808;", 26),
    (b"SHOW ROWS t VERSION AS OF 1 AS OF 1;", 28),
    (b"SHOW ROWS t VERSION AS OF 1 VERSION AS OF 1;", 28),
    (b"SHOW FILES t VERSION AS OF 1;", 13),
];

/// The names, the text or the bytes of an expression.
fn content_of(alloc: Global, expr: &Expr) -> Result<Vec<u8>, AllocError> {
    let mut out = Vec::new(alloc);
    match expr {
        Expr::Column {
            qualifier,
            name,
            ..
        } => {
            if let Some(qualifier) = qualifier {
                out.extend_from_slice(qualifier.text.as_bytes())?;
                out.extend_from_slice(b".")?;
            }
            out.extend_from_slice(name.text.as_bytes())?;
        }
        Expr::Call { function, .. } => out.extend_from_slice(function.text.as_bytes())?,
        Expr::Literal { value, .. } => push_literal(value, &mut out)?,
        _ => {}
    }
    Ok(out)
}

fn push_literal(value: &Literal, out: &mut Vec<u8>) -> Result<(), AllocError> {
    match value {
        Literal::Text(text) | Literal::Date { text, .. } | Literal::Timestamp { text, .. } => {
            out.extend_from_slice(text.as_bytes())
        }
        Literal::Bytes(bytes) => out.extend_from_slice(bytes.as_slice()),
        _ => Ok(()),
    }
}

/// The number that an expression is.
fn number_of(expr: &Expr) -> Option<(u128, usize, usize)> {
    match expr {
        Expr::Literal {
            value: Literal::Whole(number) | Literal::Decimal(number),
            ..
        } => Some((number.unscaled, number.precision, number.scale)),
        _ => None,
    }
}

/// The type that an expression casts to.
fn wanted_of(expr: &Expr) -> Option<WrittenKind> {
    match expr {
        Expr::Cast { wanted, .. } => Some(wanted.kind),
        _ => None,
    }
}

/// How many bytes `show` writes of the expression.
fn shown_len(alloc: Global, bytes: &[u8]) -> Result<usize, AllocError> {
    let mut shown = Vec::new(alloc);
    if let Ok(expr) = read_expr(alloc, bytes) {
        show(bytes, &expr, &mut shown)?;
    }
    Ok(shown.len())
}

/// Where the bytes go wrong as an expression; their length, where they are one.
fn expr_place(alloc: Global, bytes: &[u8]) -> Option<u64> {
    match read_expr(alloc, bytes) {
        Ok(_) => Some(bytes.len() as u64),
        Err(ScriptFault::BadScript { at }) => Some(at),
        Err(ScriptFault::Memory) => None,
    }
}

/// The same, as a script.
pub(super) fn script_place(alloc: Global, bytes: &[u8]) -> Option<u64> {
    match read_script(alloc, bytes) {
        Ok(_) => Some(bytes.len() as u64),
        Err(ScriptFault::BadScript { at }) => Some(at),
        Err(ScriptFault::Memory) => None,
    }
}

/// Whether the bytes are one statement, which asks for these rows.
fn asks_for_rows(alloc: Global, bytes: &[u8], name: &str, wanted: Option<u64>) -> bool {
    let Ok(statements) = read_script(alloc, bytes) else {
        return false;
    };
    match statements.as_slice() {
        [Stmt::ShowRows { table, version }] => table.text.is(name) && *version == wanted,
        _ => false,
    }
}

/// Adds the part as often.
pub(super) fn repeat(out: &mut Vec<u8>, part: &[u8], count: usize) -> Result<(), AllocError> {
    for _ in 0..count {
        out.extend_from_slice(part)?;
    }
    Ok(())
}

#[test]
fn expressions_have_their_trees(rt: HostRuntime) -> Result<(), Fail> {
    let alloc = rt.alloc();
    for (bytes, tree) in TREES {
        let mut shown = Vec::new(alloc);
        if let Ok(expr) = read_expr(alloc, bytes) {
            assert_eq!(rt; (expr.span().start, expr.span().end), (0, bytes.len()));
            show(bytes, &expr, &mut shown)?;
        }
        assert_eq!(rt; shown.as_slice(), tree);
    }
    Ok(())
}

fn type_at(alloc: Global, bytes: &[u8]) -> Option<DataType> {
    let Ok(expr) = read_expr(alloc, bytes) else {
        return None;
    };
    match wanted_of(&expr) {
        Some(WrittenKind::Type(found)) => Some(found),
        _ => None,
    }
}

fn bad_decimal_at(alloc: Global, bytes: &[u8]) -> Option<(u128, u128)> {
    let Ok(expr) = read_expr(alloc, bytes) else {
        return None;
    };
    match wanted_of(&expr) {
        Some(WrittenKind::BadDecimal { precision, scale }) => Some((precision, scale)),
        _ => None,
    }
}

fn number_at(alloc: Global, bytes: &[u8]) -> Option<(u128, usize, usize)> {
    match read_expr(alloc, bytes) {
        Ok(expr) => number_of(&expr),
        Err(_) => None,
    }
}

fn content_at(alloc: Global, bytes: &[u8]) -> Result<Vec<u8>, AllocError> {
    match read_expr(alloc, bytes) {
        Ok(expr) => content_of(alloc, &expr),
        Err(_) => Vec::from_slice(alloc, b"no expression"),
    }
}

#[test]
fn trees_have_their_texts(rt: HostRuntime) -> Result<(), Fail> {
    for (bytes, wanted) in CONTENTS {
        assert_eq!(rt; content_at(rt.alloc(), bytes)?.as_slice(), wanted);
    }
    Ok(())
}

#[test]
fn trees_have_their_numbers(rt: HostRuntime) -> Result<(), Fail> {
    for (bytes, wanted) in NUMBERS {
        assert_eq!(rt; number_at(rt.alloc(), bytes), Some(wanted));
    }
    Ok(())
}

#[test]
fn trees_have_their_types(rt: HostRuntime) -> Result<(), Fail> {
    for (bytes, wanted) in TYPES {
        assert_eq!(rt; type_at(rt.alloc(), bytes), Some(wanted));
    }
    Ok(())
}

#[test]
fn trees_keep_bad_decimals(rt: HostRuntime) -> Result<(), Fail> {
    for (bytes, precision, scale) in BAD_DECIMALS {
        assert_eq!(rt; bad_decimal_at(rt.alloc(), bytes), Some((precision, scale)));
    }
    Ok(())
}

#[test]
fn faults_have_their_places(rt: HostRuntime) -> Result<(), Fail> {
    let alloc = rt.alloc();
    for (bytes, place) in NO_EXPRESSIONS {
        assert_eq!(rt; expr_place(alloc, bytes), Some(place));
    }
    for token in BAD {
        let mut bytes = Vec::from_slice(alloc, b"a = ")?;
        bytes.extend_from_slice(token)?;
        assert_eq!(rt; expr_place(alloc, bytes.as_slice()), Some(4));
    }
    for (bytes, place) in SCRIPTS {
        assert_eq!(rt; script_place(alloc, bytes), Some(place));
    }
    Ok(())
}

#[test]
fn rows_are_asked_for(rt: HostRuntime) -> Result<(), Fail> {
    for (bytes, name, version) in SHOWN_ROWS {
        assert!(rt; asks_for_rows(rt.alloc(), bytes, name, version));
    }
    for (bytes, place) in NO_ROWS {
        assert_eq!(rt; script_place(rt.alloc(), bytes), Some(place));
    }
    Ok(())
}

#[test]
fn limits_are_exact(rt: HostRuntime) -> Result<(), Fail> {
    let alloc = rt.alloc();
    // 1,000 tokens, and one more.
    let mut nots = Vec::new(alloc);
    repeat(&mut nots, b"NOT ", 999)?;
    nots.extend_from_slice(b"a")?;
    assert_eq!(rt; expr_place(alloc, nots.as_slice()), Some(3997));
    assert_eq!(rt; shown_len(alloc, nots.as_slice())?, 999 * 9 + 8);
    nots.extend_from_slice(b" + 1")?;
    assert_eq!(rt; expr_place(alloc, nots.as_slice()), Some(3998));
    let mut sums = Vec::from_slice(alloc, b"1")?;
    repeat(&mut sums, b" + 1", 500)?;
    assert_eq!(rt; expr_place(alloc, sums.as_slice()), Some(2000));
    // 64 that are open, and one more of each kind.
    let ends: [(&[u8], u64); 8] = [
        (b"a", 64),
        (b"(a", 64),
        (b"f(a", 65),
        (b"f()", 65),
        (b"CASE WHEN a", 64),
        (b"a IN (1", 69),
        (b"CAST(a", 68),
        (b"a.b", 67),
    ];
    for (end, place) in ends {
        let mut bytes = Vec::new(alloc);
        repeat(&mut bytes, b"(", 64)?;
        bytes.extend_from_slice(end)?;
        let wanted = if end.len() == 1 { 65 } else { place };
        assert_eq!(rt; expr_place(alloc, bytes.as_slice()), Some(wanted));
    }
    let mut cases = Vec::new(alloc);
    repeat(&mut cases, b"CASE WHEN ", 63)?;
    cases.extend_from_slice(b"CAST(a AS DECIMAL(")?;
    assert_eq!(rt; expr_place(alloc, cases.as_slice()), Some(647));
    Ok(())
}

#[test]
fn long_scripts_are_read(rt: HostRuntime) -> Result<(), Fail> {
    let alloc = rt.alloc();
    let mut script = Vec::new(alloc);
    repeat(&mut script, b"SHOW FILES t;DELETE FROM t;\n", 37449)?;
    assert_eq!(rt; script.len(), 1_048_572);
    match read_script(alloc, script.as_slice()) {
        Ok(statements) => {
            assert_eq!(rt; statements.len(), 74898);
            let second = match statements.get(1) {
                Stmt::Delete { table } if table.text.is("t") => Some(table.span.start),
                _ => None,
            };
            assert_eq!(rt; second, Some(25));
        }
        Err(_) => assert!(rt; false, "no script"),
    }
    Ok(())
}
