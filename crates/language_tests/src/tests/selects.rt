// SELECTs with their trees, by hand; places of what is none.
use super::shown::show;
use super::trees::{repeat, script_place};
use sql_reader::{Expr, SelectItem, SelectItems, Stmt, read_script};
use std::alloc::{AllocError, Global};
use std::test::Fail;

/// Scripts of one SELECT: what it asks for, as a text, and its version.
const SELECTS: [(&[u8], &[u8], Option<u64>); 8] = [
    (b"SELECT * FROM t;", b"* FROM t", None),
    (
        b"SELECT k, v AS w FROM t VERSION AS OF 3 WHERE k % 10 = 3;",
        b"column k;column v AS w; FROM t WHERE = equal[% remainder[column k;whole 10];whole 3]",
        Some(3),
    ),
    (
        b"SELECT k AS `a``b` FROM t;",
        b"column k AS a`b; FROM t",
        None,
    ),
    (
        b"select 1 as version, files from select where true;",
        b"whole 1 AS version;column files; FROM select WHERE true true",
        None,
    ),
    (
        b"SELECT f(a, b) AS c, d FROM t--\nversion as of 0;",
        b"call f[column a;column b;] AS c;column d; FROM t",
        Some(0),
    ),
    (
        b"SELECT a OR b AS c FROM table_changes WHERE NOT d;",
        b"OR or[column a;column b] AS c; FROM table_changes WHERE NOT not[column d]",
        None,
    ),
    (
        b"SELECT -a * b FROM version VERSION AS OF 9223372036854775807;",
        b"* times[- minus[column a];column b]; FROM version",
        Some(9223372036854775807),
    ),
    (
        b"SELECT CASE WHEN a THEN b END, CAST(a AS INT) AS int FROM t WHERE a IN (1, 2);",
        b"CASE case[column a:column b;];CAST cast[column a;INT] AS int; FROM t WHERE IN in[column a;whole 1;whole 2;]",
        None,
    ),
];

/// Scripts of a SELECT that goes wrong, and where.
const NO_SELECTS: [(&[u8], u64); 29] = [
    (b"SELECT", 6),
    (b"SELECT;", 6),
    (b"SELECT FROM t;", 7),
    (b"SELECT *;", 8),
    (b"SELECT k;", 8),
    (b"SELECT k, FROM t;", 10),
    (b"SELECT *, k FROM t;", 8),
    (b"SELECT k, * FROM t;", 10),
    (b"SELECT * k FROM t;", 9),
    (b"SELECT * AS a FROM t;", 9),
    // An alias is a name behind AS.
    (b"SELECT k w FROM t;", 9),
    (b"SELECT k AS FROM t;", 12),
    (b"SELECT k AS select FROM t;", 12),
    (b"SELECT k AS 'w' FROM t;", 12),
    (b"SELECT k AS a.b FROM t;", 13),
    // The table, its version and the condition, in this order and once each.
    (b"SELECT * FROM;", 13),
    (b"SELECT * FROM (t);", 14),
    (b"SELECT * FROM t", 15),
    (b"SELECT * FROM t u;", 16),
    (b"SELECT * FROM t, u;", 15),
    (b"SELECT * FROM t AS OF 3;", 16),
    (b"SELECT * FROM t VERSION AS OF k;", 30),
    (b"SELECT k FROM t WHERE;", 21),
    (b"SELECT k FROM t WHERE *;", 22),
    (b"SELECT * FROM t WHERE a WHERE b;", 24),
    (b"SELECT * FROM t WHERE k VERSION AS OF 3;", 24),
    // What isn't built.
    (b"SELECT (SELECT k FROM t) FROM t;", 8),
    (b"SELECT * FROM table_changes('t', 1, 2);", 27),
    (b"SELECT * FROM t; SELECT k v FROM t;", 26),
];

fn show_items(bytes: &[u8], items: &[SelectItem], out: &mut Vec<u8>) -> Result<(), AllocError> {
    for item in items {
        show(bytes, &item.expr, out)?;
        if let Some(alias) = &item.alias {
            out.extend_from_slice(b" AS ")?;
            out.extend_from_slice(alias.text.as_bytes())?;
        }
        out.extend_from_slice(b";")?;
    }
    Ok(())
}

fn show_condition(
    bytes: &[u8],
    condition: &Option<Expr>,
    out: &mut Vec<u8>,
) -> Result<(), AllocError> {
    if let Some(expr) = condition {
        out.extend_from_slice(b" WHERE ")?;
        show(bytes, expr, out)?;
    }
    Ok(())
}

/// A SELECT as a text, and its version; nothing where the statement is another.
fn shown_select(
    alloc: Global,
    bytes: &[u8],
    stmt: &Stmt,
) -> Result<(Vec<u8>, Option<u64>), AllocError> {
    let mut out = Vec::new(alloc);
    let Stmt::Select {
        items,
        table,
        version,
        condition,
    } = stmt
    else {
        return Ok((out, None));
    };
    match items {
        SelectItems::All => out.extend_from_slice(b"*")?,
        SelectItems::Listed(listed) => show_items(bytes, listed.as_slice(), &mut out)?,
    }
    out.extend_from_slice(b" FROM ")?;
    out.extend_from_slice(table.text.as_bytes())?;
    show_condition(bytes, condition, &mut out)?;
    Ok((out, *version))
}

/// The same, of bytes that are one statement.
fn asked_for(alloc: Global, bytes: &[u8]) -> Result<(Vec<u8>, Option<u64>), AllocError> {
    let Ok(statements) = read_script(alloc, bytes) else {
        return Ok((Vec::new(alloc), None));
    };
    match statements.as_slice() {
        [stmt] => shown_select(alloc, bytes, stmt),
        _ => Ok((Vec::new(alloc), None)),
    }
}

#[test]
fn selects_have_their_trees(rt: HostRuntime) -> Result<(), Fail> {
    for (bytes, wanted, version) in SELECTS {
        let (shown, asked) = asked_for(rt.alloc(), bytes)?;
        assert_eq!(rt; shown.as_slice(), wanted);
        assert_eq!(rt; asked, version);
    }
    Ok(())
}

#[test]
fn faults_of_selects_have_their_places(rt: HostRuntime) -> Result<(), Fail> {
    for (bytes, place) in NO_SELECTS {
        assert_eq!(rt; script_place(rt.alloc(), bytes), Some(place));
    }
    Ok(())
}

/// A front, a part that is repeated, and an end.
fn script_of(
    alloc: Global,
    front: &[u8],
    part: &[u8],
    count: usize,
    end: &[u8],
) -> Result<Vec<u8>, AllocError> {
    let mut script = Vec::from_slice(alloc, front)?;
    repeat(&mut script, part, count)?;
    script.extend_from_slice(end)?;
    Ok(script)
}

#[test]
fn each_expression_has_its_own_limits(rt: HostRuntime) -> Result<(), Fail> {
    let alloc = rt.alloc();
    // The 65th bracket that is open, in an item and in the condition.
    let brackets = script_of(alloc, b"SELECT ", b"(", 65, b"a")?;
    assert_eq!(rt; script_place(alloc, brackets.as_slice()), Some(71));
    let brackets = script_of(alloc, b"SELECT (a) FROM t WHERE ", b"(", 65, b"a")?;
    assert_eq!(rt; script_place(alloc, brackets.as_slice()), Some(88));
    // The 1,001st token.
    let sums = script_of(alloc, b"SELECT 1", b" + 1", 500, b" FROM t;")?;
    assert_eq!(rt; script_place(alloc, sums.as_slice()), Some(2007));
    let sums = script_of(alloc, b"SELECT 1 FROM t WHERE 1", b" + 1", 500, b";")?;
    assert_eq!(rt; script_place(alloc, sums.as_slice()), Some(2022));
    // Two items and a condition of 600 tokens each.
    let mut nots = script_of(alloc, b"SELECT ", b"NOT ", 599, b"a, ")?;
    repeat(&mut nots, b"NOT ", 599)?;
    nots.extend_from_slice(b"b FROM t WHERE ")?;
    repeat(&mut nots, b"NOT ", 599)?;
    nots.extend_from_slice(b"c;")?;
    assert_eq!(rt;
        script_place(alloc, nots.as_slice()),
        Some(nots.len() as u64)
    );
    let (shown, _) = asked_for(alloc, nots.as_slice())?;
    assert_eq!(rt; shown.len(), 3 * (599 * 9 + 8) + 2 + 14);
    Ok(())
}
