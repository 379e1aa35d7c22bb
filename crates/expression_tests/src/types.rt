// Types of expressions: each operator over each pair of types, each rule with its place.
use super::shown::{push_kind, put, show};
use super::tables::{
    ASSIGNED, ASSIGNMENTS, BOTH_SIDES, CASTS, COMMON, COMPARISONS, CONDITIONS, JOINS, OPERANDS,
    PRODUCTS, QUOTIENTS, REMAINDERS, SUMS, TREES, TRUTHS, TYPES,
};
use dm_types::{DataType, Text};
use sql_reader::read_expr;
use std::alloc::{AllocError, Global};
use std::test::Fail;
use typed_expr::{
    Scope, ScopeColumn, TypeFault, TypedExpr, type_assignment, type_condition, type_expr,
};

fn column(
    alloc: Global,
    qualifier: &str,
    name: &str,
    kind: DataType,
) -> Result<ScopeColumn, AllocError> {
    Ok(ScopeColumn {
        qualifier: Text::from_str(alloc, qualifier)?,
        name: Text::from_str(alloc, name)?,
        kind,
        nullable: true,
    })
}

fn scope_of(alloc: Global, columns: &[(&str, &str, DataType)]) -> Result<Scope, AllocError> {
    let mut scope = Scope::new(alloc);
    for (qualifier, name, kind) in columns {
        scope.push(column(alloc, *qualifier, *name, *kind)?)?;
    }
    Ok(scope)
}

/// A column of each type.
fn one_side(alloc: Global) -> Result<Scope, AllocError> {
    scope_of(
        alloc,
        &[
            ("t", "b", DataType::Boolean),
            ("t", "y", DataType::Byte),
            ("t", "s", DataType::Short),
            ("t", "i", DataType::Integer),
            ("t", "l", DataType::Long),
            (
                "t",
                "d",
                DataType::Decimal {
                    precision: 10,
                    scale: 2,
                },
            ),
            (
                "t",
                "e",
                DataType::Decimal {
                    precision: 38,
                    scale: 10,
                },
            ),
            ("t", "t", DataType::Str),
            ("t", "x", DataType::Binary),
            ("t", "a", DataType::Date),
            ("t", "m", DataType::Timestamp),
        ],
    )
}

/// The columns of a MERGE's target and of its source.
fn two_sides(alloc: Global) -> Result<Scope, AllocError> {
    scope_of(
        alloc,
        &[
            ("T", "k", DataType::Integer),
            ("T", "v", DataType::Str),
            ("s", "k", DataType::Long),
            ("s", "w", DataType::Str),
        ],
    )
}

fn push_digits(number: u64, out: &mut Vec<u8>) -> Result<(), AllocError> {
    if number >= 10 {
        out.push(b'0' + (number / 10 % 10) as u8)?;
    }
    put(b'0' + (number % 10) as u8, out)
}

fn push_fault(fault: TypeFault, out: &mut Vec<u8>) -> Result<(), AllocError> {
    match fault {
        TypeFault::Rule { rule, at } => {
            push_digits(u64::from(rule), out)?;
            out.extend_from_slice(b" at ")?;
            push_digits(at, out)
        }
        TypeFault::Memory => out.extend_from_slice(b"memory"),
    }
}

/// The typed tree of a text, or the broken rule and its place.
fn tree_of(alloc: Global, scope: &Scope, text: &[u8]) -> Result<Vec<u8>, AllocError> {
    let mut out = Vec::new(alloc);
    let Ok(expr) = read_expr(alloc, text) else {
        return Vec::from_slice(alloc, b"no expression");
    };
    match type_expr(alloc, scope, &expr) {
        Ok(tree) => show(&tree, &mut out)?,
        Err(fault) => push_fault(fault, &mut out)?,
    }
    Ok(out)
}

/// A word for an expression: its type, `!` for rule 4, a point for another rule.
fn push_word(
    alloc: Global,
    scope: &Scope,
    text: &[u8],
    out: &mut Vec<u8>,
) -> Result<(), AllocError> {
    let Ok(expr) = read_expr(alloc, text) else {
        return put(b'?', out);
    };
    match type_expr(alloc, scope, &expr) {
        Ok(tree) => push_kind(tree.kind(), out),
        Err(TypeFault::Rule { rule: 4, .. }) => put(b'!', out),
        Err(_) => put(b'.', out),
    }
}

/// A piece of an expression's text.
type Piece = &'static [u8];

/// What stands before, between and behind two operands.
type Form = (Piece, Piece, Piece);

/// The parts, one behind the other.
fn joined(alloc: Global, parts: &[Piece]) -> Result<Vec<u8>, AllocError> {
    let mut text = Vec::new(alloc);
    for part in parts {
        text.extend_from_slice(*part)?;
    }
    Ok(text)
}

/// The words of a left operand beside each right one.
fn line_of(alloc: Global, scope: &Scope, form: Form, left: Piece) -> Result<Vec<u8>, AllocError> {
    let (before, between, behind) = form;
    let mut out = Vec::new(alloc);
    for right in OPERANDS {
        if !out.is_empty() {
            out.push(b' ')?;
        }
        let text = joined(alloc, &[before, left, between, right, behind])?;
        push_word(alloc, scope, text.as_slice(), &mut out)?;
    }
    Ok(out)
}

/// The first line of a table that isn't what the form gives.
fn first_wrong(alloc: Global, form: Form, table: &[Piece]) -> Result<Option<usize>, AllocError> {
    let scope = one_side(alloc)?;
    for (place, wanted) in table.iter().enumerate() {
        let Some(left) = OPERANDS.get(place) else {
            return Ok(Some(place));
        };
        if line_of(alloc, &scope, form, *left)?.as_slice() != *wanted {
            return Ok(Some(place));
        }
    }
    Ok(None)
}

fn operator_wrong(
    alloc: Global,
    operator: Piece,
    table: &[Piece],
) -> Result<Option<usize>, AllocError> {
    first_wrong(alloc, (b"", operator, b""), table)
}

#[test]
fn arithmetic_goes_by_its_tables(rt: HostRuntime) -> Result<(), Fail> {
    let alloc = rt.alloc();
    assert_eq!(rt; operator_wrong(alloc, b" + ", &SUMS)?, None);
    assert_eq!(rt; operator_wrong(alloc, b" - ", &SUMS)?, None);
    assert_eq!(rt; operator_wrong(alloc, b" * ", &PRODUCTS)?, None);
    assert_eq!(rt; operator_wrong(alloc, b" DIV ", &QUOTIENTS)?, None);
    assert_eq!(rt; operator_wrong(alloc, b" % ", &REMAINDERS)?, None);
    Ok(())
}

#[test]
fn tests_go_by_their_tables(rt: HostRuntime) -> Result<(), Fail> {
    let alloc = rt.alloc();
    assert_eq!(rt; operator_wrong(alloc, b" || ", &JOINS)?, None);
    assert_eq!(rt; operator_wrong(alloc, b" AND ", &TRUTHS)?, None);
    assert_eq!(rt; operator_wrong(alloc, b" OR ", &TRUTHS)?, None);
    Ok(())
}

/// Comparisons.
const COMPARING: [&[u8]; 8] = [
    b" = ", b" <> ", b" != ", b" < ", b" <= ", b" > ", b" >= ", b" <=> ",
];

#[test]
fn comparisons_go_by_their_table(rt: HostRuntime) -> Result<(), Fail> {
    let alloc = rt.alloc();
    for operator in COMPARING {
        assert_eq!(rt; operator_wrong(alloc, operator, &COMPARISONS)?, None);
    }
    assert_eq!(rt;
        first_wrong(alloc, (b"", b" IN (", b")"), &COMPARISONS)?,
        None
    );
    Ok(())
}

#[test]
fn branches_have_the_common_type(rt: HostRuntime) -> Result<(), Fail> {
    assert_eq!(rt;
        first_wrong(rt.alloc(), (b"COALESCE(", b", ", b")"), &COMMON)?,
        None
    );
    Ok(())
}

/// What an operand is cast to: `+` where each type is allowed.
fn cast_line(alloc: Global, scope: &Scope, operand: Piece) -> Result<Vec<u8>, AllocError> {
    let mut out = Vec::new(alloc);
    for kind in TYPES {
        if !out.is_empty() {
            out.push(b' ')?;
        }
        let text = joined(alloc, &[b"CAST(", operand, b" AS ", kind, b")"])?;
        out.push(if is_typed(alloc, scope, text.as_slice()) {
            b'+'
        } else {
            b'.'
        })?;
    }
    Ok(out)
}

fn is_typed(alloc: Global, scope: &Scope, text: &[u8]) -> bool {
    match read_expr(alloc, text) {
        Ok(expr) => type_expr(alloc, scope, &expr).is_ok(),
        Err(_) => false,
    }
}

fn is_assigned(alloc: Global, scope: &Scope, text: &[u8], kind: &DataType) -> bool {
    match read_expr(alloc, text) {
        Ok(expr) => match type_assignment(alloc, scope, &expr, kind) {
            Ok(tree) => tree.kind() == *kind,
            Err(_) => false,
        },
        Err(_) => false,
    }
}

/// To which columns of the scope an operand is assigned.
fn assignment_line(alloc: Global, scope: &Scope, operand: &[u8]) -> Result<Vec<u8>, AllocError> {
    let mut out = Vec::new(alloc);
    for column in scope.as_slice() {
        if !out.is_empty() {
            out.push(b' ')?;
        }
        out.push(if is_assigned(alloc, scope, operand, &column.kind) {
            b'+'
        } else {
            b'.'
        })?;
    }
    Ok(out)
}

#[test]
fn casts_go_by_their_table(rt: HostRuntime) -> Result<(), Fail> {
    let alloc = rt.alloc();
    let scope = one_side(alloc)?;
    for (place, wanted) in CASTS.iter().enumerate() {
        if let Some(operand) = OPERANDS.get(place) {
            assert_eq!(rt; cast_line(alloc, &scope, *operand)?.as_slice(), *wanted);
        }
    }
    Ok(())
}

#[test]
fn assignments_go_by_their_table(rt: HostRuntime) -> Result<(), Fail> {
    let alloc = rt.alloc();
    let scope = one_side(alloc)?;
    for (place, wanted) in ASSIGNMENTS.iter().enumerate() {
        if let Some(operand) = OPERANDS.get(place) {
            assert_eq!(rt;
                assignment_line(alloc, &scope, *operand)?.as_slice(),
                *wanted
            );
        }
    }
    Ok(())
}

#[test]
fn expressions_have_their_types(rt: HostRuntime) -> Result<(), Fail> {
    let alloc = rt.alloc();
    let scope = one_side(alloc)?;
    for (text, wanted) in TREES {
        assert_eq!(rt; tree_of(alloc, &scope, text)?.as_slice(), wanted);
    }
    Ok(())
}

/// The typed tree of a text that is assigned to an INT, or the broken rule and its place.
fn assigned_of(alloc: Global, scope: &Scope, text: &[u8]) -> Result<Vec<u8>, AllocError> {
    let mut out = Vec::new(alloc);
    let Ok(expr) = read_expr(alloc, text) else {
        return Vec::from_slice(alloc, b"no expression");
    };
    match type_assignment(alloc, scope, &expr, &DataType::Integer) {
        Ok(tree) => show(&tree, &mut out)?,
        Err(fault) => push_fault(fault, &mut out)?,
    }
    Ok(out)
}

#[test]
fn assignments_are_cast(rt: HostRuntime) -> Result<(), Fail> {
    let alloc = rt.alloc();
    let scope = one_side(alloc)?;
    for (text, wanted) in ASSIGNED {
        assert_eq!(rt; assigned_of(alloc, &scope, text)?.as_slice(), wanted);
    }
    Ok(())
}

#[test]
fn a_merge_sees_both_sides(rt: HostRuntime) -> Result<(), Fail> {
    let alloc = rt.alloc();
    let scope = two_sides(alloc)?;
    for (text, wanted) in BOTH_SIDES {
        assert_eq!(rt; tree_of(alloc, &scope, text)?.as_slice(), wanted);
    }
    Ok(())
}

/// The conjuncts of a condition, or the broken rule and its place.
fn conjuncts_of(alloc: Global, scope: &Scope, text: &[u8]) -> Result<Vec<u8>, AllocError> {
    let mut out = Vec::new(alloc);
    let Ok(expr) = read_expr(alloc, text) else {
        return Vec::from_slice(alloc, b"no expression");
    };
    match type_condition(alloc, scope, &expr) {
        Ok(conjuncts) => show_conjuncts(conjuncts.as_slice(), &mut out)?,
        Err(fault) => push_fault(fault, &mut out)?,
    }
    Ok(out)
}

fn show_conjuncts(conjuncts: &[TypedExpr], out: &mut Vec<u8>) -> Result<(), AllocError> {
    for conjunct in conjuncts {
        show(conjunct, out)?;
        out.push(b';')?;
    }
    Ok(())
}

#[test]
fn conditions_have_their_conjuncts(rt: HostRuntime) -> Result<(), Fail> {
    let alloc = rt.alloc();
    let scope = one_side(alloc)?;
    for (text, wanted) in CONDITIONS {
        assert_eq!(rt; conjuncts_of(alloc, &scope, text)?.as_slice(), wanted);
    }
    Ok(())
}

/// A text, so often a part, another text and so often another part.
fn repeated(
    alloc: Global,
    count: usize,
    before: &[u8],
    middle: &[u8],
    behind: &[u8],
) -> Result<Vec<u8>, AllocError> {
    let mut text = Vec::new(alloc);
    for _ in 0..count {
        text.extend_from_slice(before)?;
    }
    text.extend_from_slice(middle)?;
    for _ in 0..count {
        text.extend_from_slice(behind)?;
    }
    Ok(text)
}

#[test]
fn the_longest_and_the_deepest_are_typed(rt: HostRuntime) -> Result<(), Fail> {
    let alloc = rt.alloc();
    let scope = one_side(alloc)?;
    let longest = repeated(alloc, 999, b"NOT ", b"b", b"")?;
    assert_eq!(rt; is_typed(alloc, &scope, longest.as_slice()), true);
    let deepest = repeated(alloc, 64, b"(1 + ", b"i", b")")?;
    assert_eq!(rt; is_typed(alloc, &scope, deepest.as_slice()), true);
    Ok(())
}
