// Values of expressions: each form and each cast, with nulls and the ends of ranges.
ghost use Rattle.evaluation_tests.specs.Given.{IsGiven};
ghost use Rattle.typed_expr.specs.Fits.{Fits, kinds_in};

use super::fixture::{Given, given_columns};
use super::tables::{
    ARITHMETIC, CASTS, CASTS_OF_NULL, CASTS_OF_NUMBERS, CHOICES, COLUMNS, COMPARISONS, Case,
    DECIMALS, FUNCTIONS, LOGIC, WORKED,
};
use dm_text::print_field;
use dm_types::Bytes;
use sql_reader::read_expr;
use std::alloc::{AllocError, Global};
use std::test::Fail;
use typed_expr::{TypedExpr, type_expr};
use vector_eval::{EvalFault, eval_row};

/// The value on the row as a field of a line, or the kind of the error.
fn push_value(
    alloc: Global,
    given: &Given,
    tree: &TypedExpr,
    out: &mut Bytes,
) -> Result<(), AllocError>
    requires given { IsGiven given.now.scope given.now.row }
    requires fits { Fits (kinds_in given.now.scope) tree.now }
{
    match eval_row(alloc, tree, &given.row) {
        Ok(value) => print_field(&value, &tree.kind(), out),
        Err(EvalFault::Kind(kind)) => {
            out.extend_from_slice(b"error ")?;
            out.push(b'0' + kind.number())
        }
        Err(EvalFault::Memory) => out.extend_from_slice(b"memory"),
    }
}

/// What an expression comes to on the row.
fn shown(alloc: Global, given: &Given, text: &[u8]) -> Result<Bytes, AllocError>
    requires { IsGiven given.now.scope given.now.row }
{
    let mut out = Bytes::new(alloc);
    let Ok(expr) = read_expr(alloc, text) else {
        out.extend_from_slice(b"no expression")?;
        return Ok(out);
    };
    match type_expr(alloc, &given.scope, &expr) {
        Ok(tree) => push_value(alloc, given, &tree, &mut out)?,
        Err(_) => out.extend_from_slice(b"no type")?,
    }
    Ok(out)
}

/// The first line of a table that isn't what the expression comes to, with what it comes to.
fn wrong(alloc: Global, table: &[Case]) -> Result<Bytes, AllocError> {
    let given = given_columns(alloc)?;
    let mut line = Bytes::new(alloc);
    for (text, wanted) in table {
        let value = shown(alloc, &given, *text)?;
        if value.as_slice() != *wanted {
            line.extend_from_slice(*text)?;
            line.extend_from_slice(b" is ")?;
            line.extend_from_slice(value.as_slice())?;
            return Ok(line);
        }
    }
    Ok(line)
}

#[test]
fn columns_are_looked_up(rt: HostRuntime) -> Result<(), Fail> {
    assert_eq!(rt; wrong(rt.alloc(), &COLUMNS)?.as_slice(), b"".as_slice());
    Ok(())
}

#[test]
fn the_worked_row_is_met(rt: HostRuntime) -> Result<(), Fail> {
    assert_eq!(rt; wrong(rt.alloc(), &WORKED)?.as_slice(), b"".as_slice());
    Ok(())
}

#[test]
fn arithmetic_keeps_its_ranges(rt: HostRuntime) -> Result<(), Fail> {
    assert_eq!(rt; wrong(rt.alloc(), &ARITHMETIC)?.as_slice(), b"".as_slice());
    Ok(())
}

#[test]
fn decimals_are_exact(rt: HostRuntime) -> Result<(), Fail> {
    assert_eq!(rt; wrong(rt.alloc(), &DECIMALS)?.as_slice(), b"".as_slice());
    Ok(())
}

#[test]
fn comparisons_go_by_values(rt: HostRuntime) -> Result<(), Fail> {
    assert_eq!(rt; wrong(rt.alloc(), &COMPARISONS)?.as_slice(), b"".as_slice());
    Ok(())
}

#[test]
fn logic_has_three_values(rt: HostRuntime) -> Result<(), Fail> {
    assert_eq!(rt; wrong(rt.alloc(), &LOGIC)?.as_slice(), b"".as_slice());
    Ok(())
}

#[test]
fn choices_stop(rt: HostRuntime) -> Result<(), Fail> {
    assert_eq!(rt; wrong(rt.alloc(), &CHOICES)?.as_slice(), b"".as_slice());
    Ok(())
}

#[test]
fn numbers_are_cast(rt: HostRuntime) -> Result<(), Fail> {
    assert_eq!(rt;
        wrong(rt.alloc(), &CASTS_OF_NUMBERS)?.as_slice(),
        b"".as_slice()
    );
    Ok(())
}

#[test]
fn nulls_are_cast_to_nulls(rt: HostRuntime) -> Result<(), Fail> {
    assert_eq!(rt;
        wrong(rt.alloc(), &CASTS_OF_NULL)?.as_slice(),
        b"".as_slice()
    );
    Ok(())
}

#[test]
fn texts_and_days_are_cast(rt: HostRuntime) -> Result<(), Fail> {
    assert_eq!(rt; wrong(rt.alloc(), &CASTS)?.as_slice(), b"".as_slice());
    Ok(())
}

#[test]
fn functions_are_called(rt: HostRuntime) -> Result<(), Fail> {
    assert_eq!(rt; wrong(rt.alloc(), &FUNCTIONS)?.as_slice(), b"".as_slice());
    Ok(())
}

/// A text, so often a part and then another text.
fn repeated(alloc: Global, count: usize, part: &[u8], last: &[u8]) -> Result<Vec<u8>, AllocError> {
    let mut text = Vec::new(alloc);
    for _ in 0..count {
        text.extend_from_slice(part)?;
    }
    text.extend_from_slice(last)?;
    Ok(text)
}

/// What the row comes to in an expression of so many parts.
fn shown_of(alloc: Global, count: usize, part: &[u8], last: &[u8]) -> Result<Bytes, AllocError> {
    let given = given_columns(alloc)?;
    let text = repeated(alloc, count, part, last)?;
    shown(alloc, &given, text.as_slice())
}

/// A part that stands 999 times, what stands behind it, and the value.
const DEEPEST: [(&[u8], &[u8], &[u8]); 4] = [
    (b"NOT ", b"b", b"false"),
    (b"- ", b"i", b"-7"),
    (b"+", b"i", b"7"),
    (b"NOT ", b"c", b"\\N"),
];

/// The same, 499 times.
const LONGEST: [(&[u8], &[u8], &[u8]); 3] = [
    (b"i + ", b"i", b"3500"),
    (b"c OR ", b"b", b"true"),
    (b"t || ", b"NULL", b"\\N"),
];

#[test]
fn the_deepest_are_evaluated(rt: HostRuntime) -> Result<(), Fail> {
    let alloc = rt.alloc();
    for (part, last, value) in DEEPEST {
        assert_eq!(rt; shown_of(alloc, 999, part, last)?.as_slice(), value);
    }
    Ok(())
}

#[test]
fn the_longest_are_evaluated(rt: HostRuntime) -> Result<(), Fail> {
    let alloc = rt.alloc();
    for (part, last, value) in LONGEST {
        assert_eq!(rt; shown_of(alloc, 499, part, last)?.as_slice(), value);
    }
    Ok(())
}
