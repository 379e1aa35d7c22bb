// How types and typed expressions are shown.
use dm_types::DataType;
use sql_reader::Truth;
use std::alloc::AllocError;
use typed_expr::{DatePart, Op, TypedExpr};

/// Adds a byte.
pub fn put(byte: u8, out: &mut Vec<u8>) -> Result<(), AllocError> {
    out.push(byte)?;
    Ok(())
}

fn push_number(number: u8, out: &mut Vec<u8>) -> Result<(), AllocError> {
    if number >= 10 {
        put(b'0' + number / 10 % 10, out)?;
    }
    put(b'0' + number % 10, out)
}

/// A letter for a type, and of a decimal its precision and scale.
pub fn push_kind(kind: DataType, out: &mut Vec<u8>) -> Result<(), AllocError> {
    match kind {
        DataType::Void => put(b'V', out),
        DataType::Boolean => put(b'B', out),
        DataType::Byte => put(b'Y', out),
        DataType::Short => put(b'S', out),
        DataType::Integer => put(b'I', out),
        DataType::Long => put(b'L', out),
        DataType::Decimal { precision, scale } => {
            push_number(precision, out)?;
            put(b',', out)?;
            push_number(scale, out)
        }
        DataType::Str => put(b'T', out),
        DataType::Binary => put(b'X', out),
        DataType::Date => put(b'A', out),
        DataType::Timestamp => put(b'M', out),
    }
}

fn op_name(op: Op) -> &'static [u8] {
    match op {
        Op::Add => b"add[",
        Op::Subtract => b"subtract[",
        Op::Multiply => b"multiply[",
        Op::Quotient => b"quotient[",
        Op::Remainder => b"remainder[",
        Op::Equal => b"equal[",
        Op::Unequal => b"unequal[",
        Op::Less => b"less[",
        Op::LessEqual => b"at most[",
        Op::Greater => b"greater[",
        Op::GreaterEqual => b"at least[",
    }
}

fn truth_name(truth: Truth) -> &'static [u8] {
    match truth {
        Truth::Null => b"is null[",
        Truth::True => b"is true[",
        Truth::False => b"is false[",
    }
}

fn part_name(part: DatePart) -> &'static [u8] {
    match part {
        DatePart::Year => b"year[",
        DatePart::Month => b"month[",
        DatePart::Day => b"day[",
    }
}

#[cycle(show)]
fn show_all(trees: &[TypedExpr], out: &mut Vec<u8>) -> Result<(), AllocError> {
    for tree in trees {
        show(tree, out)?;
        put(b';', out)?;
    }
    put(b']', out)
}

#[cycle(show)]
fn show_branches(branches: &[(TypedExpr, TypedExpr)], out: &mut Vec<u8>) -> Result<(), AllocError> {
    for (condition, value) in branches {
        show(condition, out)?;
        put(b':', out)?;
        show(value, out)?;
        put(b';', out)?;
    }
    Ok(())
}

#[cycle(show)]
fn show_one(name: &[u8], tree: &TypedExpr, out: &mut Vec<u8>) -> Result<(), AllocError> {
    out.extend_from_slice(name)?;
    show(tree, out)?;
    put(b']', out)
}

#[cycle(show)]
fn show_first(name: &[u8], tree: &TypedExpr, out: &mut Vec<u8>) -> Result<(), AllocError> {
    out.extend_from_slice(name)?;
    show(tree, out)?;
    put(b';', out)
}

#[cycle(show)]
fn show_last(tree: &TypedExpr, out: &mut Vec<u8>) -> Result<(), AllocError> {
    show(tree, out)?;
    put(b']', out)
}

/// A typed expression: its type, its form, and its parts.
#[cycle(show)]
pub fn show(tree: &TypedExpr, out: &mut Vec<u8>) -> Result<(), AllocError> {
    push_kind(tree.kind(), out)?;
    put(b' ', out)?;
    match tree {
        TypedExpr::Constant { .. } => out.extend_from_slice(b"constant"),
        TypedExpr::Column { place, .. } => {
            out.extend_from_slice(b"column ")?;
            push_number((*place % 100) as u8, out)
        }
        TypedExpr::Negate { operand, .. } => show_one(b"negate[", operand.get(), out),
        TypedExpr::Not { operand } => show_one(b"not[", operand.get(), out),
        TypedExpr::Binary {
            op,
            left,
            right,
            ..
        } => {
            show_first(op_name(*op), left.get(), out)?;
            show_last(right.get(), out)
        }
        TypedExpr::SameAs { left, right } => {
            show_first(b"same[", left.get(), out)?;
            show_last(right.get(), out)
        }
        TypedExpr::And { left, right } => {
            show_first(b"and[", left.get(), out)?;
            show_last(right.get(), out)
        }
        TypedExpr::Or { left, right } => {
            show_first(b"or[", left.get(), out)?;
            show_last(right.get(), out)
        }
        TypedExpr::Concat { left, right } => {
            show_first(b"concat[", left.get(), out)?;
            show_last(right.get(), out)
        }
        TypedExpr::Is { truth, operand } => show_one(truth_name(*truth), operand.get(), out),
        TypedExpr::Between { operand, low, high } => {
            show_one(b"between[", operand.get(), out)?;
            show_first(b"[", low.get(), out)?;
            show_last(high.get(), out)
        }
        TypedExpr::In { operand, items } => {
            show_one(b"in[", operand.get(), out)?;
            put(b'[', out)?;
            show_all(items.as_slice(), out)
        }
        TypedExpr::Case {
            branches,
            otherwise,
            ..
        } => {
            out.extend_from_slice(b"case[")?;
            show_branches(branches.as_slice(), out)?;
            if let Some(otherwise) = otherwise {
                show(otherwise.get(), out)?;
            }
            put(b']', out)
        }
        TypedExpr::Coalesce { arguments, .. } => {
            out.extend_from_slice(b"coalesce[")?;
            show_all(arguments.as_slice(), out)
        }
        TypedExpr::Cast { operand, .. } => show_one(b"cast[", operand.get(), out),
        TypedExpr::Part { part, operand } => show_one(part_name(*part), operand.get(), out),
        TypedExpr::Length { operand } => show_one(b"length[", operand.get(), out),
    }
}
