// How a tree is shown: each form by its name, the text at its operator's place, and its parts.
use sql_reader::{Expr, Literal, Operator, Prefix, Span, Truth};
use std::alloc::AllocError;

fn push(bytes: &[u8], span: Span, out: &mut Vec<u8>) -> Result<(), AllocError> {
    match bytes.get(span.start..span.end) {
        Some(text) => out.extend_from_slice(text),
        None => out.extend_from_slice(b"?"),
    }
}

fn literal_name(literal: &Literal) -> &'static [u8] {
    match literal {
        Literal::Null => b"null ",
        Literal::True => b"true ",
        Literal::False => b"false ",
        Literal::Whole(_) => b"whole ",
        Literal::Decimal(_) => b"decimal ",
        Literal::Text(_) => b"text ",
        Literal::Bytes(_) => b"bytes ",
        Literal::Date { .. } => b"date ",
        Literal::Timestamp { .. } => b"timestamp ",
    }
}

fn operator_name(operator: Operator) -> &'static [u8] {
    match operator {
        Operator::Or => b" or[",
        Operator::And => b" and[",
        Operator::Equal => b" equal[",
        Operator::NotEqual => b" not equal[",
        Operator::Less => b" less[",
        Operator::LessOrEqual => b" at most[",
        Operator::Greater => b" greater[",
        Operator::GreaterOrEqual => b" at least[",
        Operator::SameAs => b" same[",
        Operator::Concat => b" concat[",
        Operator::Plus => b" plus[",
        Operator::Minus => b" minus[",
        Operator::Times => b" times[",
        Operator::Remainder => b" remainder[",
        Operator::Divide => b" divide[",
    }
}

fn prefix_name(prefix: Prefix) -> &'static [u8] {
    match prefix {
        Prefix::Not => b" not[",
        Prefix::Minus => b" minus[",
        Prefix::Plus => b" plus[",
    }
}

fn truth_name(not: bool, truth: Truth) -> &'static [u8] {
    match (not, truth) {
        (false, Truth::Null) => b" null[",
        (false, Truth::True) => b" true[",
        (false, Truth::False) => b" false[",
        (true, Truth::Null) => b" not null[",
        (true, Truth::True) => b" not true[",
        (true, Truth::False) => b" not false[",
    }
}

#[cycle(show)]
fn show_all(bytes: &[u8], exprs: &[Expr], out: &mut Vec<u8>) -> Result<(), AllocError> {
    for expr in exprs {
        show(bytes, expr, out)?;
        out.extend_from_slice(b";")?;
    }
    Ok(())
}

#[cycle(show)]
fn show_branches(
    bytes: &[u8],
    branches: &[(Expr, Expr)],
    out: &mut Vec<u8>,
) -> Result<(), AllocError> {
    for (condition, value) in branches {
        show(bytes, condition, out)?;
        out.extend_from_slice(b":")?;
        show(bytes, value, out)?;
        out.extend_from_slice(b";")?;
    }
    Ok(())
}

#[cycle(show)]
fn show_unary(
    bytes: &[u8],
    place: Span,
    name: &[u8],
    expr: &Expr,
    out: &mut Vec<u8>,
) -> Result<(), AllocError> {
    push(bytes, place, out)?;
    out.extend_from_slice(name)?;
    show(bytes, expr, out)?;
    out.extend_from_slice(b"]")
}

/// The expression as a text.
#[cycle(show)]
pub(super) fn show(bytes: &[u8], expr: &Expr, out: &mut Vec<u8>) -> Result<(), AllocError> {
    match expr {
        Expr::Literal { span, value } => {
            out.extend_from_slice(literal_name(value))?;
            push(bytes, *span, out)
        }
        Expr::Column {
            qualifier,
            name,
            ..
        } => {
            out.extend_from_slice(b"column ")?;
            if let Some(qualifier) = qualifier {
                push(bytes, qualifier.span, out)?;
                out.extend_from_slice(b".")?;
            }
            push(bytes, name.span, out)
        }
        Expr::Group { span, inner } => {
            out.extend_from_slice(b"group ")?;
            show_unary(bytes, *span, b" [", inner.get(), out)
        }
        Expr::Unary {
            prefix,
            place,
            operand,
            ..
        } => show_unary(bytes, *place, prefix_name(*prefix), operand.get(), out),
        Expr::Binary {
            operator,
            place,
            left,
            right,
            ..
        } => {
            push(bytes, *place, out)?;
            out.extend_from_slice(operator_name(*operator))?;
            show(bytes, left.get(), out)?;
            out.extend_from_slice(b";")?;
            show(bytes, right.get(), out)?;
            out.extend_from_slice(b"]")
        }
        Expr::Is {
            truth,
            not,
            place,
            operand,
            ..
        } => show_unary(bytes, *place, truth_name(*not, *truth), operand.get(), out),
        Expr::Between {
            not,
            place,
            operand,
            low,
            high,
            ..
        } => {
            push(bytes, *place, out)?;
            out.extend_from_slice(if *not { b" not between[" } else { b" between[" })?;
            show(bytes, operand.get(), out)?;
            out.extend_from_slice(b";")?;
            show(bytes, low.get(), out)?;
            out.extend_from_slice(b";")?;
            show(bytes, high.get(), out)?;
            out.extend_from_slice(b"]")
        }
        Expr::In {
            not,
            place,
            operand,
            items,
            ..
        } => {
            push(bytes, *place, out)?;
            out.extend_from_slice(if *not { b" not in[" } else { b" in[" })?;
            show(bytes, operand.get(), out)?;
            out.extend_from_slice(b";")?;
            show_all(bytes, items.as_slice(), out)?;
            out.extend_from_slice(b"]")
        }
        Expr::Case {
            place,
            branches,
            otherwise,
            ..
        } => {
            push(bytes, *place, out)?;
            out.extend_from_slice(b" case[")?;
            show_branches(bytes, branches.as_slice(), out)?;
            if let Some(otherwise) = otherwise {
                out.extend_from_slice(b"else ")?;
                show(bytes, otherwise.get(), out)?;
            }
            out.extend_from_slice(b"]")
        }
        Expr::Cast {
            place,
            operand,
            wanted,
            ..
        } => {
            push(bytes, *place, out)?;
            out.extend_from_slice(b" cast[")?;
            show(bytes, operand.get(), out)?;
            out.extend_from_slice(b";")?;
            push(bytes, wanted.span, out)?;
            out.extend_from_slice(b"]")
        }
        Expr::Call {
            function,
            arguments,
            ..
        } => {
            out.extend_from_slice(b"call ")?;
            push(bytes, function.span, out)?;
            out.extend_from_slice(b"[")?;
            show_all(bytes, arguments.as_slice(), out)?;
            out.extend_from_slice(b"]")
        }
    }
}
