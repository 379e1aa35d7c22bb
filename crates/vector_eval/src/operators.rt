// Operators on two values.
ghost use Rattle.std.specs.Prelude.{◌≡◌};
ghost use Rattle.vector_eval.specs.Steps as steps;
ghost use Rattle.vector_eval.specs.Values as spec;

use crate::fault::ErrorKind;
use crate::numbers::{difference, number, product, quotient, remainder, sum};
use crate::truths::{at_least, at_most, equal, greater, less, unequal};
use dm_types::{DataType, Decimal, Value};
use typed_expr::Op;

// Both numbers, where both values are numbers.
fn numbers(a: &Value, b: &Value) -> Option<(Decimal, Decimal)>
    ensures { result ≡ steps.numbers a.now b.now }
{
    Some((number(a)?, number(b)?))
}

// Arithmetic. A comparison never comes.
fn calculated(op: Op, kind: &DataType, a: &Decimal, b: &Decimal) -> Result<Value, ErrorKind>
    ensures { result ≡ steps.calculated op kind.now a.now b.now }
{
    match op {
        Op::Add => sum(kind, a, b),
        Op::Subtract => difference(kind, a, b),
        Op::Multiply => product(kind, a, b),
        Op::Quotient => quotient(kind, a, b),
        Op::Remainder => remainder(kind, a, b),
        _ => Ok(Value::Null),
    }
}

fn arithmetic(op: Op, kind: &DataType, a: &Value, b: &Value) -> Result<Value, ErrorKind>
    ensures { result ≡ steps.arithmetic op kind.now a.now b.now }
{
    match numbers(a, b) {
        Some((a, b)) => calculated(op, kind, &a, &b),
        None => Ok(Value::Null),
    }
}

/// Arithmetic, or a comparison.
pub fn binary(op: Op, kind: &DataType, a: &Value, b: &Value) -> Result<Value, ErrorKind>
    ensures { result ≡ spec.binary op kind.now a.now b.now }
{
    match op {
        Op::Equal => Ok(equal(a, b)),
        Op::Unequal => Ok(unequal(a, b)),
        Op::Less => Ok(less(a, b)),
        Op::LessEqual => Ok(at_most(a, b)),
        Op::Greater => Ok(greater(a, b)),
        Op::GreaterEqual => Ok(at_least(a, b)),
        _ => arithmetic(op, kind, a, b),
    }
}
