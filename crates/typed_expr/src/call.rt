// Calls of functions.
ghost use Rattle.std.specs.Prelude.{◌≡◌};
ghost use Rattle.typed_expr.specs.Forms as form;
ghost use Rattle.typed_expr.specs.Rules.{Answers};

use crate::broken::refuse;
use crate::casts::unless_null;
use crate::choice::{Branch, Branches, choice, coalesce};
use crate::fault::TypeFault;
use crate::kinds::{is_dated, is_string, is_void};
use crate::tree::{DatePart, TypedExpr, TypedExprs};
use dm_types::DataType;
use sql_tree::Name;
use sqlite_items::Boxed;
use std::alloc::Global;

// Whether a name is this one, without the case of ASCII letters.
fn is_function(word: &[u8], name: &Name) -> bool
    ensures { result ≡ form.is_function word.now name.now }
{
    name.text.as_bytes().eq_ignore_ascii_case(word)
}

fn date_part(
    alloc: Global,
    at: usize,
    part: DatePart,
    operand: TypedExpr,
) -> Result<TypedExpr, TypeFault>
    ensures { Answers (form.date_part at part operand) result }
{
    let kind = operand.kind();
    if !is_dated(kind) && !is_void(kind) {
        return refuse(3, at);
    }
    let operand = unless_null(alloc, DataType::Date, operand)?;
    let operand = Boxed::new(alloc, operand)?;
    Ok(TypedExpr::Part { part, operand })
}

fn text_length(alloc: Global, at: usize, operand: TypedExpr) -> Result<TypedExpr, TypeFault>
    ensures { Answers (form.text_length at operand) result }
{
    let kind = operand.kind();
    if !is_string(kind) && !is_void(kind) {
        return refuse(3, at);
    }
    let operand = unless_null(alloc, DataType::Str, operand)?;
    let operand = Boxed::new(alloc, operand)?;
    Ok(TypedExpr::Length { operand })
}

// The argument of a function of one.
fn the_one(at: usize, arguments: TypedExprs) -> Result<TypedExpr, TypeFault>
    ensures { Answers (form.the_one at arguments) result }
{
    let mut rest = arguments;
    match (rest.pop(), rest.pop()) {
        (Some(only), None) => Ok(only),
        _ => refuse(13, at),
    }
}

// The arguments of IF.
fn the_three(
    at: usize,
    arguments: TypedExprs,
) -> Result<(TypedExpr, (TypedExpr, TypedExpr)), TypeFault>
    ensures { Answers (form.the_three at arguments) result }
{
    let mut rest = arguments;
    match (rest.pop(), rest.pop(), rest.pop(), rest.pop()) {
        (Some(third), Some(second), Some(first), None) => Ok((first, (second, third))),
        _ => refuse(13, at),
    }
}

fn if_of(
    alloc: Global,
    at: usize,
    place: usize,
    three: (TypedExpr, (TypedExpr, TypedExpr)),
) -> Result<TypedExpr, TypeFault>
    ensures { Answers (form.if_of at place three) result }
{
    let (condition, (value, otherwise)) = three;
    let mut branches = Branches::new(alloc);
    branches.push(Branch {
        at: place,
        condition,
        value,
    })?;
    choice(alloc, at, branches, Some(otherwise))
}

// COALESCE has one argument and more.
fn some_of(at: usize, arguments: TypedExprs) -> Result<TypedExprs, TypeFault>
    ensures { Answers (form.some_of at arguments) result }
{
    if arguments.is_empty() {
        return refuse(13, at);
    }
    Ok(arguments)
}

fn call_if(
    alloc: Global,
    at: usize,
    place: usize,
    arguments: TypedExprs,
) -> Result<TypedExpr, TypeFault>
    ensures { Answers (form.call_if at place arguments) result }
{
    if_of(alloc, at, place, the_three(at, arguments)?)
}

fn call_coalesce(alloc: Global, at: usize, arguments: TypedExprs) -> Result<TypedExpr, TypeFault>
    ensures { Answers (form.call_coalesce at arguments) result }
{
    coalesce(alloc, at, some_of(at, arguments)?)
}

fn call_part(
    alloc: Global,
    at: usize,
    part: DatePart,
    arguments: TypedExprs,
) -> Result<TypedExpr, TypeFault>
    ensures { Answers (form.call_part at part arguments) result }
{
    date_part(alloc, at, part, the_one(at, arguments)?)
}

fn call_length(alloc: Global, at: usize, arguments: TypedExprs) -> Result<TypedExpr, TypeFault>
    ensures { Answers (form.call_length at arguments) result }
{
    text_length(alloc, at, the_one(at, arguments)?)
}

// A call of a function, whose first argument begins at a place.
pub(crate) fn call(
    alloc: Global,
    name: &Name,
    place: usize,
    arguments: TypedExprs,
) -> Result<TypedExpr, TypeFault>
    ensures { Answers (form.call name.now place arguments) result }
{
    let at = name.span.start;
    if is_function(b"IF", name) {
        call_if(alloc, at, place, arguments)
    } else if is_function(b"COALESCE", name) {
        call_coalesce(alloc, at, arguments)
    } else if is_function(b"YEAR", name) {
        call_part(alloc, at, DatePart::Year, arguments)
    } else if is_function(b"MONTH", name) {
        call_part(alloc, at, DatePart::Month, arguments)
    } else if is_function(b"DAY", name) {
        call_part(alloc, at, DatePart::Day, arguments)
    } else if is_function(b"LENGTH", name) {
        call_length(alloc, at, arguments)
    } else {
        refuse(13, at)
    }
}
