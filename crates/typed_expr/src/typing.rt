// Types of whole expressions.
ghost use Rattle.std.specs.Prelude.{◌≡◌, ⊤, ◌++◌, All, IfOk, OnOk, map, Option, true};
ghost use Rattle.dm_types.specs.Ranges.{IsWellFormed};
ghost use Rattle.dm_types.specs.declared.value.DataType.{DataType as AType};
ghost use Rattle.typed_expr.specs.Fits.{Fits, AllFit, AreWellFormed, kinds_in};
ghost use Rattle.typed_expr.specs.HasType.{HasType, HasTypeThat, Breaks, BreaksUnless, Accepts, TellsSoonest};
ghost use Rattle.typed_expr.specs.Kinds.{kind_of};
ghost use Rattle.typed_expr.specs.Tables.{assignable, is_condition};
ghost use Rattle.typed_expr.specs.Typing as spec;
ghost use Rattle.typed_expr.specs.Judging.{first_at};
ghost use Rattle.typed_expr.specs.Steps as steps;
ghost use Rattle.typed_expr.specs.Rules.{Answers, both as both_of, all as all_of};

use crate::broken::{both, collected, refuse, split};
use crate::call::call;
use crate::casts::{assignment, cast};
use crate::choice::{Branch, Branches, choice};
use crate::column::column;
use crate::fault::TypeFault;
use crate::forms::{between, in_list, is_test, is_truth, unary};
use crate::literal::literal;
use crate::operators::binary;
use crate::scope::Scope;
use crate::tree::{TypedExpr, TypedExprs};
use dm_text::what_reads_is_in_range;
use dm_types::DataType;
use sql_tree::{Expr, Name, Operator, Prefix, Span, Truth, WrittenType};
use sqlite_items::Boxed;
use std::alloc::{AllocError, Global};

#[cycle(judge)]
fn pair(
    alloc: Global,
    scope: &Scope,
    left: &Expr,
    right: &Expr,
) -> Result<(TypedExpr, TypedExpr), TypeFault>
    ensures { Answers (both_of (spec.typing scope.now left.now) (spec.typing scope.now right.now)) result }
{
    let left = split(judge(alloc, scope, left))?;
    let right = split(judge(alloc, scope, right))?;
    Ok(both(left, right)?)
}

#[cycle(judge)]
fn three(
    alloc: Global,
    scope: &Scope,
    operand: &Expr,
    low: &Expr,
    high: &Expr,
) -> Result<(TypedExpr, (TypedExpr, TypedExpr)), TypeFault>
    ensures { Answers (both_of (spec.typing scope.now operand.now)
        (both_of (spec.typing scope.now low.now) (spec.typing scope.now high.now))) result }
{
    let operand = split(judge(alloc, scope, operand))?;
    let ends = split(pair(alloc, scope, low, high))?;
    Ok(both(operand, ends)?)
}

#[cycle(judge)]
fn all(alloc: Global, scope: &Scope, parts: &[Expr]) -> Result<TypedExprs, TypeFault>
    ensures { Answers (all_of (map (spec.typing scope.now) parts.now)) result }
{
    let mut found = Ok(TypedExprs::new(alloc));
    for part in parts {
        found = collected(found, split(judge(alloc, scope, part))?)?;
    }
    Ok(found?)
}

#[cycle(judge)]
fn with_list(
    alloc: Global,
    scope: &Scope,
    operand: &Expr,
    items: &[Expr],
) -> Result<(TypedExpr, TypedExprs), TypeFault>
    ensures { Answers (both_of (spec.typing scope.now operand.now)
        (all_of (map (spec.typing scope.now) items.now))) result }
{
    let operand = split(judge(alloc, scope, operand))?;
    let items = split(all(alloc, scope, items))?;
    Ok(both(operand, items)?)
}

#[cycle(judge)]
fn branch(alloc: Global, scope: &Scope, branch: &(Expr, Expr)) -> Result<Branch, TypeFault>
    ensures { Answers (steps.typed_branch scope.now branch.now) result }
{
    let (condition, value) = pair(alloc, scope, &branch.0, &branch.1)?;
    Ok(Branch {
        at: branch.0.span().start,
        condition,
        value,
    })
}

#[cycle(judge)]
fn all_branches(
    alloc: Global,
    scope: &Scope,
    branches: &[(Expr, Expr)],
) -> Result<Branches, TypeFault>
    ensures { Answers (all_of (map (steps.typed_branch scope.now) branches.now)) result }
{
    let mut found = Ok(Branches::new(alloc));
    for next in branches {
        found = collected(found, split(branch(alloc, scope, next))?)?;
    }
    Ok(found?)
}

#[cycle(judge)]
fn last(
    alloc: Global,
    scope: &Scope,
    otherwise: &Option<Boxed<Expr>>,
) -> Result<Option<TypedExpr>, TypeFault>
    ensures { Answers (steps.typed_last scope.now otherwise.now) result }
{
    match otherwise {
        Some(otherwise) => Ok(Some(judge(alloc, scope, otherwise.get())?)),
        None => Ok(None),
    }
}

#[cycle(judge)]
fn parts_of_case(
    alloc: Global,
    scope: &Scope,
    branches: &[(Expr, Expr)],
    otherwise: &Option<Boxed<Expr>>,
) -> Result<(Branches, Option<TypedExpr>), TypeFault>
    ensures { Answers (steps.parts_of_case scope.now branches.now otherwise.now) result }
{
    let branches = split(all_branches(alloc, scope, branches))?;
    let otherwise = split(last(alloc, scope, otherwise))?;
    Ok(both(branches, otherwise)?)
}

fn first_start(arguments: &[Expr]) -> usize
    ensures { result ≡ first_at arguments.now }
{
    match arguments.first() {
        Some(first) => first.span().start,
        None => 0,
    }
}

#[cycle(judge)]
fn unary_form(
    alloc: Global,
    scope: &Scope,
    prefix: Prefix,
    place: Span,
    operand: &Expr,
) -> Result<TypedExpr, TypeFault>
    ensures { Answers (steps.unary_of scope.now prefix place operand.now) result }
{
    let operand = judge(alloc, scope, operand)?;
    unary(alloc, prefix, place, operand)
}

#[cycle(judge)]
fn binary_form(
    alloc: Global,
    scope: &Scope,
    operator: Operator,
    place: Span,
    left: &Expr,
    right: &Expr,
) -> Result<TypedExpr, TypeFault>
    ensures { Answers (steps.binary_of scope.now operator place left.now right.now) result }
{
    let (left, right) = pair(alloc, scope, left, right)?;
    binary(alloc, operator, place, left, right)
}

#[cycle(judge)]
fn is_form(
    alloc: Global,
    scope: &Scope,
    truth: Truth,
    negative: bool,
    place: Span,
    operand: &Expr,
) -> Result<TypedExpr, TypeFault>
    ensures { Answers (steps.is_of scope.now truth negative place operand.now) result }
{
    let operand = judge(alloc, scope, operand)?;
    is_test(alloc, truth, negative, place, operand)
}

#[cycle(judge)]
fn between_form(
    alloc: Global,
    scope: &Scope,
    negative: bool,
    place: Span,
    operand: &Expr,
    low: &Expr,
    high: &Expr,
) -> Result<TypedExpr, TypeFault>
    ensures { Answers (steps.between_of scope.now negative place operand.now low.now high.now) result }
{
    let (operand, (low, high)) = three(alloc, scope, operand, low, high)?;
    between(alloc, negative, place, operand, low, high)
}

#[cycle(judge)]
fn in_form(
    alloc: Global,
    scope: &Scope,
    negative: bool,
    place: Span,
    operand: &Expr,
    items: &[Expr],
) -> Result<TypedExpr, TypeFault>
    ensures { Answers (steps.in_of scope.now negative place operand.now items.now) result }
{
    let (operand, items) = with_list(alloc, scope, operand, items)?;
    in_list(alloc, negative, place, operand, items)
}

#[cycle(judge)]
fn case_form(
    alloc: Global,
    scope: &Scope,
    place: Span,
    branches: &[(Expr, Expr)],
    otherwise: &Option<Boxed<Expr>>,
) -> Result<TypedExpr, TypeFault>
    ensures { Answers (steps.case_of scope.now place branches.now otherwise.now) result }
{
    let (branches, otherwise) = parts_of_case(alloc, scope, branches, otherwise)?;
    choice(alloc, place.start, branches, otherwise)
}

#[cycle(judge)]
fn cast_form(
    alloc: Global,
    scope: &Scope,
    place: Span,
    written: WrittenType,
    operand: &Expr,
) -> Result<TypedExpr, TypeFault>
    ensures { Answers (steps.cast_of scope.now place written operand.now) result }
{
    let operand = judge(alloc, scope, operand)?;
    cast(alloc, place, written, operand)
}

#[cycle(judge)]
fn call_form(
    alloc: Global,
    scope: &Scope,
    function: &Name,
    arguments: &[Expr],
) -> Result<TypedExpr, TypeFault>
    ensures { Answers (steps.call_of scope.now function.now arguments.now) result }
{
    let place = first_start(arguments);
    let arguments = all(alloc, scope, arguments)?;
    call(alloc, function, place, arguments)
}

// What an expression comes to over a scope.
#[cycle(judge)]
fn judge(alloc: Global, scope: &Scope, expr: &Expr) -> Result<TypedExpr, TypeFault>
    ensures { Answers (spec.typing scope.now expr.now) result }
{
    match expr {
        Expr::Literal { span, value } => literal(alloc, *span, value),
        Expr::Column {
            span,
            qualifier,
            name,
        } => Ok(column(scope, *span, qualifier, name)?),
        Expr::Group { inner, .. } => judge(alloc, scope, inner.get()),
        Expr::Unary {
            prefix,
            place,
            operand,
            ..
        } => unary_form(alloc, scope, *prefix, *place, operand.get()),
        Expr::Binary {
            operator,
            place,
            left,
            right,
            ..
        } => binary_form(alloc, scope, *operator, *place, left.get(), right.get()),
        Expr::Is {
            truth,
            not,
            place,
            operand,
            ..
        } => is_form(alloc, scope, *truth, *not, *place, operand.get()),
        Expr::Between {
            not,
            place,
            operand,
            low,
            high,
            ..
        } => between_form(
            alloc,
            scope,
            *not,
            *place,
            operand.get(),
            low.get(),
            high.get(),
        ),
        Expr::In {
            not,
            place,
            operand,
            items,
            ..
        } => in_form(alloc, scope, *not, *place, operand.get(), items.as_slice()),
        Expr::Case {
            place,
            branches,
            otherwise,
            ..
        } => case_form(alloc, scope, *place, branches.as_slice(), otherwise),
        Expr::Cast {
            place,
            operand,
            wanted,
            ..
        } => cast_form(alloc, scope, *place, *wanted, operand.get()),
        Expr::Call {
            function,
            arguments,
            ..
        } => call_form(alloc, scope, function, arguments.as_slice()),
    }
}

/// The expression over the columns of a scope, with its types.
///
/// Of the rules that are broken the one at the least place is told, and there the least. A form with
/// a part that doesn't type has no fault of its own. It takes one step a node.
pub fn type_expr(alloc: Global, scope: &Scope, expr: &Expr) -> Result<TypedExpr, TypeFault>
    ensures typing { Answers (spec.typing scope.now expr.now) result }
    // The tables of the language give it the type of the answer, and no other.
    ensures has_type { IfOk result (λ tree. HasType scope.now expr.now (kind_of tree)) }
    ensures one_type { (k : AType) → HasType scope.now expr.now k → Accepts (λ tree. kind_of tree ≡ k) result }
    ensures soonest { TellsSoonest (Breaks scope.now expr.now) result }
    // Over columns of types that there are, it fits their rows.
    ensures fits { AreWellFormed scope.now → IfOk result (Fits (kinds_in scope.now)) }
{
    what_reads_is_in_range();
    judge(alloc, scope, expr)
}

// Adds the operands of the chain of ANDs at the top.
fn push_conjuncts(
    expr: &Expr,
    tree: TypedExpr,
    conjuncts: &mut TypedExprs,
) -> Result<(), AllocError>
    ensures { OnOk result (conjuncts.new ≡ conjuncts.old ++ spec.conjuncts expr.now tree) }
{
    match (expr, tree) {
        (
            Expr::Binary {
                operator: Operator::And,
                left,
                right,
                ..
            },
            TypedExpr::And {
                left: first,
                right: second,
            },
        ) => {
            push_conjuncts(left.get(), first.into_inner(), conjuncts)?;
            push_conjuncts(right.get(), second.into_inner(), conjuncts)
        }
        (_, tree) => conjuncts.push(tree),
    }
}

// A condition, as its conjuncts.
fn condition(alloc: Global, scope: &Scope, expr: &Expr) -> Result<TypedExprs, TypeFault>
    ensures { Answers (spec.condition scope.now expr.now) result }
{
    let tree = judge(alloc, scope, expr)?;
    if !is_truth(&tree) {
        return refuse(5, expr.span().start);
    }
    let mut conjuncts = TypedExprs::new(alloc);
    push_conjuncts(expr, tree, &mut conjuncts)?;
    Ok(conjuncts)
}

/// A condition, as the conjuncts of the chain of ANDs at its top, from the left; what stands in
/// brackets is one of them.
///
/// A condition is BOOLEAN or NULL; another one breaks rule 5 at its first byte.
pub fn type_condition(alloc: Global, scope: &Scope, expr: &Expr) -> Result<TypedExprs, TypeFault>
    ensures typing { Answers (spec.condition scope.now expr.now) result }
    ensures has_type { IfOk result (λ all. HasTypeThat scope.now expr.now is_condition) }
    ensures accepts { HasTypeThat scope.now expr.now is_condition → Accepts (λ all. ⊤) result }
    ensures conditions { IfOk result (All (λ tree. is_condition (kind_of tree) ≡ true)) }
    ensures soonest { TellsSoonest (BreaksUnless scope.now expr.now is_condition 5) result }
    ensures fits { AreWellFormed scope.now → IfOk result (AllFit (kinds_in scope.now)) }
{
    what_reads_is_in_range();
    condition(alloc, scope, expr)
}

// A value that is assigned to a column of a type.
fn assigned(
    alloc: Global,
    scope: &Scope,
    expr: &Expr,
    kind: DataType,
) -> Result<TypedExpr, TypeFault>
    ensures { Answers (spec.assigned scope.now expr.now kind) result }
{
    let tree = judge(alloc, scope, expr)?;
    assignment(alloc, expr.span().start, kind, tree)
}

/// An expression that is assigned to a column of a type, as a value of this type.
///
/// What CAST allows may be assigned, but no STRING to another type, and no BINARY to a STRING: that
/// breaks rule 6 at the expression's first byte.
pub fn type_assignment(
    alloc: Global,
    scope: &Scope,
    expr: &Expr,
    kind: &DataType,
) -> Result<TypedExpr, TypeFault>
    ensures typing { Answers (spec.assigned scope.now expr.now kind.now) result }
    ensures has_type { IfOk result (λ tree. HasTypeThat scope.now expr.now (λ from. assignable from kind.now)) }
    ensures accepts { HasTypeThat scope.now expr.now (λ from. assignable from kind.now) → Accepts (λ tree. ⊤) result }
    ensures of_kind { IfOk result (λ tree. kind_of tree ≡ kind.now) }
    ensures soonest { TellsSoonest (BreaksUnless scope.now expr.now (λ from. assignable from kind.now) 6) result }
    ensures fits { AreWellFormed scope.now → IsWellFormed kind.now → IfOk result (Fits (kinds_in scope.now)) }
{
    what_reads_is_in_range();
    assigned(alloc, scope, expr, *kind)
}
