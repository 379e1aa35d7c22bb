// The texts of rules, as trees over columns.
ghost use Rattle.std.specs.Prelude.{◌≡◌, ⊤, IfOk, Option, Some, None};
ghost use Rattle.row_rules.specs.StepsTexts.{Comes};
ghost use Rattle.row_rules.specs.Texts as spec;
ghost use Rattle.typed_expr.specs.Tables as kinds;

use delta_schema::ColumnDef;
use dm_types::{DataType, Text};
use sql_reader::{ScriptFault, read_expr};
use sql_tree::Expr;
use std::alloc::{AllocError, Global};
use typed_expr::{Scope, ScopeColumn, TypeFault, TypedExpr, type_assignment, type_expr};

/// The columns that CHECK constraints see.
pub(crate) fn seen_by_checks(alloc: Global, columns: &[ColumnDef]) -> Result<Scope, AllocError>
    ensures { IfOk result (λ scope. scope ≡ spec.seen_by_checks columns.now) }
{
    let mut scope = Scope::new(alloc);
    for column in columns {
        scope.push(seen(alloc, column)?)?;
    }
    Ok(scope)
}

/// The columns that generation expressions see.
pub(crate) fn seen_by_generations(alloc: Global, columns: &[ColumnDef]) -> Result<Scope, AllocError>
    ensures { IfOk result (λ scope. scope ≡ spec.seen_by_generations columns.now) }
{
    let mut scope = Scope::new(alloc);
    for column in columns {
        scope.push(unless_made(alloc, column)?)?;
    }
    Ok(scope)
}

// A column by its name alone.
fn seen(alloc: Global, column: &ColumnDef) -> Result<ScopeColumn, AllocError>
    ensures { IfOk result (λ it. it ≡ spec.seen column.now) }
{
    Ok(ScopeColumn {
        qualifier: Text::new(alloc),
        name: column.name.clone()?,
        kind: column.kind,
        nullable: column.nullable,
    })
}

// A column that keeps its place, but has no name where its values are made.
fn unless_made(alloc: Global, column: &ColumnDef) -> Result<ScopeColumn, AllocError>
    ensures { IfOk result (λ it. it ≡ spec.unless_made column.now) }
{
    let mut it = seen(alloc, column)?;
    if column.generation.is_some() || column.identity.is_some() {
        it.name = Text::new(alloc);
    }
    Ok(it)
}

// The expression that a text is, if it is one.
fn expression_of(alloc: Global, text: &Text) -> Result<Option<Expr>, AllocError>
    ensures { IfOk result (λ it. it ≡ spec.expression_of text.now) }
{
    crate::laws::reading_is_exact();
    match read_expr(alloc, text.as_bytes()) {
        Ok(expr) => Ok(Some(expr)),
        Err(ScriptFault::BadScript { .. }) => Ok(None),
        Err(ScriptFault::Memory) => Err(AllocError),
    }
}

/// The tree of the generation expression with this text, assigned to a column of a type. `None` is a
/// text that is no expression, has no type over the columns of the scope, or can't be assigned.
///
/// The error is want of memory alone (PROTOCOL.md, "Generated Columns").
pub fn generation_of(
    alloc: Global,
    scope: &Scope,
    kind: DataType,
    text: &Text,
) -> Result<Option<TypedExpr>, AllocError>
    ensures { IfOk result (λ tree. tree ≡ spec.generation_of scope.now kind text.now) }
{
    let Some(expr) = expression_of(alloc, text)? else {
        return Ok(None);
    };
    unless_broken(type_assignment(alloc, scope, &expr, &kind))
}

/// The tree of the CHECK with this text. `None` is a text that is no expression, has no type over the
/// columns of the scope, or is neither BOOLEAN nor NULL.
///
/// The error is want of memory alone (PROTOCOL.md, "CHECK Constraints").
pub fn check_of(alloc: Global, scope: &Scope, text: &Text) -> Result<Option<TypedExpr>, AllocError>
    ensures { IfOk result (λ tree. tree ≡ spec.check_of scope.now text.now) }
{
    let Some(expr) = expression_of(alloc, text)? else {
        return Ok(None);
    };
    match unless_broken(type_expr(alloc, scope, &expr))? {
        Some(tree) => Ok(if_condition(tree)),
        None => Ok(None),
    }
}

// The tree, if it is a condition.
fn if_condition(tree: TypedExpr) -> Option<TypedExpr>
    ensures { result ≡ spec.if_truth tree }
{
    if is_condition(tree.kind()) {
        Some(tree)
    } else {
        None
    }
}

// What an expression comes to, if no rule is broken in it.
fn unless_broken(answer: Result<TypedExpr, TypeFault>) -> Result<Option<TypedExpr>, AllocError>
    ensures { Comes answer result }
{
    match answer {
        Ok(tree) => Ok(Some(tree)),
        Err(TypeFault::Rule { .. }) => Ok(None),
        Err(TypeFault::Memory) => Err(AllocError),
    }
}

// The type of a condition.
fn is_condition(kind: DataType) -> bool
    ensures { result ≡ kinds.is_condition kind }
{
    matches!(kind, DataType::Boolean | DataType::Void)
}
