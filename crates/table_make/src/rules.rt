// What is wrong with the rules of a new table.
ghost use Rattle.std.specs.Prelude.{◌≡◌, IfOk, Some, is_none, map, min};
ghost use Rattle.row_rules.specs.Texts as texts;
ghost use Rattle.std.specs.List.{filter_map, reduce};
ghost use Rattle.sql_statements.specs.declared.Made.TheVariants as tree;
ghost use Rattle.table_make.specs.Elements as elements;
ghost use Rattle.table_make.specs.Faults as spec;
ghost use Rattle.table_make.specs.Seen as seen_spec;
ghost use Rattle.table_make.specs.Steps as steps;
ghost use Rattle.table_make.specs.Steps.{check_at, column_at};

use crate::columns::is_bad_decimal;
use crate::elements::{Check, Column, type_of};
use crate::places::{at_if, is_before};
use dm_types::{DataType, Text};
use row_rules::{check_of, generation_of};
use sql_statements::{Made, RuleText};
use sql_tree::WrittenKind;
use std::alloc::{AllocError, Global};
use typed_expr::{Scope, ScopeColumn};

/// What was found, or an earlier fault of the rules.
#[tactic(auto, using(crate::proofs::Least::then_both))]
pub(crate) fn first_of_rules(
    alloc: Global,
    found: Option<usize>,
    columns: &[Column<'_>],
    checks: &[Check<'_>],
) -> Result<Option<usize>, AllocError>
    ensures { IfOk result (λ it. it ≡ steps.earlier found (reduce min
        (spec.rule_faults (map column_at columns.now) (map check_at checks.now)))) }
{
    let given = seen_by_generations(alloc, columns)?;
    let found = first_ungenerated(alloc, found, &given, columns)?;
    let all = seen_by_checks(alloc, columns)?;
    let found = first_unchecked(alloc, found, &all, checks)?;
    Ok(found)
}

// The columns that CHECK constraints see.
fn seen_by_checks(alloc: Global, columns: &[Column<'_>]) -> Result<Scope, AllocError>
    ensures { IfOk result (λ scope. scope ≡ seen_spec.seen_by_checks (map column_at columns.now)) }
{
    let mut scope = Scope::new(alloc);
    for column in columns {
        scope.push(seen(alloc, column)?)?;
    }
    Ok(scope)
}

// The columns that generation expressions see.
fn seen_by_generations(alloc: Global, columns: &[Column<'_>]) -> Result<Scope, AllocError>
    ensures { IfOk result (λ scope. scope ≡ seen_spec.seen_by_generations (map column_at columns.now)) }
{
    let mut scope = Scope::new(alloc);
    for column in columns {
        scope.push(unless_made(alloc, column)?)?;
    }
    Ok(scope)
}

// A column as an expression sees it.
fn seen(alloc: Global, column: &Column<'_>) -> Result<ScopeColumn, AllocError>
    ensures { IfOk result (λ it. it ≡ seen_spec.seen (column_at column.now)) }
{
    Ok(ScopeColumn {
        qualifier: Text::new(alloc),
        name: name_seen(alloc, column)?,
        kind: type_of(column.element.kind.kind),
        nullable: column.element.nullable,
    })
}

// The name under which an expression sees a column: of doubled columns it sees the first.
fn name_seen(alloc: Global, column: &Column<'_>) -> Result<Text, AllocError>
    ensures { IfOk result (λ it. it ≡ seen_spec.name_seen (column_at column.now)) }
{
    if column.doubled || is_bad_decimal(column.element.kind.kind) {
        Ok(Text::new(alloc))
    } else {
        column.element.name.text.clone()
    }
}

// A column that keeps its place, but has no name where its values are made.
fn unless_made(alloc: Global, column: &Column<'_>) -> Result<ScopeColumn, AllocError>
    ensures { IfOk result (λ it. it ≡ seen_spec.unless_made (column_at column.now)) }
{
    let mut it = seen(alloc, column)?;
    if column.element.made.is_some() {
        it.name = Text::new(alloc);
    }
    Ok(it)
}

// What was found, or an earlier generation expression that is at fault.
fn first_ungenerated(
    alloc: Global,
    found: Option<usize>,
    scope: &Scope,
    columns: &[Column<'_>],
) -> Result<Option<usize>, AllocError>
    ensures { IfOk result (λ it. it ≡ steps.earlier found (reduce min
        (filter_map (spec.ungenerated scope.now) (map column_at columns.now)))) }
{
    let mut found = found;
    for column in columns {
        found = or_ungenerated(alloc, found, scope, column)?;
    }
    Ok(found)
}

// What was found, or the column's generation expression where it is at fault and stands before.
fn or_ungenerated(
    alloc: Global,
    found: Option<usize>,
    scope: &Scope,
    column: &Column<'_>,
) -> Result<Option<usize>, AllocError>
    ensures { IfOk result (λ it. it ≡ steps.earlier found (spec.ungenerated scope.now (column_at column.now))) }
{
    match &column.element.made {
        Some(Made::Generated(rule)) => {
            or_bad_generation(alloc, found, scope, column.element.kind.kind, rule)
        }
        Some(Made::Identity(_)) | None => Ok(found),
    }
}

// What was found, or the expression where it is at fault and stands before. One behind what was found
// needs no look: so no rule is read beyond the first fault.
fn or_bad_generation(
    alloc: Global,
    found: Option<usize>,
    scope: &Scope,
    kind: WrittenKind,
    rule: &RuleText,
) -> Result<Option<usize>, AllocError>
    ensures { IfOk result (λ it. it ≡ steps.earlier found (spec.bad_generation scope.now kind (Some (tree.Generated rule.now)))) }
{
    let place = rule.expr.span().start;
    if is_before(place, found) && is_no_generation(alloc, scope, type_of(kind), &rule.text)? {
        Ok(Some(place))
    } else {
        Ok(found)
    }
}

fn is_no_generation(
    alloc: Global,
    scope: &Scope,
    kind: DataType,
    text: &Text,
) -> Result<bool, AllocError>
    ensures { IfOk result (λ it. it ≡ is_none (texts.generation_of scope.now kind text.now)) }
{
    Ok(generation_of(alloc, scope, kind, text)?.is_none())
}

// What was found, or an earlier CHECK that is at fault.
fn first_unchecked(
    alloc: Global,
    found: Option<usize>,
    scope: &Scope,
    checks: &[Check<'_>],
) -> Result<Option<usize>, AllocError>
    ensures { IfOk result (λ it. it ≡ steps.earlier found (reduce min
        (filter_map (spec.unchecked scope.now) (map check_at checks.now)))) }
{
    let mut found = found;
    for check in checks {
        found = or_unchecked(alloc, found, scope, check)?;
    }
    Ok(found)
}

// What was found, or the CHECK where it is at fault and stands before.
fn or_unchecked(
    alloc: Global,
    found: Option<usize>,
    scope: &Scope,
    check: &Check<'_>,
) -> Result<Option<usize>, AllocError>
    ensures { IfOk result (λ it. it ≡ steps.earlier found (spec.unchecked scope.now (check_at check.now))) }
{
    let rule = &check.element.rule;
    let place = rule.expr.span().start;
    if is_before(place, found) && is_no_check(alloc, scope, &rule.text)? {
        Ok(Some(place))
    } else {
        Ok(found)
    }
}

fn is_no_check(alloc: Global, scope: &Scope, text: &Text) -> Result<bool, AllocError>
    ensures { IfOk result (λ it. it ≡ is_none (texts.check_of scope.now text.now)) }
{
    Ok(check_of(alloc, scope, text)?.is_none())
}

/// The least place of a constraint whose name an earlier one has.
pub(crate) fn first_double(checks: &[Check<'_>]) -> Option<usize>
    ensures { result ≡ reduce min (filter_map (λ check. spec.double elements.check_name (check_at check)) checks.now) }
{
    checks.iter().filter_map(|check| double(check)).min()
}

fn double(check: &Check<'_>) -> Option<usize>
    ensures { result ≡ spec.double elements.check_name (check_at check.now) }
{
    at_if(check.doubled, check.element.name.span.start)
}
