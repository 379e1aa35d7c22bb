// The rules of columns.
ghost use Rattle.std.specs.Prelude.{◌≡◌, Err, IfOk, [], unwrap_or};
ghost use Rattle.std.specs.List.{list_any};
ghost use Rattle.std.specs.Str.{bytes_eq};
ghost use Rattle.delta_schema.specs.Metadata.{identity_names};
ghost use Rattle.row_rules.specs.Answers.{Reads};
ghost use Rattle.row_rules.specs.Rules as spec;
ghost use Rattle.row_rules.specs.Texts as texts;

use crate::fault::RuleFault;
use crate::rules::{ColumnRule, ColumnRules};
use crate::texts::{generation_of, seen_by_generations};
use column_mapping::Mode;
use data_file::CHANGE_TYPE;
use delta_schema::ColumnDef;
use dm_types::Text;
use std::alloc::{AllocError, Global};
use typed_expr::{Scope, TypedExpr};

/// The longest name of a column in data files, in bytes.
const MAX_NAME: usize = 1_048_576;

/// A rule for each column, or the first column that can't be written.
pub(crate) fn column_rules(
    alloc: Global,
    columns: &[ColumnDef],
    mode: Mode,
    feed: bool,
) -> Result<ColumnRules, RuleFault>
    ensures { Reads (spec.each (spec.column_rule feed mode (texts.seen_by_generations columns.now)) [] columns.now) result }
{
    let scope = seen_by_generations(alloc, columns)?;
    let mut rules = ColumnRules::new(alloc);
    for column in columns {
        let rule = column_rule(alloc, &scope, mode, feed, column)?;
        rules.push(rule)?;
    }
    Ok(rules)
}

// The rule of a column.
fn column_rule(
    alloc: Global,
    scope: &Scope,
    mode: Mode,
    feed: bool,
    column: &ColumnDef,
) -> Result<ColumnRule, RuleFault>
    ensures { Reads (spec.column_rule feed mode scope.now column.now) result }
{
    if is_unkept(mode, feed, column) {
        return unsupported(&column.name);
    }
    match generation_in(alloc, scope, column)? {
        Some(generation) => Ok(rule_with(column, generation)),
        None => unsupported(&column.name),
    }
}

fn rule_with(column: &ColumnDef, generation: Option<TypedExpr>) -> ColumnRule
    ensures { result ≡ spec.rule_with column.now generation }
{
    ColumnRule {
        kind: column.kind,
        nullable: column.nullable,
        partition: column.partition,
        identity: column.identity,
        generation,
    }
}

// The tree of the column's generation expression, where there is one; None is one that has no tree.
fn generation_in(
    alloc: Global,
    scope: &Scope,
    column: &ColumnDef,
) -> Result<Option<Option<TypedExpr>>, AllocError>
    ensures { IfOk result (λ it. it ≡ spec.generation_in scope.now column.now column.now.generation) }
{
    match &column.generation {
        None => Ok(Some(None)),
        Some(text) => Ok(generation_of(alloc, scope, column.kind, text)?.map(Some)),
    }
}

/// The fault of a rule that can't be kept.
pub(crate) fn unsupported<T>(name: &Text) -> Result<T, RuleFault>
    ensures { Reads (Err name.now) result }
{
    let name = name.clone()?;
    Err(RuleFault::Unsupported { name })
}

// Whether a column can't be written, whatever its generation expression.
fn is_unkept(mode: Mode, feed: bool, column: &ColumnDef) -> bool
    ensures { result ≡ spec.is_unkept feed mode column.now }
{
    column.invariant || has_broken_identity(column) || has_forbidden_name(mode, feed, column)
}

// Whether a column has some members of an identity, and no identity.
fn has_broken_identity(column: &ColumnDef) -> bool
    ensures { result ≡ spec.has_broken_identity column.now }
{
    column.identity.is_none() && has_identity_member(column.other.as_slice())
}

fn has_identity_member(members: &[(Text, Text)]) -> bool
    ensures { result ≡ list_any (λ member. list_any (bytes_eq member.0) identity_names) members.now }
{
    let mut rest = members;
    while let Some((member, more)) = rest.split_first() {
        if is_identity_name(member.0.as_str()) {
            return true;
        }
        rest = more;
    }
    false
}

fn is_identity_name(name: &str) -> bool
    ensures { result ≡ list_any (bytes_eq name.now) identity_names }
{
    matches!(
        name,
        "delta.identity.start"
            | "delta.identity.step"
            | "delta.identity.highWaterMark"
            | "delta.identity.allowExplicitInsert"
    )
}

// Whether a column's name is none that data files may have.
fn has_forbidden_name(mode: Mode, feed: bool, column: &ColumnDef) -> bool
    ensures { result ≡ spec.has_forbidden_name feed mode column.now }
{
    !column.partition && is_forbidden(feed, name_in_files(mode, column))
}

/// Whether a name is none that a column may have in data files, nor, with the change feed on, in change
/// files.
pub(crate) fn is_forbidden(feed: bool, name: &str) -> bool
    ensures { result ≡ spec.is_forbidden feed name.now }
{
    name.len() > MAX_NAME || feed && name == CHANGE_TYPE
}

/// The name under which data files hold a column.
pub(crate) fn name_in_files(mode: Mode, column: &ColumnDef) -> &str
    ensures { result.now ≡ spec.name_in_files mode column.entry.now }
{
    match mode {
        Mode::Plain => column.name.as_str(),
        Mode::ByName | Mode::ById => physical_name(column),
    }
}

fn physical_name(column: &ColumnDef) -> &str
    ensures { result.now ≡ unwrap_or column.entry.now.physical [] }
{
    match &column.physical {
        Some(name) => name.as_str(),
        None => "",
    }
}
