// CASE, IF and COALESCE: values of which one is chosen.
ghost use Rattle.std.specs.Prelude.{◌≡◌, ⊤, IfOk, Option, map, option_map};
ghost use Rattle.typed_expr.specs.Kinds.{kind_of};
ghost use Rattle.typed_expr.specs.Tables as spec;
ghost use Rattle.typed_expr.specs.Forms as form;
ghost use Rattle.typed_expr.specs.Rules.{Answers};

use crate::broken::{Typing, both, breaks, given};
use crate::casts::{as_kind, unless_null};
use crate::fault::TypeFault;
use crate::forms::is_truth;
use crate::kinds::common;
use crate::tree::{TypedBranches, TypedExpr, TypedExprs};
use dm_types::DataType;
use sqlite_items::{Boxed, Items};
use std::alloc::{AllocError, Global};

// A condition, where it stands, and the value behind it.
#[derive(Drop)]
pub(crate) struct Branch {
    pub(crate) at: usize,
    pub(crate) condition: TypedExpr,
    pub(crate) value: TypedExpr,
}

pub(crate) type Branches = Items<Branch>;

fn condition_holds(branch: &Branch) -> Typing<()>
    ensures { result ≡ form.condition_holds branch.now }
{
    if is_truth(&branch.condition) {
        Ok(())
    } else {
        breaks(5, branch.at)
    }
}

// What was found, and one more condition.
fn with_condition(found: Typing<()>, branch: &Branch) -> Typing<()>
    ensures { result ≡ form.with_condition found branch.now }
{
    match both(found, condition_holds(branch)) {
        Ok(_) => Ok(()),
        Err(broken) => Err(broken),
    }
}

// Each condition is BOOLEAN or NULL, else rule 5.
fn conditions(branches: &[Branch]) -> Typing<()>
    ensures { result ≡ form.conditions branches.now }
{
    let mut found = Ok(());
    for branch in branches {
        found = with_condition(found, branch);
    }
    found
}

// The type that is common so far, and of one more.
fn with_kind(joint: Option<DataType>, kind: DataType) -> Option<DataType>
    ensures { result ≡ spec.with_kind joint kind }
{
    match joint {
        Some(joint) => common(joint, kind),
        None => None,
    }
}

// The common type of the values behind the conditions.
fn common_of_values(branches: &[Branch]) -> Option<DataType>
    ensures { result ≡ spec.common_of (map (λ b. kind_of b.value) branches.now) }
{
    let mut joint = Some(DataType::Void);
    for branch in branches {
        joint = with_kind(joint, branch.value.kind());
    }
    joint
}

// The common type of all values.
fn value_kind(branches: &[Branch], otherwise: &Option<TypedExpr>) -> Option<DataType>
    ensures { result ≡ form.value_kind branches.now otherwise.now }
{
    let joint = common_of_values(branches)?;
    match otherwise {
        Some(last) => common(joint, last.kind()),
        None => Some(joint),
    }
}

fn typed_branch(
    alloc: Global,
    kind: DataType,
    branch: Branch,
) -> Result<(TypedExpr, TypedExpr), AllocError>
    ensures { IfOk result (λ typed. typed ≡ form.typed_branch kind branch) }
{
    let Branch {
        condition,
        value,
        ..
    } = branch;
    let condition = unless_null(alloc, DataType::Boolean, condition)?;
    let value = as_kind(alloc, kind, value)?;
    Ok((condition, value))
}

fn typed_branches(
    alloc: Global,
    kind: DataType,
    branches: Branches,
) -> Result<TypedBranches, AllocError>
    ensures { IfOk result (λ typed. typed ≡ map (form.typed_branch kind) branches) }
{
    let mut rest = branches;
    let mut typed = Vec::new(alloc);
    while let Some(last) = rest.pop() {
        typed.push(typed_branch(alloc, kind, last)?)?;
    }
    typed.reverse();
    Ok(TypedBranches::from_vec(typed))
}

fn typed_last(
    alloc: Global,
    kind: DataType,
    otherwise: Option<TypedExpr>,
) -> Result<Option<Boxed<TypedExpr>>, AllocError>
    ensures { IfOk result (λ last. last ≡ option_map (form.as_kind kind) otherwise) }
{
    match otherwise {
        Some(last) => {
            let last = as_kind(alloc, kind, last)?;
            Ok(Some(Boxed::new(alloc, last)?))
        }
        None => Ok(None),
    }
}

// CASE and IF, at a word of the script.
pub(crate) fn choice(
    alloc: Global,
    at: usize,
    branches: Branches,
    otherwise: Option<TypedExpr>,
) -> Result<TypedExpr, TypeFault>
    ensures { Answers (form.choice at branches otherwise) result }
{
    let kind = choice_kind(at, branches.as_slice(), &otherwise)?;
    let branches = typed_branches(alloc, kind, branches)?;
    let otherwise = typed_last(alloc, kind, otherwise)?;
    Ok(TypedExpr::Case {
        kind,
        branches,
        otherwise,
    })
}

// The type of the chosen value.
fn choice_kind(at: usize, branches: &[Branch], otherwise: &Option<TypedExpr>) -> Typing<DataType>
    ensures { result ≡ form.choice_kind at branches.now otherwise.now }
{
    let kind = given(3, at, value_kind(branches, otherwise));
    match both(conditions(branches), kind) {
        Ok((_, kind)) => Ok(kind),
        Err(broken) => Err(broken),
    }
}

fn common_of(operands: &[TypedExpr]) -> Option<DataType>
    ensures { result ≡ spec.common_of (map kind_of operands.now) }
{
    let mut joint = Some(DataType::Void);
    for operand in operands {
        joint = with_kind(joint, operand.kind());
    }
    joint
}

fn all_as_kind(
    alloc: Global,
    kind: DataType,
    operands: TypedExprs,
) -> Result<TypedExprs, AllocError>
    ensures { IfOk result (λ trees. trees ≡ map (form.as_kind kind) operands) }
{
    let mut rest = operands;
    let mut trees = Vec::new(alloc);
    while let Some(last) = rest.pop() {
        trees.push(as_kind(alloc, kind, last)?)?;
    }
    trees.reverse();
    Ok(TypedExprs::from_vec(trees))
}

// COALESCE, at its name.
pub(crate) fn coalesce(
    alloc: Global,
    at: usize,
    arguments: TypedExprs,
) -> Result<TypedExpr, TypeFault>
    ensures { Answers (form.coalesce at arguments) result }
{
    let kind = given(3, at, common_of(arguments.as_slice()))?;
    let arguments = all_as_kind(alloc, kind, arguments)?;
    Ok(TypedExpr::Coalesce { kind, arguments })
}
