// The items and the condition of a SELECT, with their types.
ghost use Rattle.std.specs.Prelude.{◌≡◌, All, IfOk, IfSome};
ghost use Rattle.std.specs.Option.{option_copied};
ghost use Rattle.select_rows.specs.Answers.{Decides};
ghost use Rattle.select_rows.specs.Queries as spec;
ghost use Rattle.typed_expr.specs.Fits.{AreWellFormed, Fits, kinds_in};
ghost use Rattle.typed_expr.specs.declared.tree.TypedExpr.{out-TypedExpr};

use dm_text::what_reads_is_in_range;
use dm_types::{StatementRefusal, Stop, Text};
use sql_statements::{SelectItem, SelectItems};
use sql_tree::{Expr, Name};
use sqlite_items::Items;
use std::alloc::{AllocError, Global};
use typed_expr::{
    Scope, ScopeColumn, TypedExpr, TypedExprs, Typing, both, collected, split, type_condition,
    type_expr,
};

/// An item, with its type.
#[derive(Drop)]
pub struct QueryItem {
    /// Its name: the alias, else the name of the column that it is, else `_c` and its place from 0.
    pub name: Text,
    /// Its value on a row of the scope.
    pub value: TypedExpr,
}

/// Items, in order.
pub type QueryItems = Items<QueryItem>;

/// What a SELECT asks of each row.
#[derive(Drop)]
pub struct Query {
    /// The items; none where every column is asked for.
    pub items: Option<QueryItems>,
    /// The conjuncts of the condition; there are none where it has no condition.
    pub conjuncts: TypedExprs,
}

/// The items and the condition of a SELECT over the columns of a scope, with their types.
///
/// Of the rules that are broken in them the one at the least place is told, and there the least
/// (`DoesNotType`). It takes one step a node.
pub fn type_query(
    alloc: Global,
    scope: &Scope,
    items: &SelectItems,
    condition: Option<&Expr>,
) -> Result<Query, Stop>
    ensures query { Decides (spec.unless_broken (spec.typed_query scope.now items.now
        (option_copied condition.entry))) result }
    // Over columns of types that there are, the items fit their rows.
    ensures fits { AreWellFormed scope.now → IfOk result (λ query. IfSome query.items
        (All (λ item. Fits (kinds_in scope.now) item.value))) }
{
    what_reads_is_in_range();
    let items = type_items(alloc, scope, items)?;
    let conjuncts = type_conjuncts(alloc, scope, condition)?;
    match both(items, conjuncts) {
        Ok((items, conjuncts)) => Ok(Query { items, conjuncts }),
        Err(broken) => Err(StatementRefusal::DoesNotType {
            rule: broken.rule,
            at: broken.at,
        }
        .into()),
    }
}

fn type_items(
    alloc: Global,
    scope: &Scope,
    items: &SelectItems,
) -> Result<Typing<Option<QueryItems>>, AllocError>
    ensures { IfOk result (λ found. found ≡ spec.typed_items scope.now items.now) }
{
    match items {
        SelectItems::All => Ok(Ok(None)),
        SelectItems::Listed(items) => match type_list(alloc, scope, items.as_slice())? {
            Ok(found) => Ok(Ok(Some(found))),
            Err(broken) => Ok(Err(broken)),
        },
    }
}

fn type_list(
    alloc: Global,
    scope: &Scope,
    items: &[SelectItem],
) -> Result<Typing<QueryItems>, AllocError>
    ensures { IfOk result (λ found. found ≡ spec.typed_list scope.now items.now) }
{
    let mut found = Ok(QueryItems::new(alloc));
    for (place, item) in items.iter().enumerate() {
        let part = type_item(alloc, scope, place, item)?;
        found = collected(found, part)?;
    }
    Ok(found)
}

fn type_item(
    alloc: Global,
    scope: &Scope,
    place: usize,
    item: &SelectItem,
) -> Result<Typing<QueryItem>, AllocError>
    ensures { IfOk result (λ part. part ≡ spec.typed_item scope.now place item.now) }
{
    match split(type_expr(alloc, scope, &item.expr))? {
        Ok(value) => {
            let name = item_name(alloc, scope.as_slice(), place, item.alias.as_ref(), &value)?;
            Ok(Ok(QueryItem { name, value }))
        }
        Err(broken) => Ok(Err(broken)),
    }
}

fn item_name(
    alloc: Global,
    scope: &[ScopeColumn],
    place: usize,
    alias: Option<&Name>,
    value: &TypedExpr,
) -> Result<Text, AllocError>
    ensures { IfOk result (λ name. name ≡ spec.item_name scope.now place (option_copied alias.entry) value.now) }
{
    match alias {
        Some(alias) => alias.text.clone(),
        None => own_name(alloc, scope, place, column_place(value)),
    }
}

fn own_name(
    alloc: Global,
    scope: &[ScopeColumn],
    place: usize,
    column: Option<usize>,
) -> Result<Text, AllocError>
    ensures { IfOk result (λ name. name ≡ spec.own_name scope.now place column) }
{
    match column {
        Some(at) => match scope.get(at) {
            Some(column) => column.name.clone(),
            None => numbered(alloc, place),
        },
        None => numbered(alloc, place),
    }
}

// `_c` and a place.
fn numbered(alloc: Global, place: usize) -> Result<Text, AllocError>
    ensures { IfOk result (λ name. name ≡ spec.numbered place) }
{
    let name = format!(in alloc; "_c{place}")?;
    Text::from_str(alloc, name.as_str())
}

// The place of the column that an expression is.
fn column_place(value: &TypedExpr) -> Option<usize>
    ensures { result ≡ spec.column_place (out-TypedExpr value.now) }
{
    match value {
        TypedExpr::Column { place, .. } => Some(*place),
        _ => None,
    }
}

fn type_conjuncts(
    alloc: Global,
    scope: &Scope,
    condition: Option<&Expr>,
) -> Result<Typing<TypedExprs>, AllocError>
    ensures { IfOk result (λ found. found ≡ spec.typed_condition scope.now (option_copied condition.entry)) }
{
    match condition {
        Some(condition) => split(type_condition(alloc, scope, condition)),
        None => Ok(Ok(TypedExprs::new(alloc))),
    }
}
