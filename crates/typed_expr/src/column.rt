// The columns that names are of.
ghost use Rattle.std.specs.Prelude.{◌≡◌};
ghost use Rattle.std.specs.List.{position, list_any};
ghost use Rattle.std.specs.Str.{str_eq_ignore_ascii_case};
ghost use Rattle.typed_expr.specs.Columns as spec;

use crate::broken::{Typing, breaks};
use crate::scope::{Scope, ScopeColumn};
use crate::tree::TypedExpr;
use dm_types::Text;
use sql_tree::{Name, Span};

// Names are told apart without the case of ASCII letters.
fn is_equal(name: &Text, other: &Text) -> bool
    ensures { result ≡ str_eq_ignore_ascii_case name.now other.now }
{
    name.as_bytes().eq_ignore_ascii_case(other.as_bytes())
}

fn has_qualifier(qualifier: &Option<Name>, column: &ScopeColumn) -> bool
    ensures { result ≡ spec.has_qualifier qualifier.now column.now }
{
    match qualifier {
        Some(qualifier) => is_equal(&column.qualifier, &qualifier.text),
        None => true,
    }
}

fn is_named(qualifier: &Option<Name>, name: &Name, column: &ScopeColumn) -> bool
    ensures { result ≡ spec.is_named qualifier.now name.now column.now }
{
    has_qualifier(qualifier, column) && is_equal(&column.name, &name.text)
}

fn is_rival(first: &ScopeColumn, column: &ScopeColumn) -> bool
    ensures { result ≡ spec.is_rival first.now column.now }
{
    is_equal(&column.name, &first.name) && !is_equal(&column.qualifier, &first.qualifier)
}

// The first column of a name.
fn place_of(scope: &[ScopeColumn], qualifier: &Option<Name>, name: &Name) -> Option<usize>
    ensures { result ≡ position (spec.is_named qualifier.now name.now) scope.now }
{
    scope
        .iter()
        .position(|column| is_named(qualifier, name, column))
}

fn has_rival(scope: &[ScopeColumn], first: &ScopeColumn) -> bool
    ensures { result ≡ list_any (spec.is_rival first.now) scope.now }
{
    scope.iter().any(|column| is_rival(first, column))
}

// Without a qualifier the name is of two sides.
fn is_of_two(qualifier: &Option<Name>, scope: &[ScopeColumn], first: &ScopeColumn) -> bool
    ensures { result ≡ spec.is_of_two qualifier.now scope.now first.now }
{
    match qualifier {
        Some(_) => false,
        None => has_rival(scope, first),
    }
}

fn column_at(
    scope: &[ScopeColumn],
    at: usize,
    qualifier: &Option<Name>,
    place: usize,
) -> Typing<TypedExpr>
    ensures { result ≡ spec.column_at scope.now at qualifier.now place }
{
    match scope.get(place) {
        Some(first) => {
            if is_of_two(qualifier, scope, first) {
                return breaks(2, at);
            }
            Ok(TypedExpr::Column {
                kind: first.kind,
                place,
            })
        }
        None => breaks(1, at),
    }
}

// The first column of the name; rule 1 where there is none, rule 2 where two sides have the name.
pub(crate) fn column(
    scope: &Scope,
    span: Span,
    qualifier: &Option<Name>,
    name: &Name,
) -> Typing<TypedExpr>
    ensures { result ≡ spec.column scope.now span qualifier.now name.now }
{
    let scope = scope.as_slice();
    match place_of(scope, qualifier, name) {
        Some(place) => column_at(scope, span.start, qualifier, place),
        None => breaks(1, span.start),
    }
}
