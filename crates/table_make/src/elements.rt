// The elements of a new table, apart by their sorts.
ghost use Rattle.std.specs.Prelude.{◌≡◌, IfOk, map};
ghost use Rattle.table_make.specs.Elements as spec;
ghost use Rattle.table_make.specs.Seen as seen;
ghost use Rattle.table_make.specs.Steps.{check_at, column_at};

use crate::names::hold;
use dm_types::{DataType, Items};
use sql_statements::{CheckElement, ColumnElement, Element};
use sql_tree::WrittenKind;
use std::alloc::{AllocError, Global};
use std::collections::BTreeSet;

/// A column of a new table.
#[derive(Drop)]
pub(crate) struct Column<'a> {
    pub element: &'a ColumnElement,
    /// Whether an earlier column has its name.
    pub doubled: bool,
}

/// A constraint of a new table.
#[derive(Drop)]
pub(crate) struct Check<'a> {
    pub element: &'a CheckElement,
    /// Whether an earlier constraint has its name.
    pub doubled: bool,
}

/// The columns among elements.
pub(crate) fn columns_of(
    alloc: Global,
    elements: &[Element],
) -> Result<Items<Column<'_>>, AllocError>
    ensures { IfOk result (λ it. map column_at it ≡ spec.columns elements.now) }
{
    let mut columns = Items::new(alloc);
    let mut names = BTreeSet::new(alloc);
    for element in elements {
        let Element::Column(column) = element else {
            continue;
        };
        let doubled = hold(alloc, &mut names, &column.name)?;
        columns.push(Column {
            element: column,
            doubled,
        })?;
    }
    Ok(columns)
}

/// The constraints among elements.
pub(crate) fn checks_of(alloc: Global, elements: &[Element]) -> Result<Items<Check<'_>>, AllocError>
    ensures { IfOk result (λ it. map check_at it ≡ spec.checks elements.now) }
{
    let mut checks = Items::new(alloc);
    let mut names = BTreeSet::new(alloc);
    for element in elements {
        let Element::Check(check) = element else {
            continue;
        };
        let doubled = hold(alloc, &mut names, &check.name)?;
        checks.push(Check {
            element: check,
            doubled,
        })?;
    }
    Ok(checks)
}

/// The type of a column's values. A bad DECIMAL is none, and `Void` stands for it.
pub(crate) fn type_of(kind: WrittenKind) -> DataType
    ensures { result ≡ seen.type_of kind }
{
    match kind {
        WrittenKind::Type(kind) => kind,
        WrittenKind::BadDecimal { .. } => DataType::Void,
    }
}
