// What is wrong with the definition of a new table.
ghost use Rattle.std.specs.Prelude.{◌≡◌, IfOk};
ghost use Rattle.table_make.specs.Faults as spec;

use crate::columns::{first_columnless, first_of_columns};
use crate::elements::{checks_of, columns_of};
use crate::partitions::first_unparted;
use crate::places::earlier;
use crate::properties::{first_improper, is_mapped};
use crate::rules::{first_double, first_of_rules};
use sql_statements::CreateStmt;
use std::alloc::{AllocError, Global};

/// The least place of all faults of a definition, in bytes from the script's first, and `None` exactly
/// where there is none.
///
/// The error is want of memory alone. The work isn't more than linear in the definition, but for the
/// rules: each name in one is looked for among the columns.
#[tactic(auto, using(crate::proofs::Least::six), unfolding(crate::specs::Faults::faults, crate::specs::Faults::first_fault))]
pub(crate) fn first_fault(alloc: Global, stmt: &CreateStmt) -> Result<Option<usize>, AllocError>
    ensures { IfOk result (λ at. at ≡ spec.first_fault stmt.now) }
{
    let elements = stmt.elements.as_slice();
    let columns = columns_of(alloc, elements)?;
    let checks = checks_of(alloc, elements)?;
    let columns = columns.as_slice();
    let checks = checks.as_slice();
    let found = first_of_columns(is_mapped(stmt.properties.as_slice()), columns);
    let found = earlier(found, first_columnless(columns, elements));
    let found = earlier(found, first_double(checks));
    let found = first_of_rules(alloc, found, columns, checks)?;
    let found = first_unparted(found, columns, stmt.partitions.as_slice());
    Ok(first_improper(found, stmt.properties.as_slice()))
}
