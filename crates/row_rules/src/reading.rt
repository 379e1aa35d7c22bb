// The rules of a table.
ghost use Rattle.row_rules.specs.Answers.{Reads};
ghost use Rattle.row_rules.specs.Rules as spec;

use crate::checks::check_rules;
use crate::columns::column_rules;
use crate::fault::RuleFault;
use crate::rules::{CheckRules, ColumnRules, Rules};
use crate::tracking::keeps_ids;
use dm_types::Text;
use std::alloc::Global;
use table_load::{Head, is_on};

/// The property that asks for change files.
const CHANGE_DATA_FEED: &str = "delta.enableChangeDataFeed";

/// The rules of a table's rows, each text read and typed once.
///
/// The first that can't be kept is a fault, columns in the order of the schema, then constraints in the
/// byte order of their names, and row tracking at last:
///
/// - a column with an invariant; with some members of an identity, but without one; that isn't a
///   partition column, and whose name in data files is longer than 1,048,576 bytes, or is
///   `_change_type` where the table asks for change files;
/// - a column whose generation expression isn't an expression, has no type over the columns that are
///   neither generated nor identities, or can't be assigned to it;
/// - a constraint whose text isn't an expression, or is no condition over the columns;
/// - row tracking (`delta.rowTracking`), where one of the two materialized columns has no name, or one
///   that data files can't have beside the columns.
pub fn read_rules(alloc: Global, head: &Head) -> Result<Rules, RuleFault>
    ensures rules { Reads (spec.rules_of head.now) result }
{
    let columns = rules_of_columns(alloc, head)?;
    let checks = rules_of_checks(alloc, head)?;
    check_tracking(alloc, head)?;
    Ok(Rules { columns, checks })
}

fn rules_of_columns(alloc: Global, head: &Head) -> Result<ColumnRules, RuleFault>
    ensures { Reads (spec.column_rules head.now) result }
{
    let feed = is_on(&head.snapshot, CHANGE_DATA_FEED);
    column_rules(alloc, head.schema.as_slice(), head.mode, feed)
}

fn rules_of_checks(alloc: Global, head: &Head) -> Result<CheckRules, RuleFault>
    ensures { Reads (spec.check_rules head.now) result }
{
    let columns = head.schema.as_slice();
    match &head.snapshot.metadata.configuration {
        Some(properties) => check_rules(alloc, columns, properties.as_slice()),
        None => Ok(CheckRules::new(alloc)),
    }
}

// Whether rows that are tracked have columns for their ids and commit versions.
fn check_tracking(alloc: Global, head: &Head) -> Result<(), RuleFault>
    ensures { Reads (spec.tracking head.now) result }
{
    if keeps_ids(head) {
        return Ok(());
    }
    let name = Text::from_str(alloc, "delta.rowTracking")?;
    Err(RuleFault::Unsupported { name })
}
