// The first commit of a new table.
ghost use Rattle.std.specs.Prelude.{◌≡◌, ◌∷◌, [], IfOk};
ghost use Rattle.delta_actions.specs.declared.action.Action.TheVariants as action;
ghost use Rattle.table_make.specs.Created as spec;
ghost use Rattle.table_make.specs.NewColumns.{columns_of};

use crate::configuration::{configuration, given};
use crate::new_columns::columns;
use crate::protocol::{metadata, protocol};
use commit_log::NewFiles;
use delta_actions::{Action, Actions, InfoAction, MetadataAction, ProtocolAction};
use delta_schema::TableSchema;
use dm_types::{PathBytes, Text};
use file_names::name_text;
use sql_statements::CreateStmt;
use std::alloc::{AllocError, Global};
use table_features::is_mapped;

/// The first commit of a new table in this folder: where it comes from, its protocol and its metadata.
///
/// The table's id is the text of what was drawn, and the time is in milliseconds since 1970-01-01.
pub(crate) fn created(
    alloc: Global,
    stmt: &CreateStmt,
    table: &Text,
    drawn: &[u8; 16],
    time: i64,
) -> Result<NewFiles, AllocError>
    ensures { IfOk result (λ fresh. fresh ≡ spec.created stmt.now table.now drawn.now time) }
{
    let id = name_text(alloc, drawn)?;
    Ok(NewFiles {
        version: 0,
        table: table.clone()?,
        files: PathBytes::new(alloc),
        actions: actions(alloc, stmt, &id, time)?,
    })
}

// The actions of the commit.
#[tactic(auto, unfolding(crate::specs::Created::actions_of))]
fn actions(alloc: Global, stmt: &CreateStmt, id: &Text, time: i64) -> Result<Actions, AllocError>
    ensures { IfOk result (λ actions. actions ≡ spec.actions_of stmt.now id.now time) }
{
    let given = given(alloc, stmt.properties.as_slice())?;
    let mapped = is_mapped(given.as_slice());
    let columns = new_columns(alloc, stmt, mapped, id)?;
    let elements = stmt.elements.as_slice();
    let configuration = configuration(alloc, elements, given, mapped, columns.len(), id)?;
    let protocol = protocol(alloc, mapped, &columns, &configuration)?;
    let partitions = stmt.partitions.as_slice();
    let metadata = metadata(alloc, id, &columns, partitions, configuration, time)?;
    in_a_row(alloc, info(alloc, time)?, protocol, metadata)
}

// The columns, which have ids and physical names where they are mapped.
fn new_columns(
    alloc: Global,
    stmt: &CreateStmt,
    mapped: bool,
    id: &Text,
) -> Result<TableSchema, AllocError>
    ensures { IfOk result (λ columns. columns
        ≡ columns_of stmt.now.partitions (spec.mapping mapped id.now) stmt.now.elements) }
{
    let mapping = if mapped { Some(id) } else { None };
    columns(
        alloc,
        stmt.elements.as_slice(),
        stmt.partitions.as_slice(),
        mapping,
    )
}

// The actions in the order of a commit's lines.
fn in_a_row(
    alloc: Global,
    info: InfoAction,
    protocol: ProtocolAction,
    metadata: MetadataAction,
) -> Result<Actions, AllocError>
    ensures { IfOk result (λ actions. actions
        ≡ action.Info info ∷ action.Protocol protocol ∷ action.Metadata metadata ∷ []) }
{
    let mut actions = Actions::new(alloc);
    actions.push(Action::Info(info))?;
    actions.push(Action::Protocol(protocol))?;
    actions.push(Action::Metadata(metadata))?;
    Ok(actions)
}

// Where the commit comes from.
fn info(alloc: Global, time: i64) -> Result<InfoAction, AllocError>
    ensures { IfOk result (λ info. info ≡ spec.info_of time) }
{
    Ok(InfoAction {
        operation: Text::from_str(alloc, "CREATE")?,
        timestamp: time,
    })
}
