// Whether a table may be written.
ghost use Rattle.std.specs.Prelude.{◌+◌, ◌<◌, ◌^◌, OnOk};
ghost use Rattle.table_load.specs.OpenedForWriting as spec;
ghost use Rattle.table_load.specs.StepsLoading.{Gives};

use crate::head::permit;
use crate::properties::is_on;
use dm_types::{Counted, Stop, TableRefusal, Text};
use log_replay::{MAX_COMMITS, Snapshot};
use std::alloc::Global;
use table_features::check_write;

/// The property that asks for change files.
const CHANGE_DATA_FEED: &str = "delta.enableChangeDataFeed";

/// Whether a table may be written.
///
/// The first of these is refused: a writer version other than 1 to 7 (`ProtocolUnsupported`), at writer
/// version 7 a writer feature that isn't known (`UnknownFeature`, the least by bytes), a log
/// without room for one more commit (`TooLarge`), a table that asks for change files (`UnsupportedRule`).
pub(crate) fn check_writable(alloc: Global, table: &Snapshot) -> Result<(), Stop>
    ensures answer { Gives (spec.writable table.now) result }
    ensures room { OnOk result (table.now.version + 1 < 2 ^ 63) }
{
    permit(alloc, &table.protocol, check_write(&table.protocol))?;
    check_room(table.version)?;
    check_rules(alloc, table)
}

// The log has fewer commits than it may have.
fn check_room(newest: u64) -> Result<(), Stop>
    ensures answer { Gives (spec.has_room newest) result }
    ensures room { OnOk result (newest + 1 < 2 ^ 63) }
{
    if newest >= MAX_COMMITS - 1 {
        let counted = Counted::Commits;
        return Err(TableRefusal::TooLarge { counted }.into());
    }
    Ok(())
}

// The table doesn't ask for change files.
fn check_rules(alloc: Global, table: &Snapshot) -> Result<(), Stop>
    ensures { Gives (spec.keeps_rules table.now) result }
{
    if is_on(table, CHANGE_DATA_FEED) {
        let name = Text::from_str(alloc, CHANGE_DATA_FEED)?;
        return Err(TableRefusal::UnsupportedRule { name }.into());
    }
    Ok(())
}
