// What every write statement does, once its checks have passed.
ghost use Rattle.std.specs.Prelude.{◌≡◌, IfOk};
ghost use Rattle.commit_log.specs.Block.{AreApart};
ghost use Rattle.dm_store.specs.Causes.{Counts, StopCause};
ghost use Rattle.table_write.specs.StepsWriting as steps;
ghost use Rattle.table_write.specs.Writing as spec;

use commit_log::{NewFiles, commit};
use dm_store::Store;
use dm_types::{Bytes, Stop};
use std::alloc::{AllocError, Global};

/// Puts a new version, and gives the text of its statement, which is built before the first put.
pub(crate) fn put_version<S: Store>(
    alloc: Global,
    store: &mut S,
    fresh: &NewFiles,
) -> Result<Bytes, Stop>
    requires { AreApart fresh.now }
    ensures puts { steps.PutsVersion fresh.now (S.files store.old) (S.files store.new)
        (S.taken store.old) (S.taken store.new) result }
    ensures cause { Counts StopCause (S.faults store.old) (S.faults store.new) result }
{
    let text = version_line(alloc, fresh.version)?;
    commit(alloc, store, fresh)?;
    Ok(text)
}

fn version_line(alloc: Global, version: u64) -> Result<Bytes, AllocError>
    ensures { IfOk result (λ line. line ≡ spec.version_line version) }
{
    let line = format!(in alloc; "version {version}\n")?;
    Ok(Bytes::from_vec(line.into_bytes()))
}
