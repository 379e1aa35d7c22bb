// The answer of SHOW FILES.
ghost use Rattle.std.specs.Prelude.{◌≡◌, ◌++◌, ◌∷◌, [], OnOk, IfOk};
ghost use Rattle.dm_text.specs.Printing.{field};
ghost use Rattle.dm_store.specs.Causes.{Counts, StopCause};
ghost use Rattle.script_run.specs.Shown as spec;
ghost use Rattle.table_load.specs.Tells.{Tells};

use dm_store::Store;
use dm_text::print_field;
use dm_types::{Bytes, DataType, Stop, Text, TextList, Value, sort_texts};
use log_replay::live_paths;
use std::alloc::{AllocError, Global};
use table_load::load_log;

/// The text of SHOW FILES: a line for each live file of the newest version of the table in a folder,
/// its path as logged, in byte order of the paths.
pub(crate) fn show_files<S: Store>(
    alloc: Global,
    store: &mut S,
    folder: &Text,
) -> Result<Bytes, Stop>
    ensures answer { Tells (S.files store.old) (λ files. spec.show_files folder.now files) result }
    ensures kept { S.files store.new ≡ S.files store.old }
    ensures cause { Counts StopCause (S.faults store.old) (S.faults store.new) result }
    ensures taken { S.taken store.new ≡ S.taken store.old }
{
    let commits = load_log(alloc, store, folder, None)?;
    let mut paths = live_paths(alloc, &commits)?;
    sort_texts(&mut paths);
    Ok(path_lines(alloc, &paths)?)
}

fn path_lines(alloc: Global, paths: &TextList) -> Result<Bytes, AllocError>
    ensures { IfOk result (λ text. text ≡ spec.path_lines paths.now) }
{
    let mut text = Bytes::new(alloc);
    for path in paths.as_slice() {
        print_line(&mut text, path.clone()?)?;
    }
    Ok(text)
}

fn print_line(out: &mut Bytes, path: Text) -> Result<(), AllocError>
    ensures { OnOk result (out.new ≡ out.old ++ field path ++ 10 ∷ []) }
{
    print_field(&Value::Text(path), &DataType::Str, out)?;
    out.push(b'\n')
}
