// Finding a file by its path, and the names in a folder.
ghost use Rattle.std.specs.Prelude.{◌≡◌, IfOk};
ghost use Rattle.std.specs.Option.{option_copied};
ghost use Rattle.dm_store.specs.Files as spec;

use crate::paths::name_below;
use dm_types::{Bytes, Text, TextList};
use std::alloc::{AllocError, Global};

/// The bytes of the path, if a file has it.
pub fn find<'a>(files: &'a [(Text, Bytes)], path: &str) -> Option<&'a Bytes>
    ensures { option_copied result ≡ spec.lookup path.now files.now }
{
    for file in files {
        if path == file.0.as_str() {
            return Some(&file.1);
        }
    }
    None
}

/// The names directly below a folder, in the order of the files.
pub fn names_below(
    alloc: Global,
    files: &[(Text, Bytes)],
    dir: &str,
) -> Result<TextList, AllocError>
    ensures { IfOk result (λ names. names ≡ spec.names_below dir.now files.now) }
{
    let mut names = TextList::new(alloc);
    for file in files {
        if let Some(name) = name_below(dir, file.0.as_str()) {
            names.push(Text::from_str(alloc, name)?)?;
        }
    }
    Ok(names)
}
