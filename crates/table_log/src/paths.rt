// The paths of a table's files, and the names of its commit files (PROTOCOL.md, "Delta Log Entries").
ghost use Rattle.std.specs.Prelude.{◌≡◌, IfOk, string_bytes};
ghost use Rattle.std.specs.Str.{all_ascii_digits};
ghost use Rattle.table_log.specs.Log as spec;

use dm_types::Text;
use std::alloc::{AllocError, Global};

/// A path below a folder.
pub fn path_below(folder: &Text, path: &Text) -> Result<Text, AllocError>
    ensures { IfOk result (λ whole. whole ≡ spec.below folder.now path.now) }
{
    let mut whole = folder.clone()?;
    whole.push('/')?;
    whole.push_str(path.as_str())?;
    Ok(whole)
}

/// The folder of a table's commit files.
pub fn log_folder(alloc: Global, table: &Text) -> Result<String, AllocError>
    ensures { IfOk result (λ folder. string_bytes folder ≡ spec.log_folder table.now) }
{
    let table = table.as_str();
    format!(in alloc; "{table}/_delta_log")
}

/// The path of a version's commit file: twenty digits and `.json` in the log folder.
pub fn commit_path(alloc: Global, table: &Text, version: u64) -> Result<String, AllocError>
    ensures { IfOk result (λ path. string_bytes path ≡ spec.commit_path table.now version) }
{
    let table = table.as_str();
    format!(in alloc; "{table}/_delta_log/{version:020}.json")
}

/// The version that the name of a commit file spells, up to 2^63 - 1.
pub fn version_of(name: &str) -> Option<u64>
    ensures { result ≡ spec.version_of name.now }
{
    let (digits, rest) = name.split_at_checked(20)?;
    if rest != ".json" || !are_digits(digits) {
        return None;
    }
    let version = digits.parse::<u64>().ok()?;
    if version > i64::MAX as u64 {
        return None;
    }
    Some(version)
}

fn are_digits(text: &str) -> bool
    ensures { result ≡ all_ascii_digits text.now }
{
    text.as_bytes().iter().all(|byte| byte.is_ascii_digit())
}
