// Paths as they are logged.
ghost use Rattle.std.specs.Prelude.{◌≡◌};
ghost use Rattle.dm_store.specs.LoggedPath as spec;

use dm_types::{Bytes, Text};
use percent_encoding::percent_decode;
use std::alloc::{AllocError, Global};
use thiserror::Error;

/// Why a logged path is none of a file below the table's folder.
#[derive(Clone, Copy, Debug, PartialEq, Eq, Error)]
pub enum PathFault {
    /// It begins with a scheme, or what it decodes to is no path below a folder.
    #[error("the path is none below the folder")]
    BadPath,
    /// There was no memory.
    #[error("no memory for the path")]
    Memory,
}

impl From<AllocError> for PathFault {
    ghost use Rattle.std.specs.Prelude.{◌≡◌};
    ghost use Rattle.dm_store.specs.declared.logged_path.PathFault.TheVariants.{Memory};

    ghost from_gives = { λ _ e. e ≡ Memory };

    fn from(_: AllocError) -> PathFault {
        PathFault::Memory
    }
}

/// The path that a logged one means: its escapes `%XX` are resolved.
///
/// BadPath comes exactly where the logged path begins with a scheme (a letter, then letters, digits,
/// `+`, `-` or `.`, then `:`), or where what it decodes to isn't UTF-8, holds a zero byte, begins with
/// `/`, or has a segment that is empty, `.` or `..` (PROTOCOL.md, "Add File and Remove File").
pub fn decode_path(alloc: Global, path: &str) -> Result<Text, PathFault>
    ensures { spec.Decodes (spec.path_of path.now) result }
{
    if begins_with_scheme(path.as_bytes()) {
        return Err(PathFault::BadPath);
    }
    let mut decoded = Vec::new(alloc);
    percent_decode(path.as_bytes()).append_to(&mut decoded)?;
    text_of(Bytes::from_vec(decoded))
}

// The text of bytes that are a path.
fn text_of(path: Bytes) -> Result<Text, PathFault>
    ensures { spec.Decodes (spec.text_of path) result }
{
    if !has_names(path.as_slice()) {
        return Err(PathFault::BadPath);
    }
    match Text::from_utf8(path) {
        Some(text) => Ok(text),
        None => Err(PathFault::BadPath),
    }
}

fn is_scheme_byte(byte: u8) -> bool
    ensures { result ≡ spec.is_scheme_byte byte }
{
    byte.is_ascii_alphanumeric() || byte == b'+' || byte == b'-' || byte == b'.'
}

fn begins_with_scheme(path: &[u8]) -> bool
    ensures { result ≡ spec.begins_with_scheme path.now }
{
    match path.split_first() {
        Some((first, rest)) => first.is_ascii_alphabetic() && ends_scheme(rest),
        None => false,
    }
}

// Whether a colon stands behind the bytes of a scheme.
fn ends_scheme(rest: &[u8]) -> bool
    ensures { result ≡ spec.ends_scheme rest.now }
{
    for byte in rest {
        if !is_scheme_byte(*byte) {
            return *byte == b':';
        }
    }
    false
}

#[tactic(auto, unfolding(crate::specs::LoggedPath::has_names))]
fn has_names(path: &[u8]) -> bool
    ensures { result ≡ spec.has_names path.now }
{
    has_no_zero(path) && are_names(path)
}

fn has_no_zero(path: &[u8]) -> bool
    ensures { result ≡ spec.has_no_zero path.now }
{
    path.iter().all(|byte| *byte != 0)
}

fn are_names(path: &[u8]) -> bool
    ensures { result ≡ spec.are_names path.now }
{
    path.split(|byte| *byte == b'/')
        .all(|segment| is_name(segment))
}

fn is_name(segment: &[u8]) -> bool
    ensures { result ≡ spec.is_name segment.now }
{
    segment != b"".as_slice() && segment != b".".as_slice() && segment != b"..".as_slice()
}
