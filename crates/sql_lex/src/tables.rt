// Names of tables.
ghost use Rattle.std.specs.Prelude.{◌≡◌, ◌<◌, ◌≤◌, length};
ghost use Rattle.std.specs.Str.{str_eq_ignore_ascii_case};
ghost use Rattle.sql_lex.specs.Tables as spec;

use crate::bytes::{Class, Piece, are_in, begins_comment, begins_with, is_in};
use sql_tree::Kind;

/// Most bytes that a table's name has.
const MOST_NAME_BYTES: usize = 100;

/// Whether the bytes are a table's name.
pub(crate) fn is_table_name(name: &[u8]) -> bool
    ensures { result ≡ spec.is_table_name name.now }
{
    !name.is_empty()
        && name.len() <= MOST_NAME_BYTES
        && !begins_with(b'.', name)
        && are_in(Class::Table, name)
}

/// The length of the run at the front that a table's name is taken from.
pub(crate) fn table_len(mut bytes: &[u8]) -> usize
    ensures value { result ≡ spec.table_len bytes.entry.now }
    ensures within { result ≤ length bytes.entry.now }
{
    let mut len = 0;
    while let [byte, rest @ ..] = bytes {
        if !is_in(Class::Table, *byte) || begins_comment(bytes) {
            return len;
        }
        len += 1;
        bytes = rest;
    }
    len
}

/// The kind of such a run.
pub(crate) fn table_kind(name: &[u8]) -> Kind
    ensures { result ≡ spec.table_kind name.now }
{
    if !is_table_name(name) {
        Kind::Bad
    } else if name.eq_ignore_ascii_case(b"table_changes") {
        Kind::TableChanges
    } else {
        Kind::Table
    }
}

/// The table's name at the front, or the run that is none.
pub(crate) fn table(bytes: &[u8]) -> Piece
    requires { 0 < spec.table_len bytes.now }
    ensures value { result ≡ spec.table bytes.now }
    ensures within { (1 ≤ result.len) × (result.len ≤ length bytes.now) }
{
    let len = table_len(bytes);
    Piece {
        kind: table_kind(&bytes[..len]),
        len,
    }
}
