// Texts, names in backquotes and bytes.
ghost use Rattle.std.specs.Prelude.{◌≡◌, ◌+◌, ◌<◌, ◌≤◌, false, length, IfSome};
ghost use Rattle.std.specs.Str.{is_utf8};
ghost use Rattle.sql_lex.specs.Quotes as spec;

use crate::bytes::{Class, Piece, are_in, begins_with, run};
use crate::tables::is_table_name;
use dm_types::is_text;
use sql_tree::Kind;

/// How many bytes stand up to the quote that ends a quoted text, with it.
pub(crate) fn closing(quote: u8, mut bytes: &[u8]) -> Option<usize>
    ensures value { result ≡ spec.closing quote false 0 bytes.entry.now }
    ensures within { IfSome result (λ len. (1 ≤ len) × (len ≤ length bytes.entry.now)) }
{
    let mut second = false;
    let mut at = 0;
    while let [byte, rest @ ..] = bytes {
        if !second && *byte == quote && !begins_with(quote, rest) {
            return Some(at + 1);
        }
        second = !second && *byte == quote;
        at += 1;
        bytes = rest;
    }
    None
}

/// What stands between the first byte and the last.
pub(crate) fn inside(token: &[u8]) -> &[u8]
    ensures { result.now ≡ spec.inside token.now }
{
    match token {
        [_, inner @ .., _] => inner,
        _ => &[],
    }
}

fn text_kind(token: &[u8]) -> Kind
    ensures { result ≡ spec.text_kind token.now }
{
    if !is_text(token) {
        Kind::Bad
    } else if is_table_name(inside(token)) {
        Kind::TableText
    } else {
        Kind::Text
    }
}

fn name_kind(token: &[u8]) -> Kind
    ensures { result ≡ spec.name_kind token.now }
{
    if is_text(token) && token.len() > 2 {
        Kind::Name
    } else {
        Kind::Bad
    }
}

fn quoted_kind(quote: u8, token: &[u8]) -> Kind
    ensures { result ≡ spec.quoted_kind quote token.now }
{
    if quote == b'`' {
        name_kind(token)
    } else {
        text_kind(token)
    }
}

/// The text, or the name in backquotes, at the front.
pub(crate) fn quoted(quote: u8, bytes: &[u8]) -> Piece
    requires { 0 < length bytes.now }
    ensures value { result ≡ spec.quoted quote bytes.now }
    ensures within { (1 ≤ result.len) × (result.len ≤ length bytes.now) }
{
    match closing(quote, &bytes[1..]) {
        None => Piece {
            kind: Kind::Bad,
            len: bytes.len(),
        },
        Some(len) => Piece {
            kind: quoted_kind(quote, &bytes[..len + 1]),
            len: len + 1,
        },
    }
}

/// The digits between `X'` and the last quote.
pub(crate) fn hex_digits(token: &[u8]) -> &[u8]
    ensures { result.now ≡ spec.hex_digits token.now }
{
    match token {
        [_, _, digits @ .., _] => digits,
        _ => &[],
    }
}

fn bytes_kind(token: &[u8]) -> Kind
    ensures { result ≡ spec.bytes_kind token.now }
{
    let digits = hex_digits(token);
    if are_in(Class::Hex, digits) && digits.len() % 2 == 0 {
        Kind::Bytes
    } else {
        Kind::Bad
    }
}

/// The bytes `X'..'` at the front.
pub(crate) fn bytes(bytes: &[u8]) -> Piece
    requires { 2 ≤ length bytes.now }
    ensures value { result ≡ spec.bytes bytes.now }
    ensures within { (1 ≤ result.len) × (result.len ≤ length bytes.now) }
{
    let digits = run(Class::Inner, &bytes[2..]);
    if digits + 2 == bytes.len() {
        Piece {
            kind: Kind::Bad,
            len: bytes.len(),
        }
    } else {
        Piece {
            kind: bytes_kind(&bytes[..digits + 3]),
            len: digits + 3,
        }
    }
}
